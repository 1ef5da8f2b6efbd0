//! Tests of a whole command: its status, and what is said of how it ended.
#![tactic(auto)]

#[cfg(test)]
mod messages;
