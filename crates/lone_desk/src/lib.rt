//! A desk of one shard, at which nobody else is.
#![tactic(auto)]

mod desk;
mod notes;
#[cfg(test)]
mod tests;

pub use desk::LoneDesk;
