//! Tests of chats over WebSockets, and of a client's session, over sockets of this machine, with a client that writes its
//! bytes itself. A wait is bounded everywhere, so that a test which isn't answered fails.
#![tactic(auto)]

mod client;
#[cfg(test)]
mod conversations;
#[cfg(test)]
mod endings;
#[cfg(test)]
mod meeting;

pub use client::Client;
