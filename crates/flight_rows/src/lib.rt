//! The flights of one user: which messages are on their way, how far each has come, and what happens to it next.
#![tactic(auto)]

mod advance;
mod flights;

pub use flights::{Flight, Flights};
