//! The clock and messages.
#![tactic(auto)]

mod dues;
mod expiry;

pub use dues::Due;
pub use expiry::{expired, expires_at};
