//! What the head of a push request asks for (RFC 8030): TTL, Topic, Urgency and the coding of its body.
#![tactic(auto)]

mod ask;
mod check;
pub mod pins;
mod values;

pub use ask::{AskFault, read_ask};
pub use check::{HeadFault, check_head};
