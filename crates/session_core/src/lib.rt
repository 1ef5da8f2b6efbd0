//! One session of a user: the messages that it holds, what it was sent, and how it looks at the stored rows.
#![tactic(auto)]

mod acks;
mod fetch;
mod inbox;
mod page;
mod parts;
mod sent;
mod session;

pub use acks::AckAnswer;
pub use parts::Parts;
pub use session::{SessionCore, fetch_stage};
