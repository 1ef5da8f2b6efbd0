//! The stored messages of one user: what comes of a message that is to be stored or saved among them, which of them are
//! sent next, and which of them expire. Room can be kept for messages that are saved later.
#![tactic(auto)]

mod answers;
mod going;
mod marks;
mod moments;
mod pages;
mod places;
mod rows;
mod verdicts;

pub use answers::{PutAnswer, StoreAnswer};
pub use rows::Rows;
