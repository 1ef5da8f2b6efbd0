//! The tokens by which application servers name channels: how they are drawn and spelled, and whose channel each is.
#![tactic(auto)]

mod draw;
mod rows;
mod texts;

pub use draw::draw_token;
pub use rows::{InsertFault, TokenRows};
pub use texts::{TokenText, read_token, spell};
