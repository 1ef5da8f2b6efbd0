//! The savers of a user: what is left of closed sessions, until it is saved and told of.
#![tactic(auto)]

mod advance;
mod node;
mod rows;
mod saver;
mod saving;

pub use rows::SaverRows;
