//! A board: callers take turns on one object, and each of them knows a beginning of the object's one history.
#![tactic(auto)]

mod board;
mod entries;
mod mail_words;
mod object;
mod pass;
pub mod pins;
mod plays;
mod posting;
mod rule;
mod seats;
mod sharing;
#[cfg(test)]
mod tests;
mod turns;
mod view;

pub use object::Object;
pub use pass::{Board, Pass};
