//! The schedule language: steps of a shard as lines, and the lines of replies.
//!
//! A line is words with exactly one space between them, and its LF is no part of it. `specs/Spelling` spells each step,
//! and `specs/Replies` each reply. Each step in range has one line and each line at most one step: what is read is
//! spelled so, and what is spelled so is read.
#![tactic(auto)]

mod begin;
mod digits;
mod fault;
mod flight_lines;
mod hex_text;
mod kind;
pub mod laws;
mod line;
mod print;
mod reply;
mod session_lines;
mod shape;
mod shard_lines;
mod spaces;
mod values;
mod words;
mod writing;
mod wrong;

pub use fault::LineFault;
pub use kind::Kind;
pub use line::read_line;
pub use print::print_step;
pub use reply::{ReplyLine, print_reply};
pub use wrong::{Wrong, what_is_wrong};
