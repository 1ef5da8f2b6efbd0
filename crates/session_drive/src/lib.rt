//! How a client's session begins, is served and ends, over any desks, chats, clocks and draws.
#![tactic(auto)]

mod acks;
mod answers;
mod asks;
mod ends;
mod hellos;
mod registers;
mod saves;
mod says;
mod sends;
mod shards;
mod shuts;
mod turns;

pub use answers::answer_text;
pub use ends::SessionEnd;
pub use hellos::hello;
pub use sends::send;
pub use shuts::shut;
pub use turns::{Turned, turn};
