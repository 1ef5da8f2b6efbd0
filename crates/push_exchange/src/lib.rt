//! Sixteen shards, each on a board of its own, and the passes with which callers use all of them at once.
#![tactic(auto)]

mod board;
mod exchange;
mod hall;
mod object;
mod passes;
mod shards;

pub use exchange::Exchange;
pub use object::ShardObject;
pub use passes::Passes;
pub use shards::Shards;
