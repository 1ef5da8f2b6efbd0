//! A shard: its clock, its message numbers, its nodes, the cells of its users and its tally, and every step on it.
#![tactic(auto)]

mod cells;
mod dues;
mod flight_owners;
mod places;
mod shard;
mod state;
mod token_owners;
mod token_steps;

pub use shard::Shard;
