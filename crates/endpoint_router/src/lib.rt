//! The route of one message: it begins a flight, and makes the steps that the flight's stages ask for, until the flight ends
//! and its sender can be answered.
#![tactic(auto)]

mod answer;
mod calls;
mod given;
pub mod laws;
mod nudged;
mod replies;
mod routes;
mod routing;
mod shards;
mod stored;

pub use answer::Answer;
pub use routes::route;
pub use shards::shard_of;
