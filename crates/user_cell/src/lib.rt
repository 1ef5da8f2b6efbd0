//! One user's cell: what a shard keeps of a user, and every step on one user.
#![tactic(auto)]

mod cell;
mod clock_steps;
mod counts;
mod fetch_steps;
mod flight_steps;
mod node_steps;
mod outcomes;
mod saver_steps;
mod session_steps;
mod user_steps;

pub use cell::UserCell;
