//! The loop that serves the sessions of a connection node.
#![tactic(auto)]

mod accepts;
mod closes;
pub mod laws;
mod loops;
mod mail;
mod pumps;
mod rounds;
mod seats;
mod wanted;

pub use loops::connection_loop;
