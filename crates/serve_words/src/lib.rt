//! The words of the command `serve`. [`read_serve`] reads which nodes there are to be, and on which ports.
#![tactic(auto)]

mod numbers;
mod plans;
mod reads;

pub use plans::ServePlan;
pub use reads::read_serve;
