//! A running service over any ports, threads, clock and draws: its listeners, its exchange and the loops of its nodes are made, its
//! operator's lines are answered until they end, and then all is taken down in order.
#![tactic(auto)]

mod crew;
mod doors;
mod ends;
mod halt;
mod house;
mod serving;
mod starts;
mod sums;

pub use ends::ServeEnd;
pub use halt::Halt;
pub use serving::serve;
