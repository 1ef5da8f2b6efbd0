//! The loops of a node. A [`Gate`] tells a loop when to stop, and an [`Each`] serves one connection after the other.
//! [`endpoint_loop`] gives it each wire that a listener gives; by [`Share`] two such loops use one listener.
#![tactic(auto)]

mod each;
mod endpoint;
mod gate;
mod list_gate;
mod pins;
mod share;

pub use each::Each;
pub use endpoint::endpoint_loop;
pub use gate::{Gate, StopGate};
pub use list_gate::{GateNote, ListGate};
pub use pins::counts_rise_together;
pub use share::Share;
