//! What a running node is given by the machine that it runs on, beside the bytes of `push_outside`. [`Ports`] give a
//! [`Listener`], which gives wires, one after the other; a [`Spawner`] runs each [`Job`]; a [`Bell`] ends the sleep of a node's
//! loop. Contracts speak of counts alone: of faults, and of what was given, started and joined. Whatever else the machine does
//! here, a node keeps its promises. Beside the traits stand forms in memory.
#![tactic(auto)]

mod bell;
mod fail_spawner;
mod job;
mod list_ports;
mod listener;

pub use bell::{Bell, NoBell};
pub use fail_spawner::{FailSpawner, HeldJob};
pub use job::{Job, Spawner};
pub use list_ports::{ListListener, ListPorts};
pub use listener::{Accepted, Listener, Ports};
