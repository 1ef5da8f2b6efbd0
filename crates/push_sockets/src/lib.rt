//! Ports, listeners, wires and bells over the sockets of this machine. Each listener is a set of readiness (epoll) of its own,
//! with the connections that it accepted; its wires make no system call while nothing is there for them; its bell (an eventfd)
//! ends its wait from other threads.
//!
//! A connection becomes a wire once its first message is there, with its body where it has one, so that no wire waits for a slow
//! client. One that rests between two messages with nothing to read is parked, and given again as a new wire once its next message is
//! there. A wire that is dropped ends its connection in order: it is shut down for writing, and what still comes is read and forgotten for
//! a moment, so that the last answer isn't lost.
//!
//! No contract says what a socket gives or when it is ready; the code here is proved to be safe, to end, and to count exactly.
#![tactic(auto)]

mod bell;
mod connection;
mod hub;
mod incoming;
mod listener;
mod ports;
mod slot;
mod wire;

pub use bell::SocketBell;
pub use listener::SocketListener;
pub use ports::SocketPorts;
pub use wire::SocketWire;
