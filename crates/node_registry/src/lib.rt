//! The sessions of a user, attached and displaced: at most one is attached at a node.
#![tactic(auto)]

mod attach;
mod places;
mod registry;

pub use attach::AttachFault;
pub use registry::Registry;
