//! The loops of the nodes as jobs. A [`NodeJob`] is the loop of a connection node or one of the two loops of an endpoint node, over
//! passes of its own; [`HttpEach`] is what serves an endpoint's connections.
#![tactic(auto)]

mod http;
mod job;
pub mod laws;

pub use http::HttpEach;
pub use job::NodeJob;
