//! How a push service reaches the node that has a user's session. A [`NodeLink`] asks that node to take a message or to look
//! at stored ones; [`HereLink`] is one for nodes on the same desks, and [`FailLink`] one that is lost at times.
#![tactic(auto)]

mod fail;
mod here;
mod link;
mod routes;

pub use fail::FailLink;
pub use here::HereLink;
pub use link::{Linked, NodeLink};
pub use routes::{node_notif, node_push};
