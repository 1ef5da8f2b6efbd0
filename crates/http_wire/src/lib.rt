//! Requests and replies of HTTP/1.1 (RFC 9112) over a wire: what the next request of some bytes is, reading it, and writing a
//! reply.
#![tactic(auto)]

mod body;
mod chunk;
mod framing;
mod head;
pub mod laws;
pub mod pins;
mod reply;
mod request;

pub use body::Body;
pub use head::{Head, Lone};
pub use http_bytes::{Rest, WireFault};
pub use reply::{HttpReply, write_reply};
pub use request::{Request, next_request};
