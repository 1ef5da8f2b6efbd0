//! JSON of the outside (RFC 8259): texts are read by `serde_json`, and refusals have bodies.
#![tactic(auto)]

mod body;
pub mod pins;
mod read;

pub use body::error_body;
pub use read::{JsonFault, parse, text_field};
