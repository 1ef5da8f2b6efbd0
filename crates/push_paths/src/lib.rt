//! The paths that are served: `/wpush/v1/` and one part behind it, which is a token's text.
#![tactic(auto)]

mod paths;
pub mod pins;

pub use paths::Paths;
