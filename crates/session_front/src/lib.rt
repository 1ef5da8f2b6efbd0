//! Clients' sessions, from the first item of a chat to the code that ends it.
#![tactic(auto)]

mod greets;
mod live;
mod pumps;
mod serves;

pub use live::{Live, Place, Pumped, SessionServed};
pub use pumps::pump;
pub use serves::serve_session;
