//! The endpoint over HTTP: what is wrong with a request, what one without a fault asks for, how its sender is answered, and a
//! connection's requests one after the other.
#![tactic(auto)]

mod closing;
mod ends;
mod exchange;
mod fault;
mod judging;
pub mod laws;
mod ops;
mod outcome;
pub mod pins;
mod refusal;
mod serving;
mod tell;

pub use ends::HttpEnd;
pub use fault::Fault;
pub use judging::{Judged, judge};
pub use ops::Ops;
pub use outcome::Outcome;
pub use refusal::Refusal;
pub use serving::serve_http;
pub use tell::{tell_created, tell_no_memory, tell_refusal};
