//! The bytes of HTTP/1.1 (RFC 9112) on a wire: those that were read and belong to no request yet, waiting until they have a form
//! in front, the forms of a request's parts, and text on its way out. What a request and a reply are is said above.
#![tactic(auto)]

mod body_forms;
mod fault;
mod head_forms;
mod number;
mod outbox;
mod part;
mod rest;
mod wait;
mod write;

pub use body_forms::{ChunkForm, LineForm, PieceForm};
pub use fault::WireFault;
pub use head_forms::{HeadForm, LINES, TrailerForm};
pub use number::read_number;
pub use outbox::Outbox;
pub use part::read_part;
pub use rest::{Filled, Rest};
pub use wait::{Form, Look, Stop, wait_for};
