//! The commands of the push service as calls over any source and sink.
#![tactic(auto)]

mod chunk;
mod command;
mod endings;
mod lulls;
mod pending;
mod put;
mod run;
mod tell;
mod top;
mod turn;

pub use chunk::{Chunk, read_chunk};
pub use command::{Ending, start};
pub use endings::{Cause, End, Ended, Fault, Refusal, WordsFault};
pub use put::{Written, put_all};
pub use top::autopush_replay;
