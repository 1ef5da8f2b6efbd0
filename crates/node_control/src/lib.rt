//! What an operator asks of a running service, line by line. [`control`] reads the lines, does what each asks for on every shard,
//! and writes its answer before it reads on. `kill N` takes the node N down, `up N` lets it come up again, `report` tells what is
//! there, `stop` ends it, and any other line is answered `unknown`. [`tally_text`] is the line of a tally.
#![tactic(auto)]

mod answers;
mod bytes;
mod commands;
mod controls;
mod ends;
mod fronts;
mod sums;
mod tallies;
mod works;

pub use controls::{control, run_control};
pub use ends::ControlEnd;
pub use tallies::tally_text;
