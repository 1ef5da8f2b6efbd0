//! Why no step is read from a line.

use thiserror::Error;

/// Why no step was read.
#[derive(Clone, Copy, Debug, PartialEq, Eq, Error)]
pub enum LineFault {
    /// The line is the spelling of no step in range.
    #[error("outside the grammar")]
    Outside,
    /// Memory ran out; of the line nothing is known.
    #[error("out of memory")]
    NoMemory,
}
