//! How control ends.

use autopush_main::Fault;

/// How control ends.
#[derive(Clone, Copy, Debug, PartialEq, Eq)]
pub enum ControlEnd {
    /// The line `stop` came, or the input ended, and each line was answered.
    Done,
    /// Reading broke off.
    ReadFault(Fault),
    /// Writing broke off.
    WriteFault(Fault),
    /// Memory ran out.
    NoMemory,
}
