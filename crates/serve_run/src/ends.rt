//! How a service ends.
ghost use Rattle.std.specs.Prelude.{◌≡◌};
ghost use Rattle.serve_run.specs.Statuses.{status_of};

use crate::halt::Halt;
use autopush_main::Fault;

/// How a service ended.
#[derive(Clone, Copy, Debug, PartialEq, Eq)]
pub enum ServeEnd {
    /// It was stopped, or the operator's lines ended, and all was told.
    Done,
    /// It didn't begin.
    Halted(Halt),
    /// Reading the operator's lines broke off.
    ReadFault(Fault),
    /// Writing broke off.
    WriteFault(Fault),
    /// Memory ran out.
    NoMemory,
}

impl ServeEnd {
    /// The exit status: 0 where all was told, 3 where a port can't be listened at, 5 and 6 where reading and writing broke off, 7 where
    /// memory ran out, and 8 where a loop can't be started.
    pub fn status(self) -> u8
        ensures { result ≡ status_of self }
    {
        match self {
            ServeEnd::Done => 0,
            ServeEnd::Halted(Halt::Port) => 3,
            ServeEnd::Halted(Halt::Loop) => 8,
            ServeEnd::Halted(Halt::NoMemory) => 7,
            ServeEnd::ReadFault(_) => 5,
            ServeEnd::WriteFault(_) => 6,
            ServeEnd::NoMemory => 7,
        }
    }
}
