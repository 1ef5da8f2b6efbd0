//! Why a service didn't begin.
ghost use Rattle.std.specs.Prelude.{◌≡◌};

use push_model::NoMemory as OutOfMemory;
use thiserror::Error;

/// Why a service couldn't begin its work.
#[derive(Clone, Copy, Debug, PartialEq, Eq, Error)]
pub enum Halt {
    /// A port couldn't be listened at.
    #[error("a port can't be listened at")]
    Port,
    /// A loop couldn't be started.
    #[error("a loop can't be started")]
    Loop,
    /// There was no memory.
    #[error("out of memory")]
    NoMemory,
}

impl From<OutOfMemory> for Halt {
    ghost use Rattle.serve_run.specs.declared.halt.Halt.{Halt};

    ghost from_gives = { λ _ halt. halt ≡ Halt.NoMemory };

    fn from(_: OutOfMemory) -> Halt {
        Halt::NoMemory
    }
}
