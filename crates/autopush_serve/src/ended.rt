//! How the command ends.
ghost use Rattle.std.specs.Prelude.{◌≡◌};
ghost use Rattle.autopush_serve.specs.Statuses.{status_of};

use serve_run::ServeEnd;

/// How the command `serve` ended.
#[derive(Clone, Copy, Debug, PartialEq, Eq)]
pub enum Ended {
    /// The words spell no plan.
    WrongWords,
    /// The machine gave no random bytes to begin with.
    NoSeed,
    /// The service was begun, or tried to begin.
    Served(ServeEnd),
}

impl Ended {
    /// The exit status: 2 where the words spell no plan, 12 where there is no seed, and else that of the service.
    pub fn status(self) -> u8
        ensures { result ≡ status_of self }
    {
        match self {
            Ended::WrongWords => 2,
            Ended::NoSeed => 12,
            Ended::Served(end) => end.status(),
        }
    }
}
