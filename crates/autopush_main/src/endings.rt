//! How a replay ends, and how a command does.
ghost use Rattle.std.specs.Prelude.{◌≡◌};
ghost use Rattle.autopush_main.specs.Statuses.{status_of};

use schedule_text::Wrong;
use std::fmt;

/// How a source or a sink broke off.
#[derive(Clone, Copy, Debug, PartialEq, Eq)]
pub enum Fault {
    /// A call failed.
    Failed,
    /// It had nothing to do 1,000,000,000 times in a row.
    Waited,
}

/// Why a line is refused.
#[derive(Clone, Copy, Debug, PartialEq, Eq)]
pub enum Cause {
    /// It stands behind 1,000,000 others.
    TooMany,
    /// It has more than 16,384 bytes.
    TooLong,
    /// It spells no step.
    NoStep(Wrong),
}

impl fmt::Display for Cause {
    ghost use Rattle.std.specs.Prelude.{Some};
    ghost use Rattle.autopush_main.specs.Messages.{cause_text};

    ghost output = { λ c. Some (cause_text c) };

    fn fmt<W: fmt::Write>(&self, f: &mut fmt::Formatter<W>) -> fmt::Result {
        match *self {
            Cause::TooMany => write!(f, "a schedule has at most 1000000 lines"),
            Cause::TooLong => write!(f, "it has more than 16384 bytes"),
            Cause::NoStep(wrong) => write!(f, "{wrong}"),
        }
    }
}

/// A refused line.
#[derive(Clone, Copy, Debug, PartialEq, Eq)]
pub struct Refusal {
    /// Its number, from 1 on.
    pub line: u32,
    /// Why it is refused.
    pub cause: Cause,
}

/// How a replay ends.
#[derive(Clone, Copy, Debug, PartialEq, Eq)]
pub enum End {
    /// The input ended, and each line was answered.
    Done,
    /// A line was refused.
    Refused(Refusal),
    /// Reading broke off.
    ReadFault(Fault),
    /// Writing broke off.
    WriteFault(Fault),
    /// Memory ran out.
    NoMemory,
}

/// Why there are no words.
#[derive(Clone, Copy, Debug, PartialEq, Eq)]
pub enum WordsFault {
    /// One of them is no text.
    NotText,
    /// Memory ran out.
    NoMemory,
}

/// How a command ended.
#[derive(Clone, Copy, Debug, PartialEq, Eq)]
pub enum Ended {
    /// The words are no command.
    WrongWords,
    /// There was no memory for the words.
    NoWords,
    /// The replay ended so.
    Replayed(End),
}

impl Ended {
    /// The exit status that says so.
    pub fn status(self) -> u8
        ensures { result ≡ status_of self }
    {
        match self {
            Ended::WrongWords => 2,
            Ended::NoWords => 7,
            Ended::Replayed(End::Done) => 0,
            Ended::Replayed(End::Refused(_)) => 4,
            Ended::Replayed(End::ReadFault(_)) => 5,
            Ended::Replayed(End::WriteFault(_)) => 6,
            Ended::Replayed(End::NoMemory) => 7,
        }
    }
}
