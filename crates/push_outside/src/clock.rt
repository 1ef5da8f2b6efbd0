//! Clocks.
ghost use Rattle.std.specs.Prelude.{◌≡◌, ℕ, ◌<◌, ◌^◌, Option, Some};
ghost use Rattle.push_outside.specs.Moments.{IsMomentOf};

use std::marker::Model;

/// A clock, which can't fail. `moment` is the moment at which it stands, in milliseconds, where it tells it.
pub trait Clock {
    ghost moment: { Self → Option ℕ };

    /// The moment in milliseconds, below 2^63.
    fn millis(&self) -> u64
        ensures told { IsMomentOf (moment self.now) result }
        ensures below { result < 2 ^ 63 };
}

/// A clock that stands still. Contracts see the moment at which it was set, in milliseconds below 2^63.
#[derive(Clone, Copy, Debug)]
pub struct SetClock {
    millis: u64,
}

impl Model for SetClock {
    ghost use Rattle.std.specs.Prelude.{ℕ, ◌<◌, ◌^◌};

    ghost Value = { ℕ };

    ghost view = { λ c. c.millis };

    ghost invariant = { λ c. c.millis < 2 ^ 63 };

    ghost inverse = { λ c. record { millis = c } };
}

impl SetClock {
    /// A clock that stands at that moment, in milliseconds.
    pub fn new(millis: u64) -> SetClock
        requires { millis < 2 ^ 63 }
        ensures { result ≡ millis }
    {
        SetClock { millis }
    }
}

impl Clock for SetClock {
    ghost moment = { λ c. Some c };

    /// The moment at which it was set.
    fn millis(&self) -> u64
        ensures told { result ≡ self.now }
        ensures below { result < 2 ^ 63 }
    {
        self.millis
    }
}
