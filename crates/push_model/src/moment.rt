//! Moments of a shard's clock.
ghost use Rattle.std.specs.Prelude.{◌≡◌, ◌<◌, ◌^◌, ◌↔◌, IsSome, IfSome};

use std::marker::Model;

/// A moment of a shard's clock, in seconds below 2^62.
#[derive(Clone, Copy, Debug, PartialEq, Eq)]
pub struct Moment {
    seconds: u64,
}

impl Model for Moment {
    ghost use Rattle.std.specs.Prelude.{ℕ, ◌<◌, ◌^◌};

    ghost Value = { ℕ };

    ghost view = { λ m. m.seconds };

    ghost invariant = { λ m. m.seconds < 2 ^ 62 };

    ghost inverse = { λ m. record { seconds = m } };
}

impl Moment {
    /// That moment, or `None` exactly from 2^62 seconds on.
    pub fn new(seconds: u64) -> Option<Moment>
        ensures valid { IsSome result ↔ (seconds < 2 ^ 62) }
        ensures value { IfSome result (λ moment. moment ≡ seconds) }
    {
        if seconds < 1 << 62 {
            Some(Moment { seconds })
        } else {
            None
        }
    }

    /// The moment at which a shard's clock starts.
    pub fn zero() -> Moment
        ensures { result ≡ 0 }
    {
        Moment { seconds: 0 }
    }

    /// Its seconds, below 2^62.
    pub fn seconds(&self) -> u64
        ensures value { result ≡ self.now }
        ensures below { result < 2 ^ 62 }
    {
        self.seconds
    }
}
