//! The numbers of flights.
ghost use Rattle.std.specs.Prelude.{◌≡◌, ◌+◌, ◌<◌, ◌≤◌, ◌^◌, ◌↔◌, IsTrue};

use push_model::Op;

// Past the greatest number of a flight.
const SPENT: u64 = 1 << 63;

/// The number of the next flight that a server of connections begins, from 0 to 2^63; at 2^63 none begins any more.
#[derive(Clone, Copy, Debug)]
pub struct Ops {
    /// The number.
    pub k: u64,
}

impl Ops {
    /// The next flight has that number.
    pub fn at(k: u64) -> Ops
        ensures { result ≡ record { k = k } }
    {
        Ops { k }
    }

    /// Whether no flight begins any more.
    pub fn are_spent(&self) -> bool
        ensures { IsTrue result ↔ (2 ^ 63 ≤ self.now.k) }
    {
        self.k >= SPENT
    }

    /// The name of the next flight of the pass with that number.
    pub(crate) fn next(&mut self, pass: u64) -> Op
        requires { self.old.k < 2 ^ 63 }
        ensures name { result ≡ record { pass = pass; k = self.old.k } }
        ensures after { self.new.k ≡ self.old.k + 1 }
    {
        let op = Op { pass, k: self.k };
        self.k += 1;
        op
    }
}
