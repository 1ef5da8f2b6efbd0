//! The front of a line, of whatever length the line is.
ghost use Rattle.std.specs.Prelude.{◌≡◌, ◌==◌, ◌++◌, ◌∷◌, [], length};
ghost use Rattle.node_control.specs.Fronts.{front_of};

use std::marker::Model;

/// How many bytes of a line are kept: one more than the longest line that asks for something has.
const FRONT: usize = 7;

/// The front of a line, of which no further bytes are kept. Contracts see these bytes.
pub struct LineFront {
    bytes: [u8; 7],
    count: usize,
}

impl Drop for LineFront {
    fn drop(self) {
        let LineFront { bytes: _, count: _ } = self;
    }
}

impl Model for LineFront {
    ghost use Rattle.std.specs.Prelude.{List, ℕ, ◌≤◌, take};

    ghost Value = { List ℕ };

    ghost view = { λ f. take f.count f.bytes };

    ghost invariant = { λ f. f.count ≤ 7 };
}

impl LineFront {
    /// That of a line of which nothing was read.
    pub fn new() -> LineFront
        ensures { result ≡ [] }
    {
        LineFront {
            bytes: [0; FRONT],
            count: 0,
        }
    }

    /// The bytes that are kept.
    pub fn bytes(&self) -> &[u8]
        ensures { result.now ≡ self.now }
    {
        &self.bytes[..self.count]
    }

    /// Whether nothing of the line was read.
    pub fn is_empty(&self) -> bool
        ensures { result ≡ (length self.now == 0) }
    {
        self.count == 0
    }

    /// One more byte of the line was read.
    pub fn push(&mut self, byte: u8)
        ensures { self.new ≡ front_of (self.old ++ byte ∷ []) }
    {
        if self.count < FRONT {
            self.bytes[self.count] = byte;
            self.count += 1;
        }
    }

    /// The line is over.
    pub fn clear(&mut self)
        ensures { self.new ≡ [] }
    {
        self.count = 0;
    }
}
