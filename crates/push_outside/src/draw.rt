//! Random bytes.
ghost use Rattle.std.specs.Prelude.{◌≡◌, ℕ, ◌+◌, ◌%◌, ◌∷◌, [], List, Option, length};
ghost use Rattle.push_outside.specs.Counts.{next_count};
ghost use Rattle.push_outside.specs.Draws.{GivesMore, list_given};

use std::marker::Model;

/// Where random bytes come from. It cannot fail. `given` is the bytes that it gave so far, where it tells them.
pub trait Draw: Sized {
    ghost given: { Self → Option (List ℕ) };

    /// The next byte. Where the draw still tells its bytes after this, it told them before, and this one stands behind
    /// them.
    fn next(&mut self) -> u8
        ensures { GivesMore (given self.old) (given self.new) (result ∷ []) };

    /// Another draw, whose bytes are its own. What this one gave stays.
    fn fork(&mut self) -> Self
        ensures { given self.new ≡ given self.old };
}

/// Fills the room with the next bytes of the draw, in order.
pub fn fill<G: Draw>(draw: &mut G, room: &mut [u8])
    ensures given { GivesMore (G.given draw.old) (G.given draw.new) room.new }
    ensures size { length room.new ≡ length room.old }
{
    for place in 0..room.len() {
        room[place] = draw.next();
    }
}

/// Bytes that count up from a first one, and 0 after 255. It tells them up to the 2^64 - 2nd.
///
/// Contracts see the first byte and how many were given, up to 2^64 - 1.
#[derive(Clone, Copy, Debug)]
pub struct ListDraw {
    first: u8,
    count: u64,
}

impl Model for ListDraw {
    ghost use Rattle.push_outside.specs.Draws.{ListDrawValue};

    ghost Value = { ListDrawValue };

    ghost view = { λ d. record { first = d.first; count = d.count } };

    ghost inverse = { λ d. record { first = d.first; count = d.count } };
}

impl ListDraw {
    /// Bytes from that one on.
    pub fn new(first: u8) -> ListDraw
        ensures { result ≡ record { first = first; count = 0 } }
    {
        ListDraw { first, count: 0 }
    }
}

// The byte at that place from that first one on.
fn byte_at(first: u8, place: u64) -> u8
    ensures { result ≡ (first + place) % 256 }
{
    ((first as u64 + place % 256) % 256) as u8
}

impl Draw for ListDraw {
    ghost given = { list_given };

    /// One more than the byte before, and 0 after 255.
    fn next(&mut self) -> u8
        ensures given { GivesMore (list_given self.old) (list_given self.new) (result ∷ []) }
        ensures value { result ≡ (self.old.first + self.old.count) % 256 }
        ensures after { self.new ≡ record { first = self.old.first; count = next_count self.old.count } }
    {
        let byte = byte_at(self.first, self.count);
        self.count = self.count.saturating_add(1);
        byte
    }

    /// One that goes on from the same place.
    fn fork(&mut self) -> ListDraw
        ensures given { list_given self.new ≡ list_given self.old }
        ensures same { self.new ≡ self.old }
        ensures forked { result ≡ self.old }
    {
        *self
    }
}
