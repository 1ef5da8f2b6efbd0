//! Wires: connections, by which bytes come and go.
ghost use Rattle.std.specs.Prelude.{◌≡◌, ◌<◌, ℕ, List, length, Option};
ghost use Rattle.std.specs.Io.KnownBytes.{Keeps};
ghost use Rattle.push_outside.specs.Reads.{Reads, ReadFails, lulls_after_read};
ghost use Rattle.push_outside.specs.Writes.{Writes, WriteFails, lulls_after_write};

use crate::sink::Put;
use crate::source::Got;

/// A connection: bytes come from it, as from a `Source`, and go to it, as to a `Sink`.
///
/// `left` is the bytes that are still to be given and `written` those taken so far, where the wire tells
/// them. `faults` is one count of failures of both kinds, up to 2^64 - 1, that never falls. `lulls` is how
/// many calls of both kinds in a row answered `NotYet`, up to 2^64 - 1, and 0 after any other answer.
pub trait Wire {
    ghost left: { Self → Option (List ℕ) };

    ghost written: { Self → Option (List ℕ) };

    ghost faults: { Self → ℕ };

    ghost lulls: { Self → ℕ };

    /// Reads once into a room that is not empty.
    ///
    /// At `Bytes(n)` the first n bytes of the room are the front of what was left, which loses them;
    /// n is at least 1 and at most the room's length. At any other answer what is left stays as it
    /// is. `End` comes only where nothing is left. `Failed` comes only where `faults` rose, or stood at
    /// its last value; any other answer leaves `faults` as it was. What was written stays.
    fn read(&mut self, room: &mut [u8]) -> Got
        requires { 0 < length room.old }
        ensures bytes { Reads result room.new (left self.old) (left self.new) }
        ensures kept { Keeps (written self.old) (written self.new) }
        ensures cause { ReadFails result (faults self.old) (faults self.new) }
        ensures lulls { lulls self.new ≡ lulls_after_read result (lulls self.old) };

    /// Writes once, of a piece that is not empty.
    ///
    /// At `Wrote(n)` the first n bytes of the piece were put behind those written before; n is at
    /// least 1 and at most the piece's length. At any other answer what is written stays as it is.
    /// `Failed` comes only where `faults` rose, or stood at its last value; any other answer leaves
    /// `faults` as it was. What is left stays.
    fn write(&mut self, piece: &[u8]) -> Put
        requires { 0 < length piece.now }
        ensures bytes { Writes result piece.now (written self.old) (written self.new) }
        ensures kept { Keeps (left self.old) (left self.new) }
        ensures cause { WriteFails result (faults self.old) (faults self.new) }
        ensures lulls { lulls self.new ≡ lulls_after_write result (lulls self.old) };

    /// Tells that the reader is between two messages and holds no byte of the next. A real wire may then
    /// answer `End` where nothing has come yet, and what comes later is given by another wire. It neither
    /// reads nor writes.
    fn rest(&mut self)
        ensures left { Keeps (left self.old) (left self.new) }
        ensures written { Keeps (written self.old) (written self.new) }
        ensures faults { faults self.new ≡ faults self.old }
        ensures lulls { lulls self.new ≡ lulls self.old };

    /// From now on a real wire waits in no call. It neither reads nor writes.
    fn hurry(&mut self)
        ensures left { Keeps (left self.old) (left self.new) }
        ensures written { Keeps (written self.old) (written self.new) }
        ensures faults { faults self.new ≡ faults self.old }
        ensures lulls { lulls self.new ≡ lulls self.old };

    /// Whether a read now would most likely answer `NotYet`, and nothing waits that could be written. A
    /// hint, so nothing is promised of it: a wire that always answers `false` is right.
    fn is_quiet(&self) -> bool;
}
