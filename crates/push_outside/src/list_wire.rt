//! A wire in memory.
ghost use Rattle.std.specs.Prelude.{◌≡◌, ◌<◌, ℕ, List, [], length, Option, Some, false};
ghost use Rattle.std.specs.Io.KnownBytes.{Keeps};
ghost use Rattle.push_outside.specs.Reads.{Reads, ReadFails, lulls_after_read};
ghost use Rattle.push_outside.specs.Sources.{room_after};
ghost use Rattle.push_outside.specs.Wires.{wire_after_read, wire_after_write, wire_read, wire_write};
ghost use Rattle.push_outside.specs.Writes.{Writes, WriteFails, lulls_after_write};

use crate::calls::{Calls, Turn};
use crate::sink::{Put, append};
use crate::source::{Got, count_of, give};
use crate::wire::Wire;
use std::alloc::Global;
use std::marker::Model;

/// A wire in memory whose calls fail, or have nothing to do now, at the numbers that it was told.
///
/// Reads and writes are counted together from 1, up to 2^64 - 1, whatever they answer. Contracts see the
/// bytes that it has not given yet, those taken so far, the number of calls so far, both lists, the
/// number of faults so far, which is that of the calls that failed, and of the lulls in a row. A write
/// with no memory is no fault.
#[derive(Debug, Drop)]
pub struct ListWire {
    bytes: Vec<u8>,
    at: usize,
    taken: Vec<u8>,
    calls: Calls,
}

impl Model for ListWire {
    ghost use Rattle.std.specs.Prelude.{◌≤◌, length, drop};
    ghost use Rattle.push_outside.specs.WireValue.{ListWireValue};

    ghost Value = { ListWireValue };

    ghost view = { λ s. record { left = drop s.at s.bytes.items; written = s.taken.items; calls = s.calls.count; failing = s.calls.failing.items; not_yet = s.calls.not_yet.items; faults = s.calls.faults; lulls = s.calls.lulls } };

    ghost invariant = { λ s. s.at ≤ length s.bytes.items };
}

impl ListWire {
    /// A wire that has these bytes to give, before its first call. A call whose number is in `failing`
    /// fails, even if it is in both lists; one whose number is in `not_yet` alone has nothing to do now.
    /// It takes no memory.
    pub fn new(alloc: Global, bytes: Vec<u8>, failing: Vec<u64>, not_yet: Vec<u64>) -> ListWire
        ensures { result ≡ record { left = bytes.items; written = []; calls = 0; failing = failing.items; not_yet = not_yet.items; faults = 0; lulls = 0 } }
    {
        ListWire {
            bytes,
            at: 0,
            taken: Vec::new(alloc),
            calls: Calls::new(failing, not_yet),
        }
    }

    /// The bytes not yet given.
    pub fn left(&self) -> &[u8]
        ensures { result.now ≡ self.now.left }
    {
        &self.bytes[self.at..]
    }

    /// The bytes taken so far.
    pub fn written(&self) -> &[u8]
        ensures { result.now ≡ self.now.written }
    {
        &self.taken
    }
}

impl Wire for ListWire {
    ghost left = { λ s. Some s.left };

    ghost written = { λ s. Some s.written };

    ghost faults = { λ s. s.faults };

    ghost lulls = { λ s. s.lulls };

    /// Counts the call, and answers as its number says: `Failed`, else `NotYet`, else as many of the
    /// bytes left as the room holds, or `End` where none is left. What stood in the room behind the
    /// bytes given stays.
    fn read(&mut self, room: &mut [u8]) -> Got
        requires { 0 < length room.old }
        ensures bytes { Reads result room.new (Some self.old.left) (Some self.new.left) }
        ensures kept { Keeps (Some self.old.written) (Some self.new.written) }
        ensures cause { ReadFails result self.old.faults self.new.faults }
        ensures lulls { self.new.lulls ≡ lulls_after_read result self.old.lulls }
        ensures answer { result ≡ wire_read self.old (length room.old) }
        ensures after { self.new ≡ wire_after_read self.old result }
        ensures room { room.new ≡ room_after result self.old.left room.old }
    {
        match self.calls.next() {
            Turn::Fails => Got::Failed,
            Turn::Waits => Got::NotYet,
            Turn::Works => {
                let got = give(&self.bytes[self.at..], room);
                self.at += count_of(got);
                got
            }
        }
    }

    /// Counts the call, and answers as its number says: `Failed`, else `NotYet`, else the whole piece is
    /// taken, or the answer is `NoMemory`.
    fn write(&mut self, piece: &[u8]) -> Put
        requires { 0 < length piece.now }
        ensures bytes { Writes result piece.now (Some self.old.written) (Some self.new.written) }
        ensures kept { Keeps (Some self.old.left) (Some self.new.left) }
        ensures cause { WriteFails result self.old.faults self.new.faults }
        ensures lulls { self.new.lulls ≡ lulls_after_write result self.old.lulls }
        ensures answer { result ≡ wire_write self.old result (length piece.now) }
        ensures after { self.new ≡ wire_after_write self.old result piece.now }
    {
        match self.calls.next() {
            Turn::Fails => Put::Failed,
            Turn::Waits => Put::NotYet,
            Turn::Works => append(&mut self.taken, piece),
        }
    }

    /// Does nothing.
    fn rest(&mut self)
        ensures left { Keeps (Some self.old.left) (Some self.new.left) }
        ensures written { Keeps (Some self.old.written) (Some self.new.written) }
        ensures faults { self.new.faults ≡ self.old.faults }
        ensures lulls { self.new.lulls ≡ self.old.lulls }
        ensures same { self.new ≡ self.old }
    {}

    /// Does nothing.
    fn hurry(&mut self)
        ensures left { Keeps (Some self.old.left) (Some self.new.left) }
        ensures written { Keeps (Some self.old.written) (Some self.new.written) }
        ensures faults { self.new.faults ≡ self.old.faults }
        ensures lulls { self.new.lulls ≡ self.old.lulls }
        ensures same { self.new ≡ self.old }
    {}

    /// Always `false`.
    fn is_quiet(&self) -> bool
        ensures { result ≡ false }
    {
        false
    }
}
