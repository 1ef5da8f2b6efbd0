//! Bytes that were read and belong to no request yet.
ghost use Rattle.std.specs.Prelude.{◌≡◌, ◌-◌, ◌<◌, ◌≤◌, ◌↔◌, [], length, take, drop, IsTrue, OnOk};
ghost use Rattle.std.specs.Io.KnownBytes.{Keeps};
ghost use Rattle.http_bytes.specs.Moves.{Fills, FilledBy, LullsSo};
ghost use Rattle.push_outside.specs.Reads.{ReadFails, Reads, lulls_after_read};

use push_outside::{Got, Wire};
use std::alloc::{AllocError, Global};
use std::marker::Model;

// The most bytes that are kept.
const KEPT: usize = 65536;

// The room at first.
const FIRST: usize = 4096;

/// Bytes that were read past the last request, at most 65,536. Contracts see the list of them.
///
/// The bytes of `held` from `start` to `end` are kept; those behind are room for the next read. The room doubles where it is
/// full, up to 65,536.
#[derive(Debug, Drop)]
pub struct Rest {
    held: Vec<u8>,
    start: usize,
    end: usize,
}

impl Model for Rest {
    ghost use Rattle.std.specs.Prelude.{List, ℕ, ◌≤◌, length, take, drop};

    ghost Value = { List ℕ };

    ghost view = { λ r. drop r.start (take r.end r.held.items) };

    ghost invariant = { λ r. (r.start ≤ r.end) × (r.end ≤ length r.held.items) × (length r.held.items ≤ 65536) };
}

/// What one read did to the bytes that are kept.
#[derive(Clone, Copy, Debug)]
pub enum Filled {
    /// There are more of them.
    More,
    /// The input has ended.
    End,
    /// There was nothing now.
    NotYet,
    /// The wire failed.
    Failed,
    /// There was no memory for more, and nothing was read.
    NoMemory,
}

// Moves the bytes from `start` to `end` to the front.
fn move_to_front(held: &mut Vec<u8>, start: usize, end: usize)
    requires ordered { start ≤ end }
    requires inside { end ≤ length held.old.items }
    ensures moved { take (end - start) held.new.items ≡ drop start (take end held.old.items) }
    ensures size { length held.new.items ≡ length held.old.items }
{
    if start > 0 {
        held.copy_within(start..end, 0);
    }
}

// Makes room behind the first bytes, if there is none.
fn make_room(held: &mut Vec<u8>, end: usize) -> Result<(), AllocError>
    requires inside { end ≤ length held.old.items }
    requires short { end < 65536 }
    requires size { length held.old.items ≤ 65536 }
    ensures kept { take end held.new.items ≡ take end held.old.items }
    ensures inside { end ≤ length held.new.items }
    ensures size { length held.new.items ≤ 65536 }
    ensures room { OnOk result (end < length held.new.items) }
{
    if end < held.len() {
        return Ok(());
    }
    let size = (2 * held.len()).max(FIRST).min(KEPT);
    held.resize(size, 0)
}

// Reads once, behind the first bytes.
fn read_behind<W: Wire>(wire: &mut W, held: &mut Vec<u8>, end: usize) -> Got
    requires { end < length held.old.items }
    ensures front { take end held.new.items ≡ take end held.old.items }
    ensures size { length held.new.items ≡ length held.old.items }
    ensures bytes { Reads result (drop end held.new.items) (W.left wire.old) (W.left wire.new) }
    ensures kept { Keeps (W.written wire.old) (W.written wire.new) }
    ensures cause { ReadFails result (W.faults wire.old) (W.faults wire.new) }
    ensures lulls { W.lulls wire.new ≡ lulls_after_read result (W.lulls wire.old) }
{
    wire.read(&mut held[end..])
}

impl Rest {
    /// No bytes. It takes no memory.
    pub fn new(alloc: Global) -> Rest
        ensures { result ≡ [] }
    {
        Rest {
            held: Vec::new(alloc),
            start: 0,
            end: 0,
        }
    }

    /// The bytes.
    pub fn bytes(&self) -> &[u8]
        ensures value { result.now ≡ self.now }
        ensures short { length self.now ≤ 65536 }
    {
        &self.held[self.start..self.end]
    }

    /// Whether there are none.
    pub fn is_empty(&self) -> bool
        ensures { IsTrue result ↔ (self.now ≡ []) }
    {
        self.bytes().is_empty()
    }

    /// Whether no byte more can be kept.
    pub fn is_full(&self) -> bool
        ensures { IsTrue result ↔ (65536 ≤ length self.now) }
    {
        self.bytes().len() >= KEPT
    }

    /// Drops so many bytes at the front.
    pub fn skip(&mut self, count: usize)
        requires { count ≤ length self.old }
        ensures after { self.new ≡ drop count self.old }
        ensures short { length self.old ≤ 65536 }
    {
        self.start += count;
    }

    /// Reads once, behind the bytes that are kept, of which there are fewer than 65,536. What is read is not copied. At
    /// `NoMemory` nothing was read.
    pub fn fill<W: Wire>(&mut self, wire: &mut W) -> Filled
        requires { length self.old < 65536 }
        ensures bytes { Fills result (W.left wire.old) (W.left wire.new) self.old self.new }
        ensures kept { Keeps (W.written wire.old) (W.written wire.new) }
        ensures cause { FilledBy result (W.faults wire.old) (W.faults wire.new) }
        ensures lulls { LullsSo result (W.lulls wire.old) (W.lulls wire.new) }
    {
        move_to_front(&mut self.held, self.start, self.end);
        self.end -= self.start;
        self.start = 0;
        if make_room(&mut self.held, self.end).is_err() {
            return Filled::NoMemory;
        }
        match read_behind(wire, &mut self.held, self.end) {
            Got::Bytes(count) => {
                self.end += count;
                Filled::More
            }
            Got::End => Filled::End,
            Got::NotYet => Filled::NotYet,
            Got::Failed => Filled::Failed,
        }
    }
}
