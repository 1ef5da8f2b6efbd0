//! The lines of a source, one after the other.
ghost use Rattle.std.specs.Prelude.{◌≡◌, ◌≤◌, ◌<◌, ◌+◌, ◌++◌, ◌∷◌, [], length, take, drop, OnOk, OnErr, MatchOption, position, vec_len};
ghost use Rattle.autopush_main.specs.Lines.{NoLf, is_lf, Found, FoundBy, Fills, Adds, AddsBy};

use crate::chunk::{Chunk, read_chunk};
use crate::endings::Fault;
use push_model::NoMemory;
use push_outside::Source;
use std::alloc::Global;
use std::marker::Model;

// Takes so many bytes out at the front. Where there are none to take, none is moved.
fn drop_front(held: &mut Vec<u8>, count: usize)
    requires { count ≤ vec_len held.old }
    ensures { held.new.items ≡ drop count held.old.items }
{
    if count == 0 {
        return;
    }
    let rest = held.len() - count;
    held.copy_within(count.., 0);
    held.truncate(rest);
}

/// Bytes that were read and are still to be answered, seen as a list.
#[derive(Drop)]
pub struct Pending {
    held: Vec<u8>,
    start: usize,
}

impl Model for Pending {
    ghost use Rattle.std.specs.Prelude.{List, ℕ, ◌≤◌, length, drop};

    ghost Value = { List ℕ };

    ghost view = { λ p. drop p.start p.held.items };

    ghost invariant = { λ p. p.start ≤ length p.held.items };
}

impl Pending {
    /// No bytes. It takes no memory.
    pub fn new(alloc: Global) -> Pending
        ensures { result ≡ [] }
    {
        Pending {
            held: Vec::new(alloc),
            start: 0,
        }
    }

    /// The bytes.
    pub fn bytes(&self) -> &[u8]
        ensures { result.now ≡ self.now }
    {
        &self.held[self.start..]
    }

    /// Adds bytes at the end; at `Err` nothing changes.
    pub fn push(&mut self, more: &[u8]) -> Result<(), NoMemory>
        ensures ok { OnOk result (self.new ≡ self.old ++ more.now) }
        ensures err { OnErr result (self.new ≡ self.old) }
    {
        drop_front(&mut self.held, self.start);
        self.start = 0;
        match self.held.extend_from_slice(more) {
            Ok(()) => Ok(()),
            Err(_) => Err(NoMemory),
        }
    }

    /// Drops so many bytes at the front, which were answered.
    pub fn skip(&mut self, count: usize)
        requires { count ≤ length self.old }
        ensures { self.new ≡ drop count self.old }
    {
        self.start += count;
    }
}

fn first_lf(bytes: &[u8]) -> Option<usize>
    ensures { result ≡ position is_lf bytes.now }
{
    bytes.iter().position(|b| *b == b'\n')
}

/// Where the first LF stands.
fn line_end(bytes: &[u8]) -> Option<usize>
    ensures { MatchOption result (NoLf bytes.now) (λ n. (n < length bytes.now) × NoLf (take n bytes.now) × (drop n bytes.now ≡ 10 ∷ drop (n + 1) bytes.now)) }
{
    first_lf(bytes)
}

/// The same, where it is known that so many bytes in front have no LF, so that they aren't looked at again.
fn line_end_behind(bytes: &[u8], scanned: usize) -> Option<usize>
    requires within { scanned ≤ length bytes.now }
    requires front { NoLf (take scanned bytes.now) }
    ensures { MatchOption result (NoLf bytes.now) (λ n. (n < length bytes.now) × NoLf (take n bytes.now) × (drop n bytes.now ≡ 10 ∷ drop (n + 1) bytes.now)) }
{
    match line_end(&bytes[scanned..]) {
        Some(n) => Some(scanned + n),
        None => None,
    }
}

/// What stands at the front of the input.
#[derive(Clone, Copy, Debug)]
pub enum Next {
    /// A line of so many bytes, and its LF.
    Line(usize),
    /// The rest of the input, with no LF.
    End,
    /// A line over the limit.
    TooLong,
    /// The source failed, or had nothing too often.
    Lost(Fault),
    /// Memory ran out.
    NoMemory,
}

/// The most bytes of a line, without its LF.
pub const LINE: usize = 16384;

/// The bytes of one read.
const CHUNK: usize = 16384;

/// What one read added.
#[derive(Clone, Copy, Debug)]
enum More {
    /// At least one byte.
    Some,
    /// Nothing, since the input has ended.
    End,
    /// Nothing, since the source failed, or had nothing too often.
    Lost(Fault),
    /// Nothing, since memory ran out for what was read.
    NoMemory,
}

// Reads once, and adds what was read. It stands apart, since its room is paid for wherever it is called.
#[inline(never)]
fn read_more<I: Source>(source: &mut I, pending: &mut Pending) -> More
    ensures input { Adds result (I.left source.old) (I.left source.new) pending.old pending.new }
    ensures cause { AddsBy result (I.faults source.old) (I.faults source.new) (I.lulls source.old) (I.lulls source.new) }
{
    let mut room = [0; CHUNK];
    match read_chunk(source, &mut room) {
        Chunk::Bytes(count) => match pending.push(&room[..count]) {
            Ok(()) => More::Some,
            Err(NoMemory) => More::NoMemory,
        },
        Chunk::End => More::End,
        Chunk::Lost(fault) => More::Lost(fault),
    }
}

/// Reads until the front of the input is known: a line and its LF, its rest without one, or more bytes than a line has.
pub fn next_line<I: Source>(source: &mut I, pending: &mut Pending) -> Next
    ensures input { Fills result (I.left source.old) (I.left source.new) pending.old pending.new }
    ensures found { Found result pending.new }
    ensures cause { FoundBy result (I.faults source.old) (I.faults source.new) (I.lulls source.old) (I.lulls source.new) }
{
    let mut scanned = 0;
    for _ in 0..=LINE + 1 {
        match line_end_behind(pending.bytes(), scanned) {
            Some(n) if n <= LINE => return Next::Line(n),
            Some(_) => return Next::TooLong,
            None => {}
        }
        scanned = pending.bytes().len();
        if scanned > LINE {
            return Next::TooLong;
        }
        match read_more(source, pending) {
            More::Some => {}
            More::End => return Next::End,
            More::Lost(fault) => return Next::Lost(fault),
            More::NoMemory => return Next::NoMemory,
        }
    }
    unreachable!()
}
