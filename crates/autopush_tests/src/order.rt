//! A source and a sink that share a record of their calls: each reply is written before the next line is read.

ghost use Rattle.std.specs.Prelude.{◌≡◌, ◌<◌, None, length};
ghost use Rattle.push_outside.specs.Reads.{Reads, ReadFails, lulls_after_read};
ghost use Rattle.push_outside.specs.Writes.{Writes, WriteFails, lulls_after_write};

use crate::support::replay_words;
use autopush_main::autopush_replay;
use push_outside::{Got, Put, Sink, Source};
use std::sync::atomic::{AtomicU64, Ordering};
use std::test::Fail;

// Adds a call to the record, whose decimal digits are the calls in their order.
fn record(calls: &AtomicU64, call: u64) {
    let before = calls.load(Ordering::SeqCst);
    calls.store(
        before.saturating_mul(10).saturating_add(call),
        Ordering::SeqCst,
    );
}

// Gives the line `report` that many times, one a read. It tells no bytes.
#[derive(Drop)]
struct Reports<'a> {
    calls: &'a AtomicU64,
    lines: u64,
}

const LINE: &[u8] = b"report\n";

impl Source for Reports<'_> {
    ghost left = { λ _. None };

    ghost faults = { λ _. 0 };

    ghost lulls = { λ _. 0 };

    fn read(&mut self, room: &mut [u8]) -> Got
        requires { 0 < length room.old }
        ensures bytes { Reads result room.new None None }
        ensures cause { ReadFails result 0 0 }
        ensures lulls { 0 ≡ lulls_after_read result 0 }
    {
        record(self.calls, 1);
        if self.lines == 0 || room.len() < LINE.len() {
            return Got::End;
        }
        self.lines -= 1;
        room[..LINE.len()].copy_from_slice(LINE);
        Got::Bytes(LINE.len())
    }
}

// Takes each piece whole. It tells no bytes.
#[derive(Drop)]
struct Taken<'a> {
    calls: &'a AtomicU64,
}

impl Sink for Taken<'_> {
    ghost written = { λ _. None };

    ghost faults = { λ _. 0 };

    ghost lulls = { λ _. 0 };

    fn write(&mut self, piece: &[u8]) -> Put
        requires { 0 < length piece.now }
        ensures bytes { Writes result piece.now None None }
        ensures cause { WriteFails result 0 0 }
        ensures lulls { 0 ≡ lulls_after_write result 0 }
    {
        record(self.calls, 2);
        Put::Wrote(piece.len())
    }
}

#[test]
fn each_reply_before_the_next_line(rt: HostRuntime) -> Result<(), Fail> {
    let alloc = rt.alloc();
    let calls = AtomicU64::new(0);
    let mut input = Reports {
        calls: &calls,
        lines: 3,
    };
    let mut output = Taken { calls: &calls };
    let words = replay_words(alloc)?;
    assert_eq!(rt; autopush_replay(alloc, &words, &mut input, &mut output), 0);
    assert_eq!(rt; calls.load(Ordering::SeqCst), 1_212_121);
    Ok(())
}
