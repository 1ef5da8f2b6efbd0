//! Sources and sinks that fail or have nothing to do at one call.

use crate::support::replay_words;
use autopush_main::autopush_replay;
use push_outside::{ListSink, ListSource, Sink, Source, SureSink, SureSource};
use std::alloc::{AllocError, Global};
use std::process::Abort;
use std::test::Fail;

const SCHEDULE: &[u8] = b"create 1 1 100\nattach 1 1 100\nregister 1 1 100 5 1ab\nfly\n";

const WRITTEN: &[u8] = b"made\nattached .\nendpoint 1ab\nrefused line 4\n";

fn one(alloc: Global, number: u64) -> Result<Vec<u64>, AllocError> {
    let mut numbers = Vec::new(alloc);
    numbers.push(number)?;
    Ok(numbers)
}

// Replays, and compares the status.
fn ends<I: Source, K: Sink>(
    rt: &impl Abort,
    alloc: Global,
    input: &mut I,
    output: &mut K,
    status: u8,
) -> Result<(), Fail> {
    let words = replay_words(alloc)?;
    assert_eq!(rt; autopush_replay(alloc, &words, input, output), status);
    Ok(())
}

// The whole lines of the schedule that are answered where the source's second read fails.
#[test]
fn a_read_fails_behind_a_line(rt: HostRuntime) -> Result<(), Fail> {
    let alloc = rt.alloc();
    let bytes = Vec::from_slice(alloc, b"create 1 1 100\natt")?;
    let mut input = ListSource::new(bytes, one(alloc, 2)?, Vec::new(alloc));
    let mut output = SureSink::new(alloc);
    ends(&rt, alloc, &mut input, &mut output, 5)?;
    assert_eq!(rt; output.bytes(), b"made\n".as_slice());
    Ok(())
}

// What is written where the source's read of that number fails.
fn read_fails(
    rt: &impl Abort,
    alloc: Global,
    call: u64,
    status: u8,
    written: &[u8],
) -> Result<(), Fail> {
    let bytes = Vec::from_slice(alloc, SCHEDULE)?;
    let mut input = ListSource::new(bytes, one(alloc, call)?, Vec::new(alloc));
    let mut output = SureSink::new(alloc);
    ends(rt, alloc, &mut input, &mut output, status)?;
    assert!(rt; output.bytes() == written, "read {call} fails");
    Ok(())
}

// All is written where the source has nothing at its read of that number.
fn read_lulls(rt: &impl Abort, alloc: Global, call: u64) -> Result<(), Fail> {
    let bytes = Vec::from_slice(alloc, SCHEDULE)?;
    let mut input = ListSource::new(bytes, Vec::new(alloc), one(alloc, call)?);
    let mut output = SureSink::new(alloc);
    ends(rt, alloc, &mut input, &mut output, 4)?;
    assert!(rt; output.bytes() == WRITTEN, "read {call} lulls");
    Ok(())
}

#[test]
fn each_read_in_turn(rt: HostRuntime) -> Result<(), Fail> {
    let alloc = rt.alloc();
    for (call, status, written) in [(1, 5, b"".as_slice()), (2, 4, WRITTEN), (3, 4, WRITTEN)] {
        read_fails(&rt, alloc, call, status, written)?;
        read_lulls(&rt, alloc, call)?;
    }
    Ok(())
}

// What is written where the sink's write of that number fails.
fn write_fails(
    rt: &impl Abort,
    alloc: Global,
    call: u64,
    status: u8,
    written: &[u8],
) -> Result<(), Fail> {
    let mut input = SureSource::new(Vec::from_slice(alloc, SCHEDULE)?);
    let mut output = ListSink::new(alloc, one(alloc, call)?, Vec::new(alloc));
    ends(rt, alloc, &mut input, &mut output, status)?;
    assert!(rt; output.bytes() == written, "write {call} fails");
    Ok(())
}

// All is written where the sink takes nothing at its write of that number.
fn write_lulls(rt: &impl Abort, alloc: Global, call: u64) -> Result<(), Fail> {
    let mut input = SureSource::new(Vec::from_slice(alloc, SCHEDULE)?);
    let mut output = ListSink::new(alloc, Vec::new(alloc), one(alloc, call)?);
    ends(rt, alloc, &mut input, &mut output, 4)?;
    assert!(rt; output.bytes() == WRITTEN, "write {call} lulls");
    Ok(())
}

#[test]
fn each_write_in_turn(rt: HostRuntime) -> Result<(), Fail> {
    let alloc = rt.alloc();
    for (call, status, written) in [
        (1, 6, b"".as_slice()),
        (2, 6, b"made\n".as_slice()),
        (3, 6, b"made\nattached .\n".as_slice()),
        (4, 6, b"made\nattached .\nendpoint 1ab\n".as_slice()),
        (5, 4, WRITTEN),
    ] {
        write_fails(&rt, alloc, call, status, written)?;
        write_lulls(&rt, alloc, call)?;
    }
    Ok(())
}
