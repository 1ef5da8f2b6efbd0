//! Control lines at a desk of one shard.

use lone_desk::LoneDesk;
use node_control::control;
use push_model::{Desks, Tally};
use push_outside::{SureSink, SureSource};
use shard_core::Shard;
use std::alloc::Global;
use std::process::Abort;
use std::sync::Wait;
use std::test::Fail;

/// Gives these lines to control at the desks, and compares what is written. The status is 0.
pub fn answers<R: Abort + Wait, D: Desks>(
    rt: &R,
    alloc: Global,
    desks: &mut D,
    lines: &[u8],
    answers: &[u8],
) -> Result<(), Fail> {
    let mut input = SureSource::new(Vec::from_slice(alloc, lines)?);
    let mut output = SureSink::new(alloc);
    let status = control(rt, alloc, desks, &mut input, &mut output);
    assert_eq!(rt; status, 0);
    assert!(rt; output.bytes() == answers, "what is answered");
    Ok(())
}

// The same at a desk with an empty shard.
fn answers_of_none<R: Abort + Wait>(
    rt: &R,
    alloc: Global,
    lines: &[u8],
    answered: &[u8],
) -> Result<(), Fail> {
    let mut desk = LoneDesk::new(alloc, Shard::start(alloc, 0))?;
    answers(rt, alloc, &mut desk, lines, answered)
}

const EMPTY: &[u8] = b"report users 0 stored 0 held 0 flights 0 unsent 0 orphans 0 waiting 0\n";

#[test]
fn each_line_is_answered(rt: HostRuntime) -> Result<(), Fail> {
    let alloc = rt.alloc();
    answers_of_none(
        &rt,
        alloc,
        b"up 1\nfly\nkill 1\nreport\nstop\n",
        b"done\nunknown\nkilled 0 0\nreport users 0 stored 0 held 0 flights 0 unsent 0 orphans 0 waiting 0\n",
    )
}

#[test]
fn nothing_is_read_behind_stop(rt: HostRuntime) -> Result<(), Fail> {
    let alloc = rt.alloc();
    answers_of_none(&rt, alloc, b"", b"")?;
    answers_of_none(&rt, alloc, b"stop", b"")?;
    answers_of_none(&rt, alloc, b"stop\nup 1\n", b"")?;
    answers_of_none(&rt, alloc, b"up 8\nstop\nup 1\n", b"done\n")
}

#[test]
fn the_last_line_needs_no_end(rt: HostRuntime) -> Result<(), Fail> {
    let alloc = rt.alloc();
    answers_of_none(&rt, alloc, b"report", EMPTY)?;
    answers_of_none(&rt, alloc, b"\nup 1", b"unknown\ndone\n")
}

#[test]
fn other_lines_are_unknown(rt: HostRuntime) -> Result<(), Fail> {
    let alloc = rt.alloc();
    answers_of_none(
        &rt,
        alloc,
        b"kill 0\nkill 9\nup 0\n",
        b"unknown\nunknown\nunknown\n",
    )?;
    answers_of_none(
        &rt,
        alloc,
        b"kill 12\nkill\nup  1\n",
        b"unknown\nunknown\nunknown\n",
    )?;
    answers_of_none(
        &rt,
        alloc,
        b"stop \n stop\nreports\n",
        b"unknown\nunknown\nunknown\n",
    )
}

// A line of so many bytes, and one more.
fn long_line(alloc: Global, length: usize) -> Result<Vec<u8>, Fail> {
    let mut line = vec![in alloc; b'k'; length]?;
    line.extend_from_slice(b"\nup 1\n")?;
    Ok(line)
}

#[test]
fn a_long_line_is_unknown(rt: HostRuntime) -> Result<(), Fail> {
    let alloc = rt.alloc();
    let lines = long_line(alloc, 100_000)?;
    answers_of_none(&rt, alloc, &lines, b"unknown\ndone\n")
}

#[test]
fn a_tally_is_a_line(rt: HostRuntime) -> Result<(), Fail> {
    let alloc = rt.alloc();
    let mut tally = Tally::new();
    tally.begun = 12;
    tally.lost = u64::MAX;
    let text = node_control::tally_text(alloc, &tally)?;
    assert_eq!(rt;
        text.as_str(),
        "tally begun 12 ok 0 refused 0 stored 0 shown 0 acked 0 saved 0 left 0 lost 18446744073709551615\n"
    );
    Ok(())
}
