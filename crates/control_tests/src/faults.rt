//! Sources and sinks that break off.

use lone_desk::LoneDesk;
use node_control::control;
use push_outside::{ListSink, ListSource};
use shard_core::Shard;
use std::alloc::Global;
use std::process::Abort;
use std::sync::Wait;
use std::test::Fail;

// Gives two lines, of which the second has no end, to control, with a source that fails at those reads and a sink that fails at those
// writes; compares the status and what is written.
fn breaks_off<R: Abort + Wait>(
    rt: &R,
    alloc: Global,
    failing_reads: &[u64],
    failing_writes: &[u64],
    status: u8,
    written: &[u8],
) -> Result<(), Fail> {
    let mut desk = LoneDesk::new(alloc, Shard::start(alloc, 0))?;
    let failing = Vec::from_slice(alloc, failing_reads)?;
    let waiting = Vec::from_slice(alloc, &[1])?;
    let lines = Vec::from_slice(alloc, b"up 1\nkill 2")?;
    let mut input = ListSource::new(lines, failing, waiting);
    let mut output = ListSink::new(
        alloc,
        Vec::from_slice(alloc, failing_writes)?,
        Vec::from_slice(alloc, &[1])?,
    );
    assert_eq!(rt;
        control(rt, alloc, &mut desk, &mut input, &mut output),
        status
    );
    assert!(rt; output.bytes() == written, "what is written at {status}");
    Ok(())
}

#[test]
fn a_fault_ends_it(rt: HostRuntime) -> Result<(), Fail> {
    let alloc = rt.alloc();
    breaks_off(&rt, alloc, &[], &[], 0, b"done\nkilled 0 0\n")?;
    breaks_off(&rt, alloc, &[2], &[], 5, b"")?;
    breaks_off(&rt, alloc, &[3], &[], 5, b"done\n")?;
    breaks_off(&rt, alloc, &[], &[2], 6, b"")?;
    breaks_off(&rt, alloc, &[], &[3], 6, b"done\n")
}
