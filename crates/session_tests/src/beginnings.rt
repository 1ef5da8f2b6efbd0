//! How sessions begin, and why they don't.

use crate::talk::{HELLO, Talk, holds, says};
use lone_desk::LoneDesk;
use push_model::{Desks, NodeId, SessionId, Step, Uaid};
use shard_core::Shard;
use std::alloc::Global;
use std::process::Abort;
use std::test::Fail;

// Hellos where the user 000000000000000000000000000000ab is there: those that name it, and those that name none.
const HELLOS: &str =
    "{\"messageType\":\"hello\",\"uaid\":\"000000000000000000000000000000ab\"} > Moved {\"broadcasts\":{},\"messageType\":\"hello\",\"status\":200,\"uaid\":\"000000000000000000000000000000ab\",\"use_webpush\":true}
{\"messageType\":\"hello\",\"uaid\":\"00000000-0000-0000-0000-0000000000AB\"} > Moved {\"broadcasts\":{},\"messageType\":\"hello\",\"status\":200,\"uaid\":\"000000000000000000000000000000ab\",\"use_webpush\":true}
{\"messageType\":\"hello\",\"uaid\":171} > Moved {\"broadcasts\":{},\"messageType\":\"hello\",\"status\":200,\"uaid\":\"0102030405060708090a0b0c0d0e0f10\",\"use_webpush\":true}
{\"messageType\":\"hello\",\"uaid\":\"00000000000000000000000000000ab\"} > Moved {\"broadcasts\":{},\"messageType\":\"hello\",\"status\":200,\"uaid\":\"0102030405060708090a0b0c0d0e0f10\",\"use_webpush\":true}
{\"messageType\":\"hello\",\"uaid\":\"{00000000-0000-0000-0000-0000000000ab}\"} > Moved {\"broadcasts\":{},\"messageType\":\"hello\",\"status\":200,\"uaid\":\"0102030405060708090a0b0c0d0e0f10\",\"use_webpush\":true}
{\"messageType\":\"hello\",\"uaid\":\"000000000000000000000000000000ac\"} > Moved {\"broadcasts\":{},\"messageType\":\"hello\",\"status\":200,\"uaid\":\"0102030405060708090a0b0c0d0e0f10\",\"use_webpush\":true}";

// A desk at which that user is there, routed to a session at node 1 of that moment.
fn desk_with(alloc: Global, uaid: u128, at: u32) -> Result<LoneDesk, Fail> {
    let mut desk = LoneDesk::new(alloc, Shard::start(alloc, 0))?;
    create(alloc, &mut desk, uaid, at)?;
    Ok(desk)
}

// Makes that user.
fn create(alloc: Global, desk: &mut LoneDesk, uaid: u128, at: u32) -> Result<(), Fail> {
    let session = SessionId {
        uaid: Uaid(uaid),
        node: NodeId::new(1).ok_or("a node")?,
        at: u64::from(at),
    };
    let _ = desk.call(alloc, 0, Step::Create(session))?;
    Ok(())
}

fn begins(rt: &impl Abort, alloc: Global, line: &str) -> Result<(), Fail> {
    let mut desk = desk_with(alloc, 171, 100)?;
    holds(rt, alloc, &mut desk, line)
}

#[test]
fn users_that_are_named(rt: HostRuntime) -> Result<(), Fail> {
    let alloc = rt.alloc();
    for line in HELLOS.lines() {
        begins(&rt, alloc, line)?;
    }
    Ok(())
}

// The hello of a user whose session has that moment, at 1,000 milliseconds.
fn is_stale(rt: &impl Abort, alloc: Global, at: u32, line: &str) -> Result<(), Fail> {
    let mut desk = desk_with(alloc, 171, at)?;
    holds(rt, alloc, &mut desk, line)
}

#[test]
fn stale_sessions(rt: HostRuntime) -> Result<(), Fail> {
    let alloc = rt.alloc();
    is_stale(
        &rt,
        alloc,
        1_000,
        "{\"messageType\":\"hello\",\"uaid\":\"000000000000000000000000000000ab\"} > Done(Stale(1000)) 4409",
    )?;
    is_stale(
        &rt,
        alloc,
        1_001,
        "{\"messageType\":\"hello\",\"uaid\":\"000000000000000000000000000000ab\"} > Done(Stale(1001)) 4409",
    )
}

// One that said hello before, at the same moment.
#[test]
fn a_second_session(rt: HostRuntime) -> Result<(), Fail> {
    let alloc = rt.alloc();
    let mut desk = LoneDesk::new(alloc, Shard::start(alloc, 0))?;
    holds(&rt, alloc, &mut desk, HELLO)?;
    holds(
        &rt,
        alloc,
        &mut desk,
        "{\"messageType\":\"hello\",\"uaid\":\"0102030405060708090a0b0c0d0e0f10\"} > Done(Stale(1000)) 4409",
    )
}

#[test]
fn a_node_that_is_down(rt: HostRuntime) -> Result<(), Fail> {
    let alloc = rt.alloc();
    let node = NodeId::new(1).ok_or("a node")?;
    let mut desk = LoneDesk::new(alloc, Shard::start(alloc, 0))?;
    let _ = desk.call(alloc, 0, Step::Kill(node))?;
    holds(
        &rt,
        alloc,
        &mut desk,
        "{\"messageType\":\"hello\"} > Done(Down) 4503",
    )
}

// The first four users that are drawn.
const DRAWN: [u128; 4] = [
    0x0102_0304_0506_0708_090a_0b0c_0d0e_0f10,
    0x1112_1314_1516_1718_191a_1b1c_1d1e_1f20,
    0x2122_2324_2526_2728_292a_2b2c_2d2e_2f30,
    0x3132_3334_3536_3738_393a_3b3c_3d3e_3f40,
];

// A hello where the first so many of these are there.
fn draws(rt: &impl Abort, alloc: Global, count: usize, line: &str) -> Result<(), Fail> {
    let mut desk = LoneDesk::new(alloc, Shard::start(alloc, 0))?;
    for uaid in DRAWN.iter().take(count) {
        create(alloc, &mut desk, *uaid, 100)?;
    }
    holds(rt, alloc, &mut desk, line)
}

#[test]
fn users_that_are_drawn(rt: HostRuntime) -> Result<(), Fail> {
    let alloc = rt.alloc();
    draws(&rt, alloc, 0, HELLO)?;
    draws(
        &rt,
        alloc,
        3,
        "{\"messageType\":\"hello\"} > Moved {\"broadcasts\":{},\"messageType\":\"hello\",\"status\":200,\"uaid\":\"3132333435363738393a3b3c3d3e3f40\",\"use_webpush\":true}",
    )?;
    draws(
        &rt,
        alloc,
        4,
        "{\"messageType\":\"hello\"} > Done(UaidSpent) 4507",
    )
}

// The client is told, and where that fails the session ends.
#[test]
fn a_hello_that_cannot_be_sent(rt: HostRuntime) -> Result<(), Fail> {
    let alloc = rt.alloc();
    let mut desk = LoneDesk::new(alloc, Shard::start(alloc, 0))?;
    let line = "{\"messageType\":\"hello\"} > Done(ChatFault)";
    let mut talk = Talk::new(alloc, line, 1_000, &[2], &[])?;
    says(&rt, alloc, &mut desk, &mut talk, line)?;
    assert!(rt; talk.live.s.is_none());
    Ok(())
}
