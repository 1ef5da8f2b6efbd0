//! What a client may not say.

use crate::talk::{HELLO, Talk, holds, says};
use lone_desk::LoneDesk;
use push_model::{Desks, Step, Text};
use push_outside::{Item, ListChat};
use shard_core::Shard;
use std::alloc::Global;
use std::collections::VecDeque;
use std::process::Abort;
use std::test::Fail;

// No hello, each as the first that a client says.
const FIRSTS: &str = "[] > Done(Refused) 4400
{\"a\":1} > Done(Refused) 4400
{} > Done(Refused) 4400
{\"messageType\":\"ack\",\"updates\":[]} > Done(Refused) 4400
{\"messageType\":\"Hello\"} > Done(Refused) 4400
{\"messageType\":\"hello\"}x > Done(Refused) 4400
hello > Done(Refused) 4400
BINARY > Done(Refused) 4400
TOO LONG > Done(Refused) 4400
END > Done(Left)";

#[test]
fn no_hello(rt: HostRuntime) -> Result<(), Fail> {
    let alloc = rt.alloc();
    let mut desk = LoneDesk::new(alloc, Shard::start(alloc, 0))?;
    for line in FIRSTS.lines() {
        holds(&rt, alloc, &mut desk, line)?;
    }
    let report = desk.call(alloc, 0, Step::Report)?;
    let report = format!(in alloc; "{report:?}")?;
    assert_eq!(rt;
        report.as_str(),
        "Counts(Counts { users: 0, stored: 0, held: 0, flights: 0, unsent: 0, orphans: 0, waiting: 0 })"
    );
    Ok(())
}

// Each as what a client says after its hello.
const SECONDS: &str = "{\"messageType\":\"hello\"} > Done(Refused) 4400
{\"messageType\":\"hello\",\"uaid\":\"0102030405060708090a0b0c0d0e0f10\"} > Done(Refused) 4400
{\"messageType\":\"ack\"} > Done(Refused) 4400
{\"messageType\":\"ack\",\"updates\":\"\"} > Done(Refused) 4400
{\"messageType\":\"register\"} > Done(Refused) 4400
{\"messageType\":\"register\",\"channelID\":5} > Done(Refused) 4400
{\"messageType\":\"register\",\"channelID\":\"{00000000-0000-0000-0000-000000000005}\"} > Done(Refused) 4400
{\"messageType\":\"unregister\",\"channelID\":\"urn:uuid:00000000-0000-0000-0000-000000000005\"} > Done(Refused) 4400
{\"messageType\":\"goodbye\"} > Done(Refused) 4400
[] > Done(Refused) 4400
BINARY > Done(Refused) 4400
TOO LONG > Done(Refused) 4400";

// A session that says that, on a shard of its own.
fn is_told(rt: &impl Abort, alloc: Global, line: &str) -> Result<(), Fail> {
    let mut desk = LoneDesk::new(alloc, Shard::start(alloc, 0))?;
    let lines = format!(in alloc; "{HELLO}\n{line}")?;
    holds(rt, alloc, &mut desk, lines.as_str())
}

#[test]
fn after_hello(rt: HostRuntime) -> Result<(), Fail> {
    let alloc = rt.alloc();
    for line in SECONDS.lines() {
        is_told(&rt, alloc, line)?;
    }
    Ok(())
}

// A ping of so many bytes.
fn ping(alloc: Global, size: usize) -> Result<Text, Fail> {
    let mut text = String::from_str(alloc, "{}")?;
    for _ in 2..size {
        text.push_str(" ")?;
    }
    Ok(Text::from_string(text))
}

// A client that says hello and then sends a ping of so many bytes.
fn pings(alloc: Global, size: usize) -> Result<Talk, Fail> {
    let mut talk = Talk::new(alloc, "", 1_000, &[], &[])?;
    let hello = Text::copy(alloc, "{\"messageType\":\"hello\"}")?;
    let mut items = VecDeque::new(alloc);
    items.push_back(Item::Text(hello))?;
    items.push_back(Item::Text(ping(alloc, size)?))?;
    talk.chat = ListChat::new(alloc, items, Vec::new(alloc), Vec::new(alloc));
    Ok(talk)
}

fn are_told(rt: &impl Abort, alloc: Global, size: usize, line: &str) -> Result<(), Fail> {
    let mut desk = LoneDesk::new(alloc, Shard::start(alloc, 0))?;
    let mut talk = pings(alloc, size)?;
    says(rt, alloc, &mut desk, &mut talk, HELLO)?;
    says(rt, alloc, &mut desk, &mut talk, line)
}

#[test]
fn long_texts(rt: HostRuntime) -> Result<(), Fail> {
    let alloc = rt.alloc();
    are_told(&rt, alloc, 16_384, "16,384 bytes > Moved {}")?;
    are_told(&rt, alloc, 16_385, "16,385 bytes > Done(Refused) 4400")
}
