//! What a client acknowledges.

use crate::messages::{give, hi};
use crate::talk::{HELLO, NOTIFIED, REGISTER, TOKEN, Talk, says};
use lone_desk::LoneDesk;
use push_model::{Desks, Op, Step};
use session_drive::answer_text;
use shard_core::Shard;
use std::alloc::Global;
use std::test::Fail;

// None of these is the message that was shown: it is on another shard, was never sent, is another channel's, or isn't
// named.
const OTHERS: &str =
    "{\"messageType\":\"ack\",\"updates\":[{\"channelID\":\"5a5a5a5a-0000-4000-8000-000000000001\",\"version\":\"01-0000000000000001\"}]} > Moved
{\"messageType\":\"ack\",\"updates\":[{\"channelID\":\"5a5a5a5a-0000-4000-8000-000000000001\",\"version\":\"00-0000000000000002\"}]} > Moved
{\"messageType\":\"ack\",\"updates\":[{\"channelID\":\"5a5a5a5a-0000-4000-8000-000000000002\",\"version\":\"00-0000000000000001\"}]} > Moved
{\"messageType\":\"ack\",\"updates\":[{\"channelID\":\"5a5a5a5a-0000-4000-8000-000000000001\",\"version\":\"00-000000000000001\"},7]} > Moved";

// Members that can't be read, and another shard's, stand in front of it.
const THIS: &str =
    "{\"messageType\":\"ack\",\"updates\":[7,{},{\"channelID\":\"5a5a5a5a-0000-4000-8000-000000000001\",\"version\":\"0f-0000000000000001\"},{\"channelID\":\"5a5a5a5a-0000-4000-8000-000000000001\",\"version\":\"00-0000000000000001\"}]} > Moved";

// How many messages the shard has, of sessions and stored ones.
fn counted(alloc: Global, desk: &mut LoneDesk) -> Result<String, Fail> {
    let report = desk.call(alloc, 0, Step::Report)?;
    Ok(format!(in alloc; "{report:?}")?)
}

#[test]
fn of_messages(rt: HostRuntime) -> Result<(), Fail> {
    let alloc = rt.alloc();
    let mut desk = LoneDesk::new(alloc, Shard::start(alloc, 0))?;
    let lines = format!(in alloc; "{HELLO}\n{REGISTER}\n{OTHERS}\n{THIS}")?;
    let opening = format!(in alloc; "{HELLO}\n{REGISTER}")?;
    let mut talk = Talk::new(alloc, lines.as_str(), 1_000, &[], &[5])?;
    says(&rt, alloc, &mut desk, &mut talk, opening.as_str())?;
    give(
        alloc,
        &mut desk,
        Op { pass: 0, k: 1 },
        TOKEN,
        hi(alloc, 60)?,
    )?;
    talk.live.due = true;
    says(&rt, alloc, &mut desk, &mut talk, NOTIFIED)?;
    says(&rt, alloc, &mut desk, &mut talk, OTHERS)?;
    assert_eq!(rt;
        counted(alloc, &mut desk)?.as_str(),
        "Counts(Counts { users: 1, stored: 0, held: 1, flights: 0, unsent: 0, orphans: 0, waiting: 0 })"
    );
    says(&rt, alloc, &mut desk, &mut talk, THIS)?;
    assert_eq!(rt;
        counted(alloc, &mut desk)?.as_str(),
        "Counts(Counts { users: 1, stored: 0, held: 0, flights: 0, unsent: 0, orphans: 0, waiting: 0 })"
    );
    Ok(())
}

// An acknowledgement of so many messages that were never sent.
fn long_ack(alloc: Global, count: u32) -> Result<String, Fail> {
    let mut text = String::from_str(alloc, "{\"messageType\":\"ack\",\"updates\":[7")?;
    for _ in 1..count {
        text.push_str(
            ",{\"channelID\":\"00000000000000000000000000000005\",\"version\":\"00-0000000000000001\"}",
        )?;
    }
    text.push_str("]}")?;
    Ok(text)
}

#[test]
fn of_ten_thousand_messages(rt: HostRuntime) -> Result<(), Fail> {
    let alloc = rt.alloc();
    let mut desk = LoneDesk::new(alloc, Shard::start(alloc, 0))?;
    let mut talk = Talk::new(alloc, HELLO, 1_000, &[], &[])?;
    says(&rt, alloc, &mut desk, &mut talk, HELLO)?;
    let s = talk.live.s.ok_or("a session")?;
    let text = long_ack(alloc, 10_000)?;
    let answer = answer_text(
        alloc,
        &mut desk,
        &mut talk.chat,
        &mut talk.draw,
        8082,
        s,
        text.as_str(),
    );
    assert!(rt; answer.is_ok());
    Ok(())
}
