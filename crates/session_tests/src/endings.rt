//! How sessions end, and what becomes of their messages.

use crate::messages::{give, hi};
use crate::talk::{HELD, HELLO, NOTHING_HELD, NOTIFIED, REGISTER, TOKEN, Talk, USER, says};
use lone_desk::LoneDesk;
use node_routes::HereLink;
use push_model::{Desks, NodeId, Op, SessionId, Step};
use session_front::{SessionServed, serve_session};
use shard_core::Shard;
use std::alloc::Global;
use std::process::Abort;
use std::test::Fail;

// The session of the user that is drawn first, at node 1, of that moment.
fn session(at: u32) -> Result<SessionId, Fail> {
    Ok(SessionId {
        uaid: USER,
        node: NodeId::new(1).ok_or("a node")?,
        at: u64::from(at),
    })
}

// What is replied to the claim of a newer session: the node to which the user was routed.
fn claimed(alloc: Global, desk: &mut LoneDesk) -> Result<String, Fail> {
    let reply = desk.call(alloc, 0, Step::Claim(session(2_000)?))?;
    Ok(format!(in alloc; "{reply:?}")?)
}

#[test]
fn a_take_that_fails(rt: HostRuntime) -> Result<(), Fail> {
    let alloc = rt.alloc();
    let mut desk = LoneDesk::new(alloc, Shard::start(alloc, 0))?;
    let mut talk = Talk::new(alloc, HELLO, 1_000, &[3], &[])?;
    says(&rt, alloc, &mut desk, &mut talk, HELLO)?;
    assert!(rt; talk.live.s.is_some());
    says(&rt, alloc, &mut desk, &mut talk, "END > Done(ChatFault)")?;
    assert!(rt; talk.live.s.is_none());
    assert_eq!(rt; claimed(alloc, &mut desk)?.as_str(), "Claimed(None)");
    Ok(())
}

// The client is told the end's code as well as that goes.
#[test]
fn an_end_that_fails(rt: HostRuntime) -> Result<(), Fail> {
    let alloc = rt.alloc();
    let mut desk = LoneDesk::new(alloc, Shard::start(alloc, 0))?;
    let mut talk = Talk::new(alloc, "[] > ", 1_000, &[2], &[])?;
    says(&rt, alloc, &mut desk, &mut talk, "[] > Done(Refused) 4400")
}

// Attaches a newer session of the user, so that the older one is displaced.
fn displace(alloc: Global, desk: &mut LoneDesk) -> Result<(), Fail> {
    let s = session(2_000)?;
    let _ = desk.call(alloc, 0, Step::Claim(s))?;
    let _ = desk.call(alloc, 0, Step::Attach(s))?;
    Ok(())
}

// A session is displaced, and its client says that.
fn is_displaced(rt: &impl Abort, alloc: Global, line: &str) -> Result<(), Fail> {
    let mut desk = LoneDesk::new(alloc, Shard::start(alloc, 0))?;
    let lines = format!(in alloc; "{HELLO}\n{line}")?;
    let mut talk = Talk::new(alloc, lines.as_str(), 1_000, &[], &[])?;
    says(rt, alloc, &mut desk, &mut talk, HELLO)?;
    displace(alloc, &mut desk)?;
    says(rt, alloc, &mut desk, &mut talk, line)
}

const DISPLACED: &str = "{} > Done(Ended) 4410
{\"messageType\":\"register\",\"channelID\":\"00000000000000000000000000000005\"} > Done(Ended) 4410
{\"messageType\":\"unregister\",\"channelID\":\"00000000000000000000000000000005\"} > Done(Ended) 4410
{\"messageType\":\"ack\",\"updates\":[{\"channelID\":\"00000000000000000000000000000005\",\"version\":\"00-0000000000000001\"}]} > Done(Ended) 4410
{\"messageType\":\"ack\",\"updates\":[]} > Done(Ended) 4410
{\"messageType\":\"nack\"} > Done(Ended) 4410
[] > Done(Refused) 4400
END > Done(Left)";

#[test]
fn a_displaced_session(rt: HostRuntime) -> Result<(), Fail> {
    let alloc = rt.alloc();
    for line in DISPLACED.lines() {
        is_displaced(&rt, alloc, line)?;
    }
    Ok(())
}

// A conversation in which a message of that many seconds comes, which isn't acknowledged.
fn hold(rt: &impl Abort, alloc: Global, desk: &mut LoneDesk, ttl: u16) -> Result<(), Fail> {
    let lines = format!(in alloc; "{HELLO}\n{REGISTER}")?;
    let mut talk = Talk::new(alloc, lines.as_str(), 1_000, &[], &[5])?;
    says(rt, alloc, desk, &mut talk, lines.as_str())?;
    give(alloc, desk, Op { pass: 0, k: 1 }, TOKEN, hi(alloc, ttl)?)?;
    talk.live.due = true;
    says(rt, alloc, desk, &mut talk, NOTIFIED)?;
    says(rt, alloc, desk, &mut talk, "END > Done(Left)")
}

// Another conversation with the same client, a second later.
fn comes_again(
    rt: &impl Abort,
    alloc: Global,
    desk: &mut LoneDesk,
    lines: &str,
) -> Result<(), Fail> {
    let mut talk = Talk::new(alloc, lines, 2_000, &[], &[])?;
    says(rt, alloc, desk, &mut talk, lines)
}

#[test]
fn messages_are_saved(rt: HostRuntime) -> Result<(), Fail> {
    let alloc = rt.alloc();
    let mut desk = LoneDesk::new(alloc, Shard::start(alloc, 0))?;
    hold(&rt, alloc, &mut desk, 60)?;
    comes_again(&rt, alloc, &mut desk, HELD)
}

#[test]
fn what_is_for_now_alone_is_not_saved(rt: HostRuntime) -> Result<(), Fail> {
    let alloc = rt.alloc();
    let mut desk = LoneDesk::new(alloc, Shard::start(alloc, 0))?;
    hold(&rt, alloc, &mut desk, 0)?;
    comes_again(&rt, alloc, &mut desk, NOTHING_HELD)
}

// So many pumps at most.
fn serve(alloc: Global, desk: &mut LoneDesk, talk: &mut Talk, turns: u64) -> SessionServed {
    serve_session(
        alloc,
        desk,
        &mut talk.chat,
        &mut HereLink,
        &talk.clock,
        &mut talk.draw,
        &talk.place,
        &mut talk.live,
        turns,
    )
}

// How serving ended, and how many texts were sent by then.
fn served(alloc: Global, desk: &mut LoneDesk, talk: &mut Talk, turns: u64) -> Result<String, Fail> {
    let ended = serve(alloc, desk, talk, turns);
    let count = talk.chat.sent().len();
    Ok(format!(in alloc; "{ended:?} {count}")?)
}

#[test]
fn serving_goes_on(rt: HostRuntime) -> Result<(), Fail> {
    let alloc = rt.alloc();
    let mut desk = LoneDesk::new(alloc, Shard::start(alloc, 0))?;
    let lines = format!(in alloc; "{HELLO}\n{{}} > ")?;
    let mut talk = Talk::new(alloc, lines.as_str(), 1_000, &[], &[])?;
    assert_eq!(rt;
        served(alloc, &mut desk, &mut talk, 0)?.as_str(),
        "Paused 0"
    );
    assert_eq!(rt;
        served(alloc, &mut desk, &mut talk, 1)?.as_str(),
        "Paused 1"
    );
    assert_eq!(rt;
        served(alloc, &mut desk, &mut talk, 1)?.as_str(),
        "Paused 2"
    );
    assert_eq!(rt;
        served(alloc, &mut desk, &mut talk, 7)?.as_str(),
        "Done(Left) 2"
    );
    Ok(())
}
