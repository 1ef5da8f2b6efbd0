//! Messages that are routed, to a session or past it.
ghost use Rattle.std.specs.Prelude.{◌≡◌, ◌≤◌, ◌^◌, true, false, IfOk};
ghost use Rattle.push_model.specs.declared.ids.Op.{Op};
ghost use Rattle.push_model.specs.Frames.{is_begin_of};
ghost use Rattle.push_model.specs.Steps.{proper};
ghost use Rattle.lone_desk.specs.LoneViews.{lone_view};
ghost use Rattle.session_tests.specs.Ready.{IsReady};

use crate::messages::hi;
use crate::talk::{CHANNEL, HELD, NOTHING_HELD, NOTIFIED, TOKEN, Talk, USER, says};
use endpoint_router::route;
use lone_desk::LoneDesk;
use node_routes::{FailLink, HereLink, NodeLink};
use push_model::{Ask, Desks, Mail, Moment, NodeId, Op, SessionId, Step};
use session_front::Live;
use shard_core::Shard;
use std::alloc::Global;
use std::process::Abort;
use std::test::Fail;

// The session of the user at node 1, made at 100 milliseconds.
fn session() -> Result<SessionId, Fail> {
    let node = NodeId::new(1).ok_or("a node")?;
    Ok(SessionId {
        uaid: USER,
        node,
        at: 100,
    })
}

// Makes a step that begins no flight.
fn make<D: Desks>(alloc: Global, desks: &mut D, asked: Step) -> Result<(), Fail>
    requires ready { IsReady (D.view desks.old) }
    requires allowed { proper ((D.view desks.old).number 0) asked ≡ true }
    requires other { (o : Op) → is_begin_of o asked ≡ false }
    ensures { IsReady (D.view desks.new) }
{
    let _ = desks.call(alloc, 0, asked)?;
    Ok(())
}

/// Routes a message for the channel, and tells the answer.
pub fn routed<D: Desks, L: NodeLink<D>>(
    alloc: Global,
    desks: &mut D,
    link: &mut L,
    op: Op,
    ask: Ask,
) -> Result<String, Fail>
    requires ready { IsReady (D.view desks.old) }
    requires signs { (D.view desks.old).number 0 ≡ op.pass }
{
    let answer = route(alloc, desks, link, op, Moment::zero(), TOKEN, ask)?;
    Ok(format!(in alloc; "{answer:?}")?)
}

// A desk of an empty shard whose first message is to have that number.
#[tactic(auto, using(crate::proofs::ReadyLemmas::ready_lone))]
fn empty(alloc: Global, next: u64) -> Result<LoneDesk, Fail>
    requires { next ≤ 2 ^ 63 }
    ensures { IfOk result (λ desk. IsReady (lone_view desk)) }
{
    let shard = Shard::start_at(alloc, 0, next);
    shard.is_reached();
    Ok(LoneDesk::new(alloc, shard)?)
}

// Attaches the user's session, and registers its channel.
fn open(alloc: Global, desk: &mut LoneDesk) -> Result<(), Fail>
    requires { IsReady (lone_view desk.old) }
    ensures { IsReady (lone_view desk.new) }
{
    let s = session()?;
    make(alloc, desk, Step::Create(s))?;
    make(alloc, desk, Step::Attach(s))?;
    make(alloc, desk, Step::Register(s, CHANNEL, TOKEN))
}

// The session looks at what is stored.
fn look(alloc: Global, desk: &mut LoneDesk) -> Result<(), Fail>
    requires { IsReady (lone_view desk.old) }
    ensures { IsReady (lone_view desk.new) }
{
    let s = session()?;
    make(alloc, desk, Step::TakeCheck(s))?;
    make(alloc, desk, Step::FetchTopic(s))?;
    make(alloc, desk, Step::FetchPlain(s))
}

// The session goes, and no node has the user any more.
fn leave(alloc: Global, desk: &mut LoneDesk) -> Result<(), Fail>
    requires { IsReady (lone_view desk.old) }
    ensures { IsReady (lone_view desk.new) }
{
    let s = session()?;
    make(alloc, desk, Step::Close(s))?;
    make(alloc, desk, Step::Release(s))?;
    make(alloc, desk, Step::SaveOne(s))
}

// The session goes with its node, and the user is still routed to it.
fn kill(alloc: Global, desk: &mut LoneDesk) -> Result<(), Fail>
    requires { IsReady (lone_view desk.old) }
    ensures { IsReady (lone_view desk.new) }
{
    let node = NodeId::new(1).ok_or("a node")?;
    make(alloc, desk, Step::Kill(node))?;
    make(alloc, desk, Step::Up(node))
}

// What the sender of a message of that many seconds is answered, at that desk.
fn answered<L: NodeLink<LoneDesk>>(
    alloc: Global,
    desk: &mut LoneDesk,
    link: &mut L,
    ttl: u16,
) -> Result<String, Fail>
    requires { IsReady (lone_view desk.old) }
{
    let op = Op { pass: 0, k: 1 };
    routed(alloc, desk, link, op, hi(alloc, ttl)?)
}

// A link that is lost at these calls, before their steps are made or after that.
fn lost(alloc: Global, before: &[u64], after: &[u64]) -> Result<FailLink, Fail> {
    let before = Vec::from_slice(alloc, before)?;
    let after = Vec::from_slice(alloc, after)?;
    Ok(FailLink::new(before, after))
}

// The session is pumped, while its client is still.
fn shows(rt: &impl Abort, alloc: Global, desk: &mut LoneDesk, lines: &str) -> Result<(), Fail> {
    let s = session()?;
    let mut talk = Talk::new(alloc, lines, 1_000, &[], &[1])?;
    talk.live = Live {
        s: Some(s),
        due: true,
    };
    says(rt, alloc, desk, &mut talk, lines)
}

// The user's client comes.
fn comes(rt: &impl Abort, alloc: Global, desk: &mut LoneDesk, lines: &str) -> Result<(), Fail> {
    let mut talk = Talk::new(alloc, lines, 1_000, &[], &[])?;
    says(rt, alloc, desk, &mut talk, lines)
}

// The answer to the sender of the first message, which is kept for a minute.
const CREATED: &str = "Created(MsgId { shard: 0, number: 1 }, 60)";

#[test]
fn to_a_session(rt: HostRuntime) -> Result<(), Fail> {
    let alloc = rt.alloc();
    let node = NodeId::new(1).ok_or("a node")?;
    let mut desk = empty(alloc, 1)?;
    open(alloc, &mut desk)?;
    assert_eq!(rt;
        answered(alloc, &mut desk, &mut HereLink, 60)?.as_str(),
        CREATED
    );
    assert_eq!(rt; desk.take_mail(0, node), Mail::Bits(65_536));
    shows(&rt, alloc, &mut desk, NOTIFIED)
}

#[test]
fn to_a_session_for_now_alone(rt: HostRuntime) -> Result<(), Fail> {
    let alloc = rt.alloc();
    let mut desk = empty(alloc, 1)?;
    open(alloc, &mut desk)?;
    assert_eq!(rt;
        answered(alloc, &mut desk, &mut HereLink, 0)?.as_str(),
        "Created(MsgId { shard: 0, number: 1 }, 0)"
    );
    shows(&rt, alloc, &mut desk, NOTIFIED)
}

// The message is stored, and the session is told so.
#[test]
fn by_a_link_that_is_lost_before(rt: HostRuntime) -> Result<(), Fail> {
    let alloc = rt.alloc();
    let mut desk = empty(alloc, 1)?;
    open(alloc, &mut desk)?;
    look(alloc, &mut desk)?;
    let mut link = lost(alloc, &[1], &[])?;
    assert_eq!(rt;
        answered(alloc, &mut desk, &mut link, 60)?.as_str(),
        CREATED
    );
    shows(&rt, alloc, &mut desk, NOTIFIED)
}

// The session has the message, and it is stored as well; both show the same version.
#[test]
fn by_a_link_that_is_lost_after(rt: HostRuntime) -> Result<(), Fail> {
    let alloc = rt.alloc();
    let mut desk = empty(alloc, 1)?;
    open(alloc, &mut desk)?;
    look(alloc, &mut desk)?;
    let mut link = lost(alloc, &[], &[1])?;
    assert_eq!(rt;
        answered(alloc, &mut desk, &mut link, 60)?.as_str(),
        CREATED
    );
    shows(&rt, alloc, &mut desk, TWICE)
}

const TWICE: &str =
    "NOTHING > Moved {\"channelID\":\"5a5a5a5a-0000-4000-8000-000000000001\",\"data\":\"aGk\",\"headers\":{\"encoding\":\"aes128gcm\"},\"messageType\":\"notification\",\"version\":\"00-0000000000000001\"} {\"channelID\":\"5a5a5a5a-0000-4000-8000-000000000001\",\"data\":\"aGk\",\"headers\":{\"encoding\":\"aes128gcm\"},\"messageType\":\"notification\",\"version\":\"00-0000000000000001\"}";

// The session isn't told of the message that is stored, and looks once it has routed its user again.
#[test]
fn by_a_link_that_stays_lost(rt: HostRuntime) -> Result<(), Fail> {
    let alloc = rt.alloc();
    let mut desk = empty(alloc, 1)?;
    open(alloc, &mut desk)?;
    look(alloc, &mut desk)?;
    let mut link = lost(alloc, &[1, 2], &[])?;
    assert_eq!(rt;
        answered(alloc, &mut desk, &mut link, 60)?.as_str(),
        CREATED
    );
    shows(&rt, alloc, &mut desk, RENEWED)
}

const RENEWED: &str = "NOTHING > Idle
{} > Moved {} {\"channelID\":\"5a5a5a5a-0000-4000-8000-000000000001\",\"data\":\"aGk\",\"headers\":{\"encoding\":\"aes128gcm\"},\"messageType\":\"notification\",\"version\":\"00-0000000000000001\"}";

// One minute's message is kept for the client that comes later.
#[test]
fn past_a_session_that_left(rt: HostRuntime) -> Result<(), Fail> {
    let alloc = rt.alloc();
    let mut desk = empty(alloc, 1)?;
    open(alloc, &mut desk)?;
    leave(alloc, &mut desk)?;
    assert_eq!(rt;
        answered(alloc, &mut desk, &mut HereLink, 60)?.as_str(),
        CREATED
    );
    comes(&rt, alloc, &mut desk, HELD)
}

// A message for now alone isn't.
#[test]
fn past_a_session_for_now_alone(rt: HostRuntime) -> Result<(), Fail> {
    let alloc = rt.alloc();
    let mut desk = empty(alloc, 1)?;
    open(alloc, &mut desk)?;
    leave(alloc, &mut desk)?;
    assert_eq!(rt;
        answered(alloc, &mut desk, &mut HereLink, 0)?.as_str(),
        "Created(MsgId { shard: 0, number: 1 }, 0)"
    );
    comes(&rt, alloc, &mut desk, NOTHING_HELD)
}

// The session that the user is routed to isn't there.
#[test]
fn past_a_session_that_was_killed(rt: HostRuntime) -> Result<(), Fail> {
    let alloc = rt.alloc();
    let mut desk = empty(alloc, 1)?;
    open(alloc, &mut desk)?;
    kill(alloc, &mut desk)?;
    assert_eq!(rt;
        answered(alloc, &mut desk, &mut HereLink, 60)?.as_str(),
        CREATED
    );
    comes(&rt, alloc, &mut desk, HELD)
}

#[test]
fn to_no_channel(rt: HostRuntime) -> Result<(), Fail> {
    let alloc = rt.alloc();
    let mut desk = empty(alloc, 1)?;
    assert_eq!(rt;
        answered(alloc, &mut desk, &mut HereLink, 60)?.as_str(),
        "Gone"
    );
    Ok(())
}

#[test]
fn where_no_number_is_left(rt: HostRuntime) -> Result<(), Fail> {
    let alloc = rt.alloc();
    let mut desk = empty(alloc, 9_223_372_036_854_775_808)?;
    open(alloc, &mut desk)?;
    assert_eq!(rt;
        answered(alloc, &mut desk, &mut HereLink, 60)?.as_str(),
        "IdsSpent"
    );
    Ok(())
}
