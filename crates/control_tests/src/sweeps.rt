//! A sweep after a kill, and one of idle users.

use crate::lines::answers;
use lone_desk::LoneDesk;
use node_sweep::{Swept, sweep};
use push_model::{Actor, ChannelId, Desks, Mail, Moment, NodeId, Op, SessionId, Step, Token, Uaid};
use schedule_text::read_line;
use shard_core::Shard;
use std::alloc::Global;
use std::test::Fail;

const TOKEN: Token = Token([
    0, 0, 0, 0, 0, 0, 0, 0, 0, 0, 0, 0, 0, 0, 0, 0, 0, 0, 0, 0, 0, 0, 1, 171,
]);

fn session(user: u128, node: u8, at: u64) -> Result<SessionId, Fail> {
    let node = NodeId::new(node).ok_or("a node")?;
    if at >= 1 << 63 {
        return Err(Fail::from("a moment"));
    }
    Ok(SessionId {
        uaid: Uaid(user),
        node,
        at,
    })
}

// A new user's session.
fn join(alloc: Global, desk: &mut LoneDesk, s: SessionId) -> Result<(), Fail> {
    let _ = desk.call(alloc, 0, Step::Create(s))?;
    let _ = desk.call(alloc, 0, Step::Attach(s))?;
    Ok(())
}

// A message for the user's channel is taken by the session that the route row names.
fn give(alloc: Global, desk: &mut LoneDesk, k: u64) -> Result<(), Fail> {
    let op = Op { pass: 0, k };
    let Step::Begin(_, token, ask) = read_line(alloc, b"begin 0 1 1ab 60 . normal 01")? else {
        return Err(Fail::from("a begin"));
    };
    let _ = desk.call(alloc, 0, Step::Begin(op, token, ask))?;
    let _ = desk.call(alloc, 0, Step::Direct(op))?;
    let _ = desk.call(alloc, 0, Step::Heard(Actor::Flight(op)))?;
    Ok(())
}

// The user's newer session, which looks at what is stored: nothing yet.
fn renew(alloc: Global, desk: &mut LoneDesk, s: SessionId) -> Result<(), Fail> {
    let _ = desk.call(alloc, 0, Step::Claim(s))?;
    let _ = desk.call(alloc, 0, Step::Attach(s))?;
    let _ = desk.call(alloc, 0, Step::TakeCheck(s))?;
    let _ = desk.call(alloc, 0, Step::FetchTopic(s))?;
    let _ = desk.call(alloc, 0, Step::FetchPlain(s))?;
    Ok(())
}

// A user whose older session on node 1 is closed and has saved one of two messages, of which the newer session on node 2 wasn't told.
fn half_saved(alloc: Global) -> Result<LoneDesk, Fail> {
    let older = session(1, 1, 100)?;
    let mut desk = LoneDesk::new(alloc, Shard::start(alloc, 0))?;
    join(alloc, &mut desk, older)?;
    let _ = desk.call(alloc, 0, Step::Register(older, ChannelId(5), TOKEN))?;
    give(alloc, &mut desk, 1)?;
    give(alloc, &mut desk, 2)?;
    renew(alloc, &mut desk, session(1, 2, 200)?)?;
    let _ = desk.call(alloc, 0, Step::Close(older))?;
    let _ = desk.call(alloc, 0, Step::SaveOne(older))?;
    Ok(desk)
}

#[test]
fn a_sweep_tells_of_orphans(rt: HostRuntime) -> Result<(), Fail> {
    let alloc = rt.alloc();
    let mut desk = half_saved(alloc)?;
    let first = NodeId::new(1).ok_or("a node")?;
    let _ = desk.call(alloc, 0, Step::Kill(first))?;
    assert_eq!(rt;
        sweep(alloc, &mut desk, 0)?,
        Swept {
            told: 1,
            dropped: 0
        }
    );
    let second = NodeId::new(2).ok_or("a node")?;
    assert_eq!(rt; desk.take_mail(0, second), Mail::Bits(2));
    assert_eq!(rt;
        sweep(alloc, &mut desk, 0)?,
        Swept {
            told: 0,
            dropped: 0
        }
    );
    Ok(())
}

#[test]
fn a_kill_is_followed_by_a_sweep(rt: HostRuntime) -> Result<(), Fail> {
    let alloc = rt.alloc();
    let mut desk = half_saved(alloc)?;
    answers(
        &rt,
        alloc,
        &mut desk,
        b"kill 1\nreport\n",
        b"killed 1 1\nreport users 1 stored 1 held 0 flights 0 unsent 1 orphans 0 waiting 0\n",
    )
}

// A user who was made at 0 and has no session is idle for too long 60 days after.
#[test]
fn a_sweep_drops_idle_users(rt: HostRuntime) -> Result<(), Fail> {
    let alloc = rt.alloc();
    let mut desk = LoneDesk::new(alloc, Shard::start(alloc, 0))?;
    let _ = desk.call(alloc, 0, Step::Create(session(1, 1, 100)?))?;
    join(alloc, &mut desk, session(2, 1, 100)?)?;
    let later = Moment::new(5_184_000).ok_or("a moment")?;
    let _ = desk.call(alloc, 0, Step::Tick(later))?;
    assert_eq!(rt;
        sweep(alloc, &mut desk, 0)?,
        Swept {
            told: 0,
            dropped: 1
        }
    );
    Ok(())
}
