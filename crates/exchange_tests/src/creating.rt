//! Two threads make users on one board at once.
ghost use Rattle.push_exchange.specs.Boards.{IsOver, passes_view};
ghost use Rattle.exchange_tests.specs.Callers.{IsCaller};

use crate::callers::make;
use crate::closing::bells;
use push_exchange::{Exchange, Passes, Shards};
use push_model::{Desks, NodeId, Reply, SessionId, Step, Uaid};
use push_ports::NoBell;
use std::alloc::Global;
use std::sync::Wait;
use std::test::Fail;
use std::thread::{Threads, join};

/// The shard on whose board the users are made.
const SHARD: u8 = 5;

// Whether the user was made, with a session at the node.
fn is_made<R: Wait + Copy>(
    exchange: &Exchange<NoBell>,
    alloc: Global,
    passes: &mut Passes<R, NoBell>,
    by: u64,
    uaid: u128,
    node: NodeId,
) -> bool
    requires { IsCaller exchange.now SHARD by (passes_view passes.old) }
    ensures { IsCaller exchange.now SHARD by (passes_view passes.new) }
{
    let session = SessionId {
        uaid: Uaid(uaid),
        node,
        at: 1,
    };
    let reply = make(exchange, alloc, passes, SHARD, by, Step::Create(session));
    matches!(reply, Some(Reply::Made))
}

// Makes a thousand users from that one on, and tells whether each was made.
fn make_many<R: Wait + Copy>(
    exchange: &Exchange<NoBell>,
    alloc: Global,
    mut passes: Passes<R, NoBell>,
    first: u32,
    node: NodeId,
) -> (Passes<R, NoBell>, bool)
    requires { IsOver exchange.now (passes_view passes) }
    ensures { IsOver exchange.now (passes_view result.0) }
{
    if passes.count() <= SHARD {
        return (passes, false);
    }
    let by = passes.pass(SHARD);
    let mut all = true;
    for k in 0..1_000u32 {
        let uaid = u128::from(first) + u128::from(k);
        if !is_made(exchange, alloc, &mut passes, by, uaid, node) {
            all = false;
        }
    }
    (passes, all)
}

// The shards after two threads made a thousand users each on one board.
fn made_by_two<R: Wait + Threads + Copy + Send + Sync>(
    rt: R,
    alloc: Global,
) -> Result<Shards, Fail> {
    let node = NodeId::new(1).ok_or("a node")?;
    let (exchange, mut passes) = Exchange::new(rt, alloc, bells(alloc)?)?;
    let other = passes.split(alloc)?;
    let (mut one, two) = join(
        &rt,
        || -> (Passes<R, NoBell>, bool)
            requires { IsOver exchange (passes_view passes) }
            ensures { IsOver exchange (passes_view result.0) }
        { make_many(&exchange, alloc, passes, 0, node) },
        || -> (Passes<R, NoBell>, bool)
            requires { IsOver exchange (passes_view other) }
            ensures { IsOver exchange (passes_view result.0) }
        { make_many(&exchange, alloc, other, 1_000, node) },
    );
    one.0.join(two.0);
    if !one.1 || !two.1 {
        return Err(Fail::from("a user wasn't made"));
    }
    match exchange.close(one.0) {
        Ok(shards) => Ok(shards),
        Err(_) => Err(Fail::from("not closed")),
    }
}

#[test]
fn two_threads_make_a_thousand_users_each(rt: HostRuntime) -> Result<(), Fail> {
    let alloc = rt.alloc();
    let mut shards = made_by_two(rt, alloc)?;
    assert_eq!(rt; shards.report(alloc).users, 2_000);
    Ok(())
}
