//! Four threads route messages on all sixteen boards at once.
ghost use Rattle.push_exchange.specs.Boards.{IsOver, passes_view};
ghost use Rattle.exchange_tests.specs.Callers.{IsCaller};

use crate::callers::make;
use crate::closing::bells;
use push_exchange::{Exchange, Passes, Shards};
use push_model::{
    AckedFrom, Actor, Ask, Blob, ChannelId, Coding, Desks, MsgId, NodeId, Op, Reply, SessionId,
    Step, Tally, Terms, Token, Uaid, Urgency,
};
use push_ports::NoBell;
use std::alloc::Global;
use std::sync::Wait;
use std::test::Fail;
use std::thread::{Threads, join};

/// How many messages each thread routes on each shard.
const MESSAGES: u64 = 25;

/// The channel of each user.
const CHANNEL: ChannelId = ChannelId(5);

// A caller's user on a shard: its session, and the token of its channel.
#[derive(Drop)]
struct Guest {
    session: SessionId,
    token: Token,
}

// The user of a caller, of whom there are eight at most.
fn guest_of(caller: u8) -> Option<Guest> {
    let session = SessionId {
        uaid: Uaid(u128::from(caller)),
        node: NodeId::new(caller)?,
        at: 1,
    };
    Some(Guest {
        session,
        token: Token([caller; 24]),
    })
}

// A push request without payload.
fn bare(alloc: Global) -> Option<Ask> {
    Some(Ask {
        terms: Terms {
            ttl: 60,
            topic: None,
            urgency: Urgency::Normal,
            coding: Coding::Bare,
        },
        encryption: Blob::copy(alloc, b"").ok()?,
        crypto_key: Blob::copy(alloc, b"").ok()?,
        payload: Blob::copy(alloc, b"").ok()?,
    })
}

// Makes the user, attaches its session and registers its channel.
fn opens<R: Wait + Copy>(
    exchange: &Exchange<NoBell>,
    alloc: Global,
    passes: &mut Passes<R, NoBell>,
    shard: u8,
    by: u64,
    guest: &Guest,
) -> bool
    requires { IsCaller exchange.now shard by (passes_view passes.old) }
    ensures { IsCaller exchange.now shard by (passes_view passes.new) }
{
    let create = Step::Create(guest.session);
    let made = make(exchange, alloc, passes, shard, by, create);
    let attach = Step::Attach(guest.session);
    let attached = make(exchange, alloc, passes, shard, by, attach);
    let register = Step::Register(guest.session, CHANNEL, guest.token);
    let registered = make(exchange, alloc, passes, shard, by, register);
    matches!(made, Some(Reply::Made))
        && matches!(attached, Some(Reply::Attached(None)))
        && matches!(registered, Some(Reply::Endpoint(_)))
}

// Begins a message for the user, which is routed.
fn begin<R: Wait + Copy>(
    exchange: &Exchange<NoBell>,
    alloc: Global,
    passes: &mut Passes<R, NoBell>,
    shard: u8,
    by: u64,
    guest: &Guest,
    k: u64,
) -> Option<MsgId>
    requires { IsCaller exchange.now shard by (passes_view passes.old) }
    ensures { IsCaller exchange.now shard by (passes_view passes.new) }
{
    let ask = bare(alloc)?;
    let step = Step::Begin(Op { pass: by, k }, guest.token, ask);
    match make(exchange, alloc, passes, shard, by, step) {
        Some(Reply::Begun(id, Some(_))) => Some(id),
        _ => None,
    }
}

// Gives the flight's message to the session, and ends the flight with 201.
fn gives<R: Wait + Copy>(
    exchange: &Exchange<NoBell>,
    alloc: Global,
    passes: &mut Passes<R, NoBell>,
    shard: u8,
    by: u64,
    k: u64,
) -> bool
    requires { IsCaller exchange.now shard by (passes_view passes.old) }
    ensures { IsCaller exchange.now shard by (passes_view passes.new) }
{
    let op = Op { pass: by, k };
    let given = make(exchange, alloc, passes, shard, by, Step::Direct(op));
    let heard = Step::Heard(Actor::Flight(op));
    let ended = make(exchange, alloc, passes, shard, by, heard);
    matches!(given, Some(Reply::Here(_))) && matches!(ended, Some(Reply::End(201)))
}

// Shows the session its one message, and acknowledges it.
fn shows<R: Wait + Copy>(
    exchange: &Exchange<NoBell>,
    alloc: Global,
    passes: &mut Passes<R, NoBell>,
    shard: u8,
    by: u64,
    guest: &Guest,
    id: MsgId,
) -> bool
    requires { IsCaller exchange.now shard by (passes_view passes.old) }
    ensures { IsCaller exchange.now shard by (passes_view passes.new) }
{
    let take = Step::TakeDirect(guest.session);
    let shown = make(exchange, alloc, passes, shard, by, take);
    let ack = Step::Ack(guest.session, CHANNEL, id);
    let acked = make(exchange, alloc, passes, shard, by, ack);
    let Some(Reply::Page(page)) = shown else {
        return false;
    };
    page.len() == 1 && matches!(acked, Some(Reply::Acked(AckedFrom::Direct)))
}

// Whether a message goes from its begin to its acknowledgement.
fn routes<R: Wait + Copy>(
    exchange: &Exchange<NoBell>,
    alloc: Global,
    passes: &mut Passes<R, NoBell>,
    shard: u8,
    by: u64,
    guest: &Guest,
    k: u64,
) -> bool
    requires { IsCaller exchange.now shard by (passes_view passes.old) }
    ensures { IsCaller exchange.now shard by (passes_view passes.new) }
{
    let Some(id) = begin(exchange, alloc, passes, shard, by, guest, k) else {
        return false;
    };
    let given = gives(exchange, alloc, passes, shard, by, k);
    let shown = shows(exchange, alloc, passes, shard, by, guest, id);
    given && shown
}

// Serves the caller's user on a shard, and tells whether each reply was as it is to be.
fn serves_on<R: Wait + Copy>(
    exchange: &Exchange<NoBell>,
    alloc: Global,
    passes: &mut Passes<R, NoBell>,
    shard: u8,
    caller: u8,
) -> bool
    requires { IsOver exchange.now (passes_view passes.old) }
    ensures { IsOver exchange.now (passes_view passes.new) }
{
    let Some(guest) = guest_of(caller) else {
        return false;
    };
    if passes.count() <= shard {
        return false;
    }
    let by = passes.pass(shard);
    let mut all = opens(exchange, alloc, passes, shard, by, &guest);
    for k in 0..MESSAGES {
        if !routes(exchange, alloc, passes, shard, by, &guest, k) {
            all = false;
        }
    }
    all
}

// Serves the caller's users on all shards.
fn serve<R: Wait + Copy>(
    exchange: &Exchange<NoBell>,
    alloc: Global,
    mut passes: Passes<R, NoBell>,
    caller: u8,
) -> (Passes<R, NoBell>, bool)
    requires { IsOver exchange.now (passes_view passes) }
    ensures { IsOver exchange.now (passes_view result.0) }
{
    let mut all = true;
    for shard in 0..16u8 {
        if !serves_on(exchange, alloc, &mut passes, shard, caller) {
            all = false;
        }
    }
    (passes, all)
}

// Serves two callers at once, and takes in the second one's passes.
fn serve_two<R: Wait + Threads + Copy + Send + Sync>(
    rt: R,
    exchange: &Exchange<NoBell>,
    alloc: Global,
    passes: Passes<R, NoBell>,
    other: Passes<R, NoBell>,
    caller: u8,
    second: u8,
) -> (Passes<R, NoBell>, bool)
    requires one { IsOver exchange.now (passes_view passes) }
    requires two { IsOver exchange.now (passes_view other) }
    ensures { IsOver exchange.now (passes_view result.0) }
{
    let (mut one, two) = join(
        &rt,
        || -> (Passes<R, NoBell>, bool)
            requires { IsOver exchange.now (passes_view passes) }
            ensures { IsOver exchange.entry.now (passes_view result.0) }
        { serve(exchange, alloc, passes, caller) },
        || -> (Passes<R, NoBell>, bool)
            requires { IsOver exchange.now (passes_view other) }
            ensures { IsOver exchange.entry.now (passes_view result.0) }
        { serve(exchange, alloc, other, second) },
    );
    one.0.join(two.0);
    (one.0, one.1 && two.1)
}

// The shards after four threads served a user each on every shard.
fn served_by_four<R: Wait + Threads + Copy + Send + Sync>(
    rt: R,
    alloc: Global,
) -> Result<Shards, Fail> {
    let (exchange, mut first) = Exchange::new(rt, alloc, bells(alloc)?)?;
    let second = first.split(alloc)?;
    let third = first.split(alloc)?;
    let fourth = first.split(alloc)?;
    let (mut one, two) = join(
        &rt,
        || -> (Passes<R, NoBell>, bool)
            requires { IsOver exchange (passes_view first) × IsOver exchange (passes_view second) }
            ensures { IsOver exchange (passes_view result.0) }
        { serve_two(rt, &exchange, alloc, first, second, 1, 2) },
        || -> (Passes<R, NoBell>, bool)
            requires { IsOver exchange (passes_view third) × IsOver exchange (passes_view fourth) }
            ensures { IsOver exchange (passes_view result.0) }
        { serve_two(rt, &exchange, alloc, third, fourth, 3, 4) },
    );
    one.0.join(two.0);
    if !one.1 || !two.1 {
        return Err(Fail::from("a reply was another one"));
    }
    match exchange.close(one.0) {
        Ok(shards) => Ok(shards),
        Err(_) => Err(Fail::from("not closed")),
    }
}

#[test]
fn four_threads_route_on_sixteen_boards(rt: HostRuntime) -> Result<(), Fail> {
    let alloc = rt.alloc();
    let mut shards = served_by_four(rt, alloc)?;
    let messages = 4 * 16 * MESSAGES;
    let tally = Tally {
        begun: messages,
        ok: messages,
        refused: 0,
        stored: 0,
        shown: messages,
        acked: messages,
        saved: 0,
        left: 0,
        lost: 0,
    };
    assert_eq!(rt; shards.tally(), tally);
    let counts = shards.report(alloc);
    assert_eq!(rt; (counts.users, counts.held, counts.flights), (64, 0, 0));
    Ok(())
}
