//! Makes steps on shards for `bench/boards.py`. Its arguments are how many callers make them, how many shards they go round,
//! which is 1 or 16, and how many rounds each caller makes. 0 callers are the steps on one bare shard; 1, 2 and 4 callers have
//! a thread each, and the shards are on boards. Each step asks whether a session of the caller is due, which it isn't. It
//! prints how many were answered so.
#![tactic(auto)]

ghost use Rattle.std.specs.Prelude.{◌≡◌, ℕ, true, IfOk, vec_len};
ghost use Rattle.push_model.specs.Steps.{proper};
ghost use Rattle.push_exchange.specs.Boards.{IsOver, passes_view};

use push_exchange::{Exchange, Passes};
use push_model::{Desks, NoMemory, NodeId, Reply, SessionId, Step, Uaid};
use push_ports::NoBell;
use shard_core::Shard;
use std::alloc::Global;
use std::io;
use std::sync::Wait;
use std::thread::{Threads, join};

/// The session of a caller, of whom there are eight at most.
fn session_of(caller: u8) -> Option<SessionId> {
    Some(SessionId {
        uaid: Uaid(u128::from(caller)),
        node: NodeId::new(caller)?,
        at: 1,
    })
}

/// Makes the step on the shard, and tells whether the session isn't due. The exchange is there for the contract.
fn ask<R: Wait + Copy>(
    exchange: &Exchange<NoBell>,
    alloc: Global,
    passes: &mut Passes<R, NoBell>,
    shard: u8,
    asked: Step,
) -> bool
    requires over { IsOver exchange.now (passes_view passes.old) }
    requires allowed { (by : ℕ) → proper by asked ≡ true }
    ensures { IsOver exchange.now (passes_view passes.new) }
{
    let _ = exchange;
    if passes.count() <= shard {
        return false;
    }
    matches!(passes.call(alloc, shard, asked), Ok(Reply::NotDue))
}

/// Makes the caller's user on each of the shards, attaches its session, and takes its check.
fn open_all<R: Wait + Copy>(
    exchange: &Exchange<NoBell>,
    alloc: Global,
    passes: &mut Passes<R, NoBell>,
    session: SessionId,
    shards: u8,
)
    requires { IsOver exchange.now (passes_view passes.old) }
    ensures { IsOver exchange.now (passes_view passes.new) }
{
    for shard in 0..shards {
        ask(exchange, alloc, passes, shard, Step::Create(session));
        ask(exchange, alloc, passes, shard, Step::Attach(session));
        ask(exchange, alloc, passes, shard, Step::TakeCheck(session));
    }
}

/// Makes a step on each of the shards, and counts those that were answered so.
fn go_round<R: Wait + Copy>(
    exchange: &Exchange<NoBell>,
    alloc: Global,
    passes: &mut Passes<R, NoBell>,
    session: SessionId,
    shards: u8,
) -> u64
    requires { IsOver exchange.now (passes_view passes.old) }
    ensures { IsOver exchange.now (passes_view passes.new) }
{
    let mut answered: u64 = 0;
    for shard in 0..shards {
        if ask(exchange, alloc, passes, shard, Step::TakeCheck(session)) {
            answered = answered.wrapping_add(1);
        }
    }
    answered
}

/// Makes the caller's rounds, and counts the steps that were answered so.
fn serve<R: Wait + Copy>(
    exchange: &Exchange<NoBell>,
    alloc: Global,
    mut passes: Passes<R, NoBell>,
    caller: u8,
    shards: u8,
    rounds: u64,
) -> (Passes<R, NoBell>, u64)
    requires { IsOver exchange.now (passes_view passes) }
    ensures { IsOver exchange.now (passes_view result.0) }
{
    let mut answered: u64 = 0;
    if let Some(session) = session_of(caller) {
        open_all(exchange, alloc, &mut passes, session, shards);
        for _ in 0..rounds {
            answered = answered.wrapping_add(go_round(
                exchange,
                alloc,
                &mut passes,
                session,
                shards,
            ));
        }
    }
    (passes, answered)
}

/// Serves two callers in a thread each.
fn serve_two<R: Wait + Threads + Copy + Send + Sync>(
    rt: R,
    exchange: &Exchange<NoBell>,
    alloc: Global,
    passes: Passes<R, NoBell>,
    other: Passes<R, NoBell>,
    callers: [u8; 2],
    shards: u8,
    rounds: u64,
) -> (Passes<R, NoBell>, u64)
    requires one { IsOver exchange.now (passes_view passes) }
    requires two { IsOver exchange.now (passes_view other) }
    ensures { IsOver exchange.now (passes_view result.0) }
{
    let [first, second] = callers;
    let (mut one, two) = join(
        &rt,
        || -> (Passes<R, NoBell>, u64)
            requires { IsOver exchange.now (passes_view passes) }
            ensures { IsOver exchange.entry.now (passes_view result.0) }
        { serve(exchange, alloc, passes, first, shards, rounds) },
        || -> (Passes<R, NoBell>, u64)
            requires { IsOver exchange.now (passes_view other) }
            ensures { IsOver exchange.entry.now (passes_view result.0) }
        { serve(exchange, alloc, other, second, shards, rounds) },
    );
    one.0.join(two.0);
    (one.0, one.1.wrapping_add(two.1))
}

/// Serves four callers in a thread each.
fn serve_four<R: Wait + Threads + Copy + Send + Sync>(
    rt: R,
    alloc: Global,
    shards: u8,
    rounds: u64,
) -> Result<u64, NoMemory> {
    let (exchange, mut first) = Exchange::new(rt, alloc, bells(alloc)?)?;
    let second = first.split(alloc)?;
    let third = first.split(alloc)?;
    let fourth = first.split(alloc)?;
    let (one, two) = join(
        &rt,
        || -> (Passes<R, NoBell>, u64)
            requires { IsOver exchange (passes_view first) × IsOver exchange (passes_view second) }
        { serve_two(rt, &exchange, alloc, first, second, [1, 2], shards, rounds) },
        || -> (Passes<R, NoBell>, u64)
            requires { IsOver exchange (passes_view third) × IsOver exchange (passes_view fourth) }
        { serve_two(rt, &exchange, alloc, third, fourth, [3, 4], shards, rounds) },
    );
    Ok(one.1.wrapping_add(two.1))
}

/// The bells of the eight nodes, which ring nowhere.
fn bells(alloc: Global) -> Result<Vec<NoBell>, NoMemory>
    ensures { IfOk result (λ v. vec_len v ≡ 8) }
{
    match vec![in alloc; NoBell; 8] {
        Ok(bells) => Ok(bells),
        Err(_) => Err(NoMemory),
    }
}

/// Makes so many steps on a bare shard, and counts those that were answered so.
fn step_often(alloc: Global, steps: u64) -> Option<u64> {
    let session = session_of(1)?;
    let mut shard = Shard::start(alloc, 0);
    let _ = shard.step(alloc, Step::Create(session));
    let _ = shard.step(alloc, Step::Attach(session));
    let _ = shard.step(alloc, Step::TakeCheck(session));
    let mut answered: u64 = 0;
    for _ in 0..steps {
        if let Ok(Reply::NotDue) = shard.step(alloc, Step::TakeCheck(session)) {
            answered = answered.wrapping_add(1);
        }
    }
    Some(answered)
}

/// What one, two or four callers were answered so; none where memory is missing, or the number is another.
fn answered_by<R: Wait + Threads + Copy + Send + Sync>(
    rt: R,
    alloc: Global,
    callers: u64,
    shards: u8,
    rounds: u64,
) -> Option<u64> {
    if callers == 4 {
        return serve_four(rt, alloc, shards, rounds).ok();
    }
    let (exchange, mut passes) = Exchange::new(rt, alloc, bells(alloc).ok()?).ok()?;
    if callers == 1 {
        return Some(serve(&exchange, alloc, passes, 1, shards, rounds).1);
    }
    let other = passes.split(alloc).ok()?;
    Some(serve_two(rt, &exchange, alloc, passes, other, [1, 2], shards, rounds).1)
}

fn main(rt: HostRuntime) -> io::Result<()> {
    let alloc = rt.alloc();
    let mut words = std::env::args(&rt)?.skip(1);
    let callers = words.next().and_then(|word| word.parse::<u64>().ok());
    let shards = words.next().and_then(|word| word.parse::<u8>().ok());
    let rounds = words.next().and_then(|word| word.parse::<u64>().ok());
    let (Some(callers), Some(shards), Some(rounds)) = (callers, shards, rounds) else {
        return Ok(());
    };
    let answered = match callers {
        0 => step_often(alloc, rounds),
        _ => answered_by(rt, alloc, callers, shards, rounds),
    };
    match answered {
        Some(answered) => println!(&rt; "{answered}"),
        None => Ok(()),
    }
}
