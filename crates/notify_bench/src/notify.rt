//! Notifications, in rounds, to one session. Each function answers how many were shown, and how many acknowledged but for those
//! that are left; or `None` where memory is missing.
ghost use Rattle.std.specs.Prelude.{◌≡◌, ◌<◌, true};
ghost use Rattle.push_model.specs.Steps.{proper};

use crate::bench::{Bench, CHANNEL, Path};
use crate::browser::Browser;
use push_model::{MsgId, Reply, SessionId, Step};
use session_front::Live;
use std::alloc::Global;

// How many messages are held, stored or on their way.
fn left(bench: &mut Bench) -> Option<u64> {
    let counts = bench.counts()?;
    Some(counts.held.max(counts.stored).max(counts.flights))
}

/// Sends so many, so many in a round, by a session and its client's chat.
pub fn serve(alloc: Global, path: Path, count: u64, each: u64) -> Option<(u64, u64)>
    requires { 0 < each }
{
    let mut bench = Bench::new(alloc)?;
    let mut browser = Browser::new(alloc)?;
    let mut live = Live::new();
    bench.pump_all(&mut browser, &mut live);
    let token = bench.register(live.s?)?;
    for number in 0..count {
        bench.fly(token, path, number)?;
        if (number + 1) % each == 0 || number + 1 == count {
            live.due = true;
            bench.pump_all(&mut browser, &mut live);
        }
    }
    let (shown, acknowledged) = browser.counts();
    Some((shown, acknowledged.saturating_sub(left(&mut bench)?)))
}

// Makes a step that may show messages, and answers how many.
fn show(bench: &mut Bench, step: Step) -> Option<u64>
    requires { proper 0 step ≡ true }
{
    match bench.make(step)? {
        Reply::Page(page) => Some(page.len() as u64),
        _ => Some(0),
    }
}

// The steps of a session's turn.
fn turn(bench: &mut Bench, s: SessionId) -> Option<u64> {
    let direct = show(bench, Step::TakeDirect(s))?;
    match bench.make(Step::TakeCheck(s))? {
        Reply::Due => {
            let topic = show(bench, Step::FetchTopic(s))?;
            let plain = show(bench, Step::FetchPlain(s))?;
            Some(direct.wrapping_add(topic).wrapping_add(plain))
        }
        _ => Some(direct),
    }
}

// The steps of an acknowledgement and the turn behind it, and how many messages it took.
fn acknowledge(bench: &mut Bench, s: SessionId, number: u64) -> Option<u64> {
    let id = MsgId { shard: 0, number };
    let reply = bench.make(Step::Ack(s, CHANNEL, id))?;
    turn(bench, s)?;
    match reply {
        Reply::Acked(_) => Some(1),
        _ => Some(0),
    }
}

/// Makes the steps of so many, so many in a round, without a session's texts.
pub fn step(alloc: Global, path: Path, count: u64, each: u64) -> Option<(u64, u64)>
    requires { 0 < each }
{
    let mut bench = Bench::new(alloc)?;
    let (s, token) = bench.open()?;
    let mut shown: u64 = 0;
    let mut acknowledged: u64 = 0;
    for number in 0..count {
        bench.fly(token, path, number)?;
        if (number + 1) % each == 0 || number + 1 == count {
            shown = shown.wrapping_add(turn(&mut bench, s)?);
            for place in number - number % each..number + 1 {
                let took = acknowledge(&mut bench, s, place + 1)?;
                acknowledged = acknowledged.wrapping_add(took);
            }
        }
    }
    Some((shown, acknowledged.saturating_sub(left(&mut bench)?)))
}
