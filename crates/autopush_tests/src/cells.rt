//! The cell of one user, step by step, with ample memory.

use crate::support::message;
use push_model::{Actor, Moment, Op, Reply, Step, Token, Uaid};
use schedule_text::{print_reply, read_line};
use std::alloc::Global;
use std::process::Abort;
use std::test::Fail;
use user_cell::UserCell;

// Makes a step that is one user's.
fn make(alloc: Global, cell: &mut UserCell, moment: Moment, step: &Step) -> Result<Reply, Fail> {
    match step {
        Step::Begin(_, _, _)
        | Step::Tick(_)
        | Step::Kill(_)
        | Step::Up(_)
        | Step::ListOrphans
        | Step::ListIdle
        | Step::Report => Err(Fail::from("no step of one user")),
        Step::Create(_)
        | Step::Attach(_)
        | Step::Register(_, _, _)
        | Step::Direct(_)
        | Step::Store(_)
        | Step::GiveUp(_)
        | Step::Reread(Actor::Flight(_))
        | Step::Reread(Actor::Saver(_))
        | Step::Nudge(Actor::Flight(_))
        | Step::Nudge(Actor::Saver(_))
        | Step::Heard(Actor::Flight(_))
        | Step::Heard(Actor::Saver(_))
        | Step::Lost(Actor::Flight(_))
        | Step::Lost(Actor::Saver(_))
        | Step::TakeCheck(_)
        | Step::FetchTopic(_)
        | Step::FetchPlain(_)
        | Step::TakeDirect(_)
        | Step::Claim(_)
        | Step::Unregister(_, _)
        | Step::Renew(_)
        | Step::Close(_)
        | Step::Release(_)
        | Step::SaveOne(_)
        | Step::Clear(Actor::Flight(_))
        | Step::Clear(Actor::Saver(_))
        | Step::Notif(_, _)
        | Step::Expire(_)
        | Step::DropUser(_)
        | Step::Ack(_, _, _) => Ok(cell.step(alloc, moment, step)?),
    }
}

// Makes the step of each line at that moment, and compares the reply's line, which stands behind a `>`.
fn answers(
    rt: &impl Abort,
    alloc: Global,
    cell: &mut UserCell,
    seconds: u64,
    lines: &str,
) -> Result<(), Fail> {
    let moment = Moment::new(seconds).ok_or("a moment")?;
    for entry in lines.lines() {
        let (line, wanted) = entry.split_once(" > ").ok_or("a line and its reply")?;
        let step = read_line(alloc, line.as_bytes())?;
        let reply = make(alloc, cell, moment, &step)?;
        let text = print_reply(alloc, &reply)?;
        assert_eq!(rt; text.as_str().trim_end(), wanted, "{line}");
    }
    Ok(())
}

// Begins a flight of message 1, with that ttl, and compares the reply's line.
fn begins(
    rt: &impl Abort,
    alloc: Global,
    cell: &mut UserCell,
    unkept: bool,
    line: &str,
) -> Result<(), Fail> {
    let mut message = message(alloc, 1, b"hi")?;
    if unkept {
        message.ask.terms.ttl = 0;
    }
    let op = Op { pass: 1, k: 1 };
    let reply = cell.begin(alloc, op, Token([0; 24]), message)?;
    assert_eq!(rt; print_reply(alloc, &reply)?.as_str(), line);
    Ok(())
}

const OPENED: &str =
    "create 1 1 100 > made\nattach 1 1 100 > attached .\nregister 1 1 100 5 0 > endpoint 0";

// A session with a channel, and message 1 begun.
fn begun(rt: &impl Abort, alloc: Global) -> Result<UserCell, Fail> {
    let mut cell = UserCell::new(alloc, Uaid(1));
    answers(rt, alloc, &mut cell, 0, OPENED)?;
    begins(rt, alloc, &mut cell, false, "begun 1 1 100\n")?;
    Ok(cell)
}

// Compares what the cell counts: rows, held messages, flights, unsent rows, orphans and waiting rows.
fn counts(rt: &impl Abort, cell: &UserCell, wanted: [u64; 6]) {
    let counted = [
        cell.stored(),
        cell.held(),
        cell.flights(),
        cell.unsent(),
        cell.orphans(),
        cell.waiting(),
    ];
    assert_eq!(rt; counted, wanted);
}

const GIVEN: &str = "direct 1 1 > here
heard f 1 1 > end 201
take 1 1 100 > page 1:5:6869
ack 1 1 100 5 1 > acked direct
ack 1 1 100 5 1 > unknown";

#[test]
fn a_message_is_given(rt: HostRuntime) -> Result<(), Fail> {
    let alloc = rt.alloc();
    let mut cell = begun(&rt, alloc)?;
    counts(&rt, &cell, [0, 0, 1, 0, 0, 0]);
    answers(&rt, alloc, &mut cell, 59, GIVEN)?;
    counts(&rt, &cell, [0, 0, 0, 0, 0, 0]);
    Ok(())
}

const STORED: &str = "lost f 1 1 > moved store
store 1 1 > stored
check 1 1 100 > due
topics 1 1 100 > page
plains 1 1 100 > page 1:5:6869
reread f 1 1 > names 1 100
nudge f 1 1 > here
heard f 1 1 > end 201";

#[test]
fn a_message_is_stored(rt: HostRuntime) -> Result<(), Fail> {
    let alloc = rt.alloc();
    let mut cell = begun(&rt, alloc)?;
    answers(&rt, alloc, &mut cell, 59, STORED)?;
    counts(&rt, &cell, [1, 0, 0, 0, 0, 0]);
    answers(&rt, alloc, &mut cell, 59, "ack 1 1 100 5 1 > acked stored")?;
    counts(&rt, &cell, [0, 0, 0, 0, 0, 0]);
    Ok(())
}

#[test]
fn a_message_expires_before_it_is_given(rt: HostRuntime) -> Result<(), Fail> {
    let alloc = rt.alloc();
    let mut cell = begun(&rt, alloc)?;
    let lines = "direct 1 1 > nothere\nheard f 1 1 > moved store\nstore 1 1 > end 201";
    answers(&rt, alloc, &mut cell, 60, lines)?;
    counts(&rt, &cell, [0, 0, 0, 0, 0, 0]);
    Ok(())
}

#[test]
fn a_message_expires_before_it_is_shown(rt: HostRuntime) -> Result<(), Fail> {
    let alloc = rt.alloc();
    let mut cell = begun(&rt, alloc)?;
    answers(&rt, alloc, &mut cell, 59, "direct 1 1 > here")?;
    counts(&rt, &cell, [0, 1, 1, 0, 0, 0]);
    answers(&rt, alloc, &mut cell, 60, "take 1 1 100 > page")?;
    counts(&rt, &cell, [0, 0, 1, 0, 0, 0]);
    Ok(())
}

#[test]
fn begins_without_a_route(rt: HostRuntime) -> Result<(), Fail> {
    let alloc = rt.alloc();
    let mut cell = UserCell::new(alloc, Uaid(1));
    begins(&rt, alloc, &mut cell, true, "begun 1 .\n")?;
    assert!(rt; !cell.is_there());
    begins(&rt, alloc, &mut cell, false, "begun 1 .\n")?;
    assert!(rt; cell.is_there());
    answers(
        &rt,
        alloc,
        &mut cell,
        0,
        "direct 1 1 > stage store\nstore 1 1 > end 410",
    )?;
    assert!(rt; !cell.is_there());
    Ok(())
}

const HANDED_OVER: &str = "direct 1 1 > here
heard f 1 1 > end 201
claim 1 2 200 > claimed 1
attach 1 2 200 > attached .
close 1 1 100 > saving 1
release 1 1 100 > kept
save 1 1 100 > saved 1
save 1 1 100 > allsaved
reread s 1 1 100 > names 2 200
nudge s 1 1 100 > here
heard s 1 1 100 > end 200
check 1 2 200 > due
topics 1 2 200 > page
plains 1 2 200 > page 1:5:6869
ack 1 2 200 5 1 > acked stored
unregister 1 2 200 5 > done
notif 2 1 > here
drop 1 > dropped";

#[test]
fn a_message_is_handed_over(rt: HostRuntime) -> Result<(), Fail> {
    let alloc = rt.alloc();
    let mut cell = begun(&rt, alloc)?;
    answers(&rt, alloc, &mut cell, 59, HANDED_OVER)?;
    assert!(rt; !cell.is_there());
    Ok(())
}
