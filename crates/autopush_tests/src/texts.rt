//! Lines that are read, and printed again; lines that are refused; and replies that are printed.

use push_model::{
    AckedFrom, ChannelId, Counts, Message, Moment, MsgId, NodeId, Pages, Reason, Reply, Shared,
    Stage, Step, Text, Token, Uaid, Users,
};
use schedule_text::{LineFault, print_reply, print_step, read_line};
use std::alloc::Global;
use std::process::Abort;
use std::test::Fail;

// The line of the step that is read from the line.
fn again(alloc: Global, line: &str) -> Result<Text, LineFault> {
    let step = read_line(alloc, line.as_bytes())?;
    print_step(alloc, &step).map_err(|_| LineFault::NoMemory)
}

const STEPS: &str = "create 1 1 100
attach 1 1 9223372036854775807
register 1 1 100 ff a0b1
register 1 1 100 0 123456789abcdef0123456789abcdef0123456789abcdef0
begin 18446744073709551615 9223372036854775807 0 2592000 . normal .
begin 3 7 a0b1 60 . normal 00ff
direct 3 7
store 3 7
giveup 3 7
reread f 3 7
nudge f 3 7
heard f 3 7
lost f 3 7
check 1 1 100
topics 1 1 100
plains 1 1 100
take 1 1 100
ack 1 1 100 ff 12
report";

#[test]
fn lines_are_printed_again(rt: HostRuntime) -> Result<(), Fail> {
    let alloc = rt.alloc();
    for line in STEPS.lines() {
        let text = again(alloc, line)?;
        assert_eq!(rt; text.as_str(), line);
    }
    Ok(())
}

// The line is no step's.
fn is_refused(rt: &impl Abort, alloc: Global, line: &str) {
    assert_eq!(rt;
        again(alloc, line).err(),
        Some(LineFault::Outside),
        "{line}"
    );
}

const MORE_STEPS: &str = "create 2 1 100
create 1 2 100
begin 3 7 a0b1 0 . normal 00ff
begin 3 7 a0b1 60 Az-_09 very-low 00ff
begin 3 7 a0b1 60 . low 00ff
begin 3 7 a0b1 60 t high 00ff
reread s 1 1 100
nudge s 1 1 100
heard s 1 1 100
lost s ffffffffffffffffffffffffffffffff 8 100
clear s 1 1 100
clear f 3 7
tick 0
tick 4611686018427387903
claim 1 8 100
unregister 1 1 100 ff
renew 1 1 100
close 1 1 100
release 1 1 100
save 1 1 100
notif 8 1
kill 1
up 8
expire ff
drop 0
orphans
idle";

#[test]
fn more_lines_are_printed_again(rt: HostRuntime) -> Result<(), Fail> {
    let alloc = rt.alloc();
    for line in MORE_STEPS.lines() {
        let text = again(alloc, line)?;
        assert_eq!(rt; text.as_str(), line);
    }
    Ok(())
}

const OTHERS: &str = "Report
reports
report 1
create
create 1 1
create 1 1 100 1
create  1 1 100
create\t1 1 100
create 01 1 100
create 1 01 100
create 1 0 100
create 1 9 100
create 1 1 0100
create 1 1 +100
create 1 1 -100
create 1 1 9223372036854775808
create 1 1 18446744073709551616
create 100000000000000000000000000000001 1 100
register 1 1 100 A 1ab
register 1 1 100 100000000000000000000000000000000 1ab
register 1 1 100 5 01ab
register 1 1 100 5 1aB
register 1 1 100 5 .
register 1 1 100 5 1000000000000000000000000000000000000000000000000
begin 1 1 1ab 2592001 . normal .
begin 1 1 1ab 60 abcdefghijklmnopqrstuvwxyz-_01234 normal .
begin 1 1 1ab 60 a+b normal .
begin 1 1 1ab 60 . urgent .
tick 4611686018427387904
kill 0
up 9
begin 1 1 1ab 60 . Normal .
begin 1 1 1ab 60 . normal 0
begin 1 1 1ab 60 . normal 0F
begin 1 1 1ab 60 . normal ";

#[test]
fn other_lines_are_refused(rt: HostRuntime) -> Result<(), Fail> {
    let alloc = rt.alloc();
    for line in OTHERS.lines() {
        is_refused(&rt, alloc, line);
    }
    Ok(())
}

const MORE_OTHERS: &str = "begin 18446744073709551616 1 1ab 60 . normal .
begin 1 9223372036854775808 1ab 60 . normal .
direct 1
direct 1 1 1
heard 1 1
heard g 1 1
ack 1 1 100 5 0
ack 1 1 100 5 9223372036854775808
create 1  1 100
create 1 1 +1
register 1 1 100 FF a0b1
register 1 1 100 ff 0a0b1
begin 3 7 a0b1 60 . normal 00f
begin 3 7 a0b1 60 . normal 00fF
begin 3 7 a0b1 2592001 . normal 00ff
store f 3 7
giveup 3
lost 3 7
plains 1 1
ack 1 1 100 ff 0";

#[test]
fn lines_of_other_bytes_are_refused(rt: HostRuntime) -> Result<(), Fail> {
    let alloc = rt.alloc();
    for line in [
        "",
        " report",
        "report ",
        "report\r",
        "report\n",
        "caf\u{e9}",
    ] {
        is_refused(&rt, alloc, line);
    }
    Ok(())
}

#[test]
fn more_lines_are_refused(rt: HostRuntime) -> Result<(), Fail> {
    let alloc = rt.alloc();
    for line in MORE_OTHERS.lines() {
        is_refused(&rt, alloc, line);
    }
    Ok(())
}

// A message of that number, whose ask is that of the begin.
fn message(alloc: Global, number: u64, begin: &str) -> Result<Shared, LineFault> {
    let Step::Begin(_, _, ask) = read_line(alloc, begin.as_bytes())? else {
        return Err(LineFault::Outside);
    };
    let message = Message {
        id: MsgId { shard: 0, number },
        uaid: Uaid(1),
        chid: ChannelId(255),
        ask,
        accepted: Moment::zero(),
    };
    Shared::new(alloc, message).map_err(|_| LineFault::NoMemory)
}

// Compares the line of the reply.
fn prints(rt: &impl Abort, alloc: Global, reply: Reply, line: &str) -> Result<(), Fail> {
    let text = print_reply(alloc, &reply)?;
    assert_eq!(rt; text.as_str(), line);
    Ok(())
}

#[test]
fn prints_replies(rt: HostRuntime) -> Result<(), Fail> {
    let alloc = rt.alloc();
    let node = NodeId::new(2).ok_or(LineFault::Outside)?;
    let id = MsgId {
        shard: 0,
        number: 12,
    };
    let mut bytes = [0; 24];
    bytes[22] = 10;
    prints(&rt, alloc, Reply::NotClaimed, "notclaimed\n")?;
    prints(&rt, alloc, Reply::Attached(None), "attached .\n")?;
    prints(&rt, alloc, Reply::Attached(Some(100)), "attached 100\n")?;
    prints(&rt, alloc, Reply::Endpoint(Token(bytes)), "endpoint a00\n")?;
    prints(&rt, alloc, Reply::Stage(Stage::Told(true)), "stage told\n")?;
    prints(&rt, alloc, Reply::Begun(id, None), "begun 12 .\n")?;
    prints(
        &rt,
        alloc,
        Reply::Begun(id, Some((node, 100))),
        "begun 12 2 100\n",
    )?;
    prints(&rt, alloc, Reply::Here(Uaid(1)), "here\n")?;
    prints(&rt, alloc, Reply::Stored, "stored\n")?;
    prints(&rt, alloc, Reply::Names(node, 100), "names 2 100\n")?;
    prints(&rt, alloc, Reply::End(201), "end 201\n")?;
    prints(&rt, alloc, Reply::Due, "due\n")?;
    prints(&rt, alloc, Reply::NotDue, "notdue\n")?;
    prints(
        &rt,
        alloc,
        Reply::Acked(AckedFrom::Stored),
        "acked stored\n",
    )?;
    Ok(())
}

#[test]
fn prints_pages(rt: HostRuntime) -> Result<(), Fail> {
    let alloc = rt.alloc();
    let mut pages = Pages::new(alloc);
    pages.push(message(alloc, 12, "begin 3 7 a0b1 60 . normal 00ff")?)?;
    pages.push(message(alloc, 13, "begin 3 8 a0b1 60 . normal .")?)?;
    prints(&rt, alloc, Reply::Page(pages), "page 12:ff:00ff 13:ff:.\n")
}

#[test]
fn prints_users(rt: HostRuntime) -> Result<(), Fail> {
    let alloc = rt.alloc();
    let node = NodeId::new(2).ok_or(LineFault::Outside)?;
    let mut users = Users::new(alloc);
    users.push(Uaid(10), Some(node), 100)?;
    users.push(Uaid(11), None, 0)?;
    prints(&rt, alloc, Reply::Users(users), "users a:2:100 b:.:0\n")
}

#[test]
fn prints_counts(rt: HostRuntime) -> Result<(), Fail> {
    let alloc = rt.alloc();
    let counts = Counts {
        users: 1,
        stored: 2,
        held: 3,
        flights: 4,
        unsent: 5,
        orphans: 6,
        waiting: 7,
    };
    prints(
        &rt,
        alloc,
        Reply::Counts(counts),
        "report users 1 stored 2 held 3 flights 4 unsent 5 orphans 6 waiting 7\n",
    )
}

#[test]
fn prints_replies_of_one_word(rt: HostRuntime) -> Result<(), Fail> {
    let alloc = rt.alloc();
    prints(&rt, alloc, Reply::Made, "made\n")?;
    prints(&rt, alloc, Reply::Taken, "taken\n")?;
    prints(&rt, alloc, Reply::NodeDown, "nodedown\n")?;
    prints(&rt, alloc, Reply::TokenTaken, "tokentaken\n")?;
    prints(&rt, alloc, Reply::NoSession, "nosession\n")?;
    prints(&rt, alloc, Reply::NoFlight, "noflight\n")?;
    prints(&rt, alloc, Reply::NoToken, "notoken\n")?;
    prints(&rt, alloc, Reply::IdsSpent, "idsspent\n")?;
    prints(&rt, alloc, Reply::NotHere, "nothere\n")?;
    prints(&rt, alloc, Reply::Unknown, "unknown\n")?;
    prints(&rt, alloc, Reply::Done, "done\n")?;
    prints(&rt, alloc, Reply::NoUser, "nouser\n")?;
    prints(&rt, alloc, Reply::Renewed, "renewed\n")?;
    prints(&rt, alloc, Reply::Kept, "kept\n")?;
    prints(&rt, alloc, Reply::Cleared, "cleared\n")?;
    prints(&rt, alloc, Reply::AllSaved, "allsaved\n")?;
    prints(&rt, alloc, Reply::Dropped, "dropped\n")?;
    Ok(())
}

#[test]
fn prints_replies_of_savers_and_nodes(rt: HostRuntime) -> Result<(), Fail> {
    let alloc = rt.alloc();
    let node = NodeId::new(8).ok_or(LineFault::Outside)?;
    let id = MsgId {
        shard: 0,
        number: 12,
    };
    prints(&rt, alloc, Reply::Outrun(300), "outrun 300\n")?;
    prints(
        &rt,
        alloc,
        Reply::Moved(Stage::Clear(node, 100)),
        "moved clear\n",
    )?;
    prints(
        &rt,
        alloc,
        Reply::Acked(AckedFrom::Direct),
        "acked direct\n",
    )?;
    prints(&rt, alloc, Reply::Stale(300), "stale 300\n")?;
    prints(&rt, alloc, Reply::Claimed(None), "claimed .\n")?;
    prints(&rt, alloc, Reply::Claimed(Some(node)), "claimed 8\n")?;
    prints(&rt, alloc, Reply::Saving(500), "saving 500\n")?;
    prints(&rt, alloc, Reply::Saved(id), "saved 12\n")?;
    prints(
        &rt,
        alloc,
        Reply::Left(id, Reason::Channel),
        "left 12 channel\n",
    )?;
    prints(&rt, alloc, Reply::Left(id, Reason::Zero), "left 12 zero\n")?;
    prints(
        &rt,
        alloc,
        Reply::Left(id, Reason::Expired),
        "left 12 expired\n",
    )?;
    prints(
        &rt,
        alloc,
        Reply::Left(id, Reason::Replaced),
        "left 12 replaced\n",
    )?;
    prints(&rt, alloc, Reply::Killed(2, 1), "killed 2 1\n")?;
    Ok(())
}

#[test]
fn prints_stages(rt: HostRuntime) -> Result<(), Fail> {
    let alloc = rt.alloc();
    let node = NodeId::new(1).ok_or(LineFault::Outside)?;
    for (stage, line) in [
        (Stage::Direct(node, 100), "stage direct\n"),
        (Stage::Store, "stage store\n"),
        (Stage::Reread, "stage reread\n"),
        (Stage::Nudge(node, 100), "stage nudge\n"),
        (Stage::ToldNudge(true, node, 100), "stage toldnudge\n"),
        (Stage::Clear(node, 100), "stage clear\n"),
        (Stage::Saving, "stage saving\n"),
        (Stage::Idle, "stage idle\n"),
        (Stage::Topic, "stage topic\n"),
        (Stage::Plain, "stage plain\n"),
        (Stage::Displaced, "stage displaced\n"),
    ] {
        assert_eq!(rt; print_reply(alloc, &Reply::Stage(stage))?.as_str(), line);
    }
    Ok(())
}
