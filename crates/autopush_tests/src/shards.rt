//! A shard, step by step, with ample memory.

use push_model::{Step, Tally};
use schedule_text::{print_reply, read_line};
use shard_core::Shard;
use std::alloc::Global;
use std::process::Abort;
use std::test::Fail;

// Makes the step, and compares the reply's line.
fn answers(
    rt: &impl Abort,
    alloc: Global,
    shard: &mut Shard,
    step: Step,
    line: &str,
) -> Result<(), Fail> {
    let reply = shard.step(alloc, step)?;
    let text = print_reply(alloc, &reply)?;
    assert_eq!(rt; text.as_str().trim_end(), line);
    Ok(())
}

// Makes the step of each line, and compares the reply's line, which stands behind a `>`.
fn all(rt: &impl Abort, alloc: Global, shard: &mut Shard, lines: &str) -> Result<(), Fail> {
    for entry in lines.lines() {
        let (line, wanted) = entry.split_once(" > ").ok_or("a line and its reply")?;
        answers(rt, alloc, shard, read_line(alloc, line.as_bytes())?, wanted)?;
    }
    Ok(())
}

const OPENED: &str = "create 1 1 100 > made
attach 1 1 100 > attached .
register 1 1 100 5 1ab > endpoint 1ab";

fn opened(rt: &impl Abort, alloc: Global) -> Result<Shard, Fail> {
    let mut shard = Shard::start(alloc, 0);
    all(rt, alloc, &mut shard, OPENED)?;
    Ok(shard)
}

const KINDS: &str = "begin 1 1 1ab 60 . normal 6869 > begun 1 1 100
direct 1 1 > here
heard f 1 1 > end 201
take 1 1 100 > page 1:5:6869
ack 1 1 100 5 1 > acked direct
begin 1 2 1ab 60 . normal 01 > begun 2 1 100
lost f 1 2 > moved store
store 1 2 > stored
report > report users 1 stored 1 held 0 flights 1 unsent 1 orphans 0 waiting 0
reread f 1 2 > names 1 100
nudge f 1 2 > here
heard f 1 2 > end 201
check 1 1 100 > due
topics 1 1 100 > page
plains 1 1 100 > page 2:5:01
ack 1 1 100 5 2 > acked stored
begin 1 3 1ab 60 . normal . > begun 3 1 100
giveup 1 3 > end 500
report > report users 1 stored 0 held 0 flights 0 unsent 0 orphans 0 waiting 0";

#[test]
fn direct_and_stored(rt: HostRuntime) -> Result<(), Fail> {
    let alloc = rt.alloc();
    let mut shard = opened(&rt, alloc)?;
    all(&rt, alloc, &mut shard, KINDS)?;
    let tally = Tally {
        begun: 3,
        ok: 2,
        refused: 1,
        stored: 1,
        shown: 2,
        acked: 2,
        saved: 0,
        left: 0,
        lost: 0,
    };
    assert_eq!(rt; shard.tally(), tally);
    Ok(())
}

const LEFT: &str = "claim 1 2 200 > claimed 1
attach 1 2 200 > attached .
begin 1 1 1ab 60 . normal 01 > begun 1 2 200
direct 1 1 > here
begin 1 2 1ab 0 . normal 02 > begun 2 2 200
direct 1 2 > here
begin 1 3 1ab 60 . normal 03 > begun 3 2 200
direct 1 3 > here
heard f 1 1 > end 201
heard f 1 2 > end 201
close 1 2 200 > saving 3
release 1 2 200 > cleared
save 1 2 200 > saved 1
save 1 2 200 > left 2 zero
begin 1 4 1ab 0 . normal . > begun 4 .
kill 2 > killed 1 1
unregister 1 1 100 5 > done
lost f 1 3 > moved store
store 1 3 > end 410
report > report users 1 stored 0 held 0 flights 0 unsent 0 orphans 0 waiting 0";

#[test]
fn saved_left_and_killed(rt: HostRuntime) -> Result<(), Fail> {
    let alloc = rt.alloc();
    let mut shard = opened(&rt, alloc)?;
    all(&rt, alloc, &mut shard, LEFT)?;
    let tally = Tally {
        begun: 4,
        ok: 3,
        refused: 1,
        stored: 0,
        shown: 0,
        acked: 0,
        saved: 1,
        left: 1,
        lost: 1,
    };
    assert_eq!(rt; shard.tally(), tally);
    Ok(())
}

const SPENT: &str = "begin 1 1 1ab 60 . normal . > begun 9223372036854775807 1 100
begin 1 1 1ab 60 . normal . > stage direct
begin 1 2 1ac 60 . normal . > notoken
begin 1 2 1ab 60 . normal . > idsspent
direct 1 1 > here
take 1 1 100 > page 9223372036854775807:5:.
ack 1 1 100 5 9223372036854775807 > acked direct";

#[test]
fn numbers_are_spent(rt: HostRuntime) -> Result<(), Fail> {
    let alloc = rt.alloc();
    let mut shard = Shard::start_at(alloc, 0, 9_223_372_036_854_775_807);
    all(&rt, alloc, &mut shard, OPENED)?;
    all(&rt, alloc, &mut shard, SPENT)?;
    assert_eq!(rt; shard.tally().begun, 1);
    Ok(())
}

const REPLACED: &str = "begin 1 1 1ab 60 t normal 01 > begun 1 1 100
lost f 1 1 > moved store
store 1 1 > stored
check 1 1 100 > due
topics 1 1 100 > page 1:5:01
plains 1 1 100 > page
begin 1 2 1ab 60 t normal 02 > begun 2 1 100
lost f 1 2 > moved store
store 1 2 > stored
ack 1 1 100 5 1 > acked stored
ack 1 1 100 5 1 > unknown
report > report users 1 stored 1 held 0 flights 2 unsent 1 orphans 0 waiting 0";

const LATE: &str = "begin 1 1 1ab 60 t normal 01 > begun 1 1 100
begin 1 2 1ab 60 t normal 02 > begun 2 1 100
lost f 1 2 > moved store
store 1 2 > stored
lost f 1 1 > moved store
store 1 1 > end 201
check 1 1 100 > due
topics 1 1 100 > page 2:5:02
report > report users 1 stored 1 held 0 flights 1 unsent 0 orphans 0 waiting 0";

const APART: &str = "register 1 1 100 6 2ab > endpoint 2ab
begin 1 1 1ab 60 t normal 01 > begun 1 1 100
lost f 1 1 > moved store
store 1 1 > stored
begin 1 2 2ab 60 t normal 02 > begun 2 1 100
lost f 1 2 > moved store
store 1 2 > stored
begin 1 3 1ab 60 t normal 03 > begun 3 1 100
lost f 1 3 > moved store
store 1 3 > stored
report > report users 1 stored 2 held 0 flights 3 unsent 2 orphans 0 waiting 0
check 1 1 100 > due
topics 1 1 100 > page 2:6:02 3:5:03";

const ZERO: &str = "begin 1 1 1ab 0 . normal 01 > begun 1 1 100
direct 1 1 > here
heard f 1 1 > end 201
take 1 1 100 > page 1:5:01
ack 1 1 100 5 1 > acked direct
begin 1 2 1ab 0 . normal . > begun 2 1 100
lost f 1 2 > end 201
store 1 2 > noflight
report > report users 1 stored 0 held 0 flights 0 unsent 0 orphans 0 waiting 0";

#[test]
fn topics_and_ttl_0(rt: HostRuntime) -> Result<(), Fail> {
    let alloc = rt.alloc();
    for lines in [REPLACED, LATE, APART, ZERO] {
        let mut shard = opened(&rt, alloc)?;
        all(&rt, alloc, &mut shard, lines)?;
    }
    Ok(())
}

const SECOND: &str = "create 2 2 100 > made
attach 2 2 100 > attached .
register 2 2 100 5 1ab > tokentaken
register 2 2 100 5 2ab > endpoint 2ab
report > report users 2 stored 0 held 0 flights 0 unsent 0 orphans 0 waiting 0
begin 1 1 2ab 60 . normal . > begun 1 2 100
lost f 1 1 > moved store
store 1 1 > stored
reread f 1 1 > names 2 100
lost f 1 1 > moved clear
report > report users 2 stored 1 held 0 flights 1 unsent 1 orphans 0 waiting 0
take 1 1 100 > page";

#[test]
fn two_users(rt: HostRuntime) -> Result<(), Fail> {
    let alloc = rt.alloc();
    let mut shard = opened(&rt, alloc)?;
    all(&rt, alloc, &mut shard, SECOND)
}

const LISTED: &str = "create 2 2 100 > made
attach 2 2 100 > attached .
begin 1 1 1ab 60 . normal 01 > begun 1 1 100
lost f 1 1 > moved store
store 1 1 > stored
orphans > users
kill 2 > killed 0 0
attach 2 2 100 > nodedown
up 2 > done
idle > users
tick 5184000 > done
report > report users 2 stored 0 held 0 flights 1 unsent 0 orphans 0 waiting 0
idle > users 2:2:100
expire 1 > kept
expire 2 > dropped
idle > users";

#[test]
fn users_are_listed(rt: HostRuntime) -> Result<(), Fail> {
    let alloc = rt.alloc();
    let mut shard = opened(&rt, alloc)?;
    all(&rt, alloc, &mut shard, LISTED)
}
