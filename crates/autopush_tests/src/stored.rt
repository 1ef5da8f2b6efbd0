//! Schedules of the stored path.

use crate::support::{OPENED, OPENING, replay_words};
use autopush_main::autopush_replay;
use push_outside::{SureSink, SureSource};
use std::alloc::{AllocError, Global};
use std::fmt::Write;
use std::process::Abort;
use std::test::Fail;

// Replays the opening and the schedule, and compares all that was written.
fn replay(rt: &impl Abort, alloc: Global, schedule: &str, written: &str) -> Result<(), Fail> {
    let words = replay_words(alloc)?;
    let lines = format!(in alloc; "{OPENING}{schedule}")?;
    let mut input = SureSource::new(Vec::from_slice(alloc, lines.as_bytes())?);
    let mut output = SureSink::new(alloc);
    assert_eq!(rt; autopush_replay(alloc, &words, &mut input, &mut output), 0);
    let all = format!(in alloc; "{OPENED}{written}")?;
    assert!(rt;
        output.bytes() == all.as_bytes(),
        "what is written by {schedule}"
    );
    Ok(())
}

// Stored messages, each routed to its end.
fn store_messages(
    schedule: &mut String,
    written: &mut String,
    count: u32,
) -> Result<(), AllocError> {
    for k in 1..=count {
        write!(
            schedule,
            "begin 1 {k} 1ab 60 . normal .\nlost f 1 {k}\nstore 1 {k}\nreread f 1 {k}\nnudge f 1 {k}\nheard f 1 {k}\n"
        )?;
        write!(
            written,
            "begun {k} 1 100\nmoved store\nstored\nnames 1 100\nhere\nend 201\n"
        )?;
    }
    Ok(())
}

// A check that is due, its two pages, a check that isn't due, and the acknowledgements of all but nothing.
fn fetch_page(
    schedule: &mut String,
    written: &mut String,
    first: u32,
    last: u32,
) -> Result<(), AllocError> {
    schedule.push_str("check 1 1 100\ntopics 1 1 100\nplains 1 1 100\n")?;
    written.push_str("due\npage\npage")?;
    for id in first..=last {
        write!(written, " {id}:5:.")?;
    }
    written.push_str("\n")?;
    for id in first..=last {
        write!(schedule, "check 1 1 100\nack 1 1 100 5 {id}\n")?;
        written.push_str("notdue\nacked stored\n")?;
    }
    Ok(())
}

#[test]
fn pages_of_25_rows(rt: HostRuntime) -> Result<(), Fail> {
    let alloc = rt.alloc();
    let mut schedule = String::new(alloc);
    let mut written = String::new(alloc);
    store_messages(&mut schedule, &mut written, 25)?;
    fetch_page(&mut schedule, &mut written, 1, 10)?;
    fetch_page(&mut schedule, &mut written, 11, 20)?;
    fetch_page(&mut schedule, &mut written, 21, 25)?;
    schedule.push_str("check 1 1 100\nreport\n")?;
    written.push_str(
        "notdue\nreport users 1 stored 0 held 0 flights 0 unsent 0 orphans 0 waiting 0\n",
    )?;
    replay(&rt, alloc, schedule.as_str(), written.as_str())
}

#[test]
fn a_user_has_1000_rows(rt: HostRuntime) -> Result<(), Fail> {
    let alloc = rt.alloc();
    let mut schedule = String::new(alloc);
    let mut written = String::new(alloc);
    store_messages(&mut schedule, &mut written, 1000)?;
    schedule.push_str("begin 1 1001 1ab 60 . normal .\nlost f 1 1001\nstore 1 1001\nreport\n")?;
    written.push_str(
        "begun 1001 1 100\nmoved store\nend 503\nreport users 1 stored 1000 held 0 flights 0 unsent 1000 orphans 0 waiting 0\n",
    )?;
    replay(&rt, alloc, schedule.as_str(), written.as_str())
}
