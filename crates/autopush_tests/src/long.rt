//! Schedules that reach a limit.

use crate::support::{OPENING, replay_words};
use autopush_main::autopush_replay;
use push_outside::{SureSink, SureSource};
use std::alloc::{AllocError, Global};
use std::fmt::Write;
use std::process::Abort;
use std::test::Fail;

// Replays the schedule, and compares the status and the last lines written.
fn ends(
    rt: &impl Abort,
    alloc: Global,
    schedule: &str,
    status: u8,
    last: &str,
) -> Result<(), Fail> {
    let words = replay_words(alloc)?;
    let mut input = SureSource::new(Vec::from_slice(alloc, schedule.as_bytes())?);
    let mut output = SureSink::new(alloc);
    assert_eq!(rt;
        autopush_replay(alloc, &words, &mut input, &mut output),
        status
    );
    assert!(rt;
        output.bytes().ends_with(last.as_bytes()),
        "the last line is {last}"
    );
    Ok(())
}

fn repeated(alloc: Global, piece: &str, times: u32) -> Result<String, AllocError> {
    let mut text = String::new(alloc);
    for _ in 0..times {
        text.push_str(piece)?;
    }
    Ok(text)
}

// Some messages on their way to the session, each without payload.
fn give_messages(schedule: &mut String, count: u32) -> Result<(), AllocError> {
    for k in 1..=count {
        write!(schedule, "begin 1 {k} 1ab 60 . normal .\ndirect 1 {k}\n")?;
    }
    Ok(())
}

#[test]
fn a_session_holds_500(rt: HostRuntime) -> Result<(), Fail> {
    let alloc = rt.alloc();
    let mut schedule = String::from_str(alloc, OPENING)?;
    give_messages(&mut schedule, 501)?;
    ends(
        &rt,
        alloc,
        schedule.as_str(),
        0,
        "begun 500 1 100\nhere\nbegun 501 1 100\nnothere\n",
    )?;
    schedule.push_str("heard f 1 501\nheard f 1 500\nreport\n")?;
    ends(
        &rt,
        alloc,
        schedule.as_str(),
        0,
        "nothere\nmoved store\nend 201\nreport users 1 stored 0 held 500 flights 500 unsent 0 orphans 0 waiting 0\n",
    )
}

#[test]
fn a_page_has_ten(rt: HostRuntime) -> Result<(), Fail> {
    let alloc = rt.alloc();
    let mut schedule = String::from_str(alloc, OPENING)?;
    give_messages(&mut schedule, 12)?;
    schedule.push_str("take 1 1 100\ntake 1 1 100\ntake 1 1 100\n")?;
    ends(
        &rt,
        alloc,
        schedule.as_str(),
        0,
        "page 1:5:. 2:5:. 3:5:. 4:5:. 5:5:. 6:5:. 7:5:. 8:5:. 9:5:. 10:5:.\npage 11:5:. 12:5:.\npage\n",
    )
}

#[test]
fn payloads(rt: HostRuntime) -> Result<(), Fail> {
    let alloc = rt.alloc();
    for (bytes, status) in [(1, 0), (4096, 0), (4097, 4)] {
        let payload = repeated(alloc, "a7", bytes)?;
        let payload = payload.as_str();
        let schedule = format!(in alloc;
            "{OPENING}begin 1 1 1ab 60 . normal {payload}\ndirect 1 1\ntake 1 1 100\n"
        )?;
        let last = if status == 0 {
            format!(in alloc; "page 1:5:{payload}\n")?
        } else {
            String::from_str(alloc, "refused line 4\n")?
        };
        ends(&rt, alloc, schedule.as_str(), status, last.as_str())?;
    }
    Ok(())
}

#[test]
fn lines_over_the_limit(rt: HostRuntime) -> Result<(), Fail> {
    let alloc = rt.alloc();
    for bytes in [16_383, 16_384, 16_385, 40_000] {
        let mut schedule = repeated(alloc, "x", bytes)?;
        ends(&rt, alloc, schedule.as_str(), 4, "refused line 1\n")?;
        schedule.push_str("\nreport\n")?;
        ends(&rt, alloc, schedule.as_str(), 4, "refused line 1\n")?;
    }
    Ok(())
}

#[test]
fn a_schedule_of_many_chunks(rt: HostRuntime) -> Result<(), Fail> {
    let alloc = rt.alloc();
    let lines = repeated(alloc, "take 1 1 100\n", 10_000)?;
    let mut schedule = String::from_str(alloc, OPENING)?;
    schedule.push_str(lines.as_str())?;
    schedule.push_str("report")?;
    ends(
        &rt,
        alloc,
        schedule.as_str(),
        0,
        "page\npage\nreport users 1 stored 0 held 0 flights 0 unsent 0 orphans 0 waiting 0\n",
    )
}
