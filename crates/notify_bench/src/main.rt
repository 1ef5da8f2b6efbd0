//! Sends notifications for `bench/notify.py`. Its arguments are a kind, and how many.
//!
//! `direct`, `stored` and `one` send so many notifications to one session, whose client acknowledges each: ten in a round that
//! the session is given, ten that are stored, or one in a round. `core`, `core-stored` and `core-one` make the same steps on
//! the shard, without a session, a chat and texts. `idle` makes so many sessions over WebSockets in memory, which do nothing
//! more, and `cells` so many users with a channel and no session.
//!
//! It prints how many were sent and acknowledged; or how many were to be there, and are. The status is 1 where any is missing.
#![tactic(auto)]

mod bench;
mod browser;
mod idle;
mod mixed_draw;
mod notify;
mod still_wire;

use bench::Path;
use std::alloc::Global;
use std::env;
use std::process::ExitCode;

// Does what the words ask for. There is no answer where memory is missing, or the kind is none.
fn work(alloc: Global, kind: &str, count: u64) -> Option<(u64, u64)> {
    match kind {
        "direct" => notify::serve(alloc, Path::Direct, count, 10),
        "stored" => notify::serve(alloc, Path::Stored, count, 10),
        "one" => notify::serve(alloc, Path::Direct, count, 1),
        "core" => notify::step(alloc, Path::Direct, count, 10),
        "core-stored" => notify::step(alloc, Path::Stored, count, 10),
        "core-one" => notify::step(alloc, Path::Direct, count, 1),
        "idle" => idle::sessions(alloc, count),
        "cells" => idle::cells(alloc, count),
        _ => None,
    }
}

// The kind, and how many.
fn words(mut all: env::Args) -> Option<(String, u64)> {
    let _ = all.next();
    let kind = all.next()?;
    let count = all.next()?;
    Some((kind, count.parse::<u64>().ok()?))
}

fn main(rt: HostRuntime) -> ExitCode {
    let Some((kind, count)) = env::args(&rt).ok().and_then(words) else {
        return ExitCode::FAILURE;
    };
    let Some((made, finished)) = work(rt.alloc(), kind.as_str(), count) else {
        return ExitCode::FAILURE;
    };
    let printed = println!(&rt; "{made} {finished}");
    if printed.is_ok() && made == count && finished == count {
        ExitCode::SUCCESS
    } else {
        ExitCode::FAILURE
    }
}
