//! Serves messages at one shard for `bench/front.py`. Its arguments are a kind, a word that goes with it, and how many messages
//! there are, 10,000,000 at most. It prints how many of them were answered 201, and ends with status 1 where that isn't each.
//!
//! Over HTTP, with bodies of 256 bytes, the second word is `short` or `long`, the length of the heads:
//!
//! - `direct`: the user has an attached session, to which the messages are given. A wire has 250 requests. Behind each wire the
//!   session takes all that it holds, ten messages a step, and acknowledges each, so that it never holds more than 250;
//! - `stored`: the user has no session, and all messages have one topic, so that each replaces the last. A wire has up to 1,000
//!   requests, as for the next two;
//! - `full`: as `stored`, where the user has 999 rows before, which are served the same way;
//! - `bytes`: as `stored`, where each read gives one byte.
//!
//! With the kind `core` the second word is `direct`, `stored` or `full`, and the steps that such requests make are made without
//! HTTP, in the same order, those of the session among them.
#![tactic(auto)]

mod front;
mod request;
mod scene;
mod sender;
mod steps;
mod user;

use front::Front;
use scene::Scene;
use std::alloc::Global;
use std::process::ExitCode;
use std::{env, io};
use steps::Steps;
use user::send_all;

// The most messages of one run.
const MOST: u64 = 10_000_000;

// How many of the messages are answered 201; none where a word is another, there are too many, or memory is missing.
fn answered(alloc: Global, kind: &str, word: &str, count: u64) -> Option<u64> {
    if count > MOST {
        return None;
    }
    if kind == "core" {
        return send_all(alloc, &mut Steps::new(alloc)?, Scene::of_word(word)?, count);
    }
    let is_long = match word {
        "short" => false,
        "long" => true,
        _ => return None,
    };
    let (scene, most) = match kind {
        "bytes" => ("stored", 1),
        _ => (kind, usize::MAX),
    };
    let mut front = Front::new(alloc, is_long, most)?;
    send_all(alloc, &mut front, Scene::of_word(scene)?, count)
}

// Whether there are three right words and each message was answered 201. How many were is printed.
fn is_served(rt: &HostRuntime) -> io::Result<bool> {
    let mut words = env::args(rt)?.skip(1);
    let (Some(kind), Some(word), Some(count)) = (words.next(), words.next(), words.next()) else {
        return Ok(false);
    };
    let count = count.parse::<u64>().unwrap_or(u64::MAX);
    let Some(answered) = answered(rt.alloc(), kind.as_str(), word.as_str(), count) else {
        return Ok(false);
    };
    println!(rt; "{answered}")?;
    Ok(answered == count)
}

fn main(rt: HostRuntime) -> io::Result<ExitCode> {
    Ok(ExitCode::from(u8::from(!is_served(&rt)?)))
}
