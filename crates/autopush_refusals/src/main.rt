//! What `autopush replay` does, whatever the words, for a stored run that ends with another status than 0. The message goes
//! to standard output too, behind the replies, so that the run compares it.
#![tactic(auto)]

use autopush_main::{WordsFault, start};
use push_outside::{Reading, Writing};
use std::alloc::{AllocError, Global};
use std::io;
use std::process::ExitCode;

fn replay_words(alloc: Global) -> Result<Vec<String>, AllocError> {
    let mut words = Vec::new(alloc);
    words.push(String::from_str(alloc, "replay")?)?;
    Ok(words)
}

fn main(rt: HostRuntime) -> ExitCode {
    let alloc = rt.alloc();
    let words = replay_words(alloc).map_err(|_| WordsFault::NoMemory);
    let mut input = Reading::new(rt.reader());
    let mut output = Writing::new(io::writer(&rt));
    let mut messages = Writing::new(io::writer(&rt));
    let ending = start(alloc, &words, &mut input, &mut output, &mut messages);
    ExitCode::from(ending.status)
}
