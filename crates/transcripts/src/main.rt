//! The command `transcripts FILE ..`: it replays the transcripts of each file, and says which came out otherwise than
//! they are written down.
#![tactic(auto)]

mod transcript;

use autopush_main::{WordsFault, start};
use push_outside::{SureSink, SureSource};
use std::alloc::{AllocError, Global};
use std::process::ExitCode;
use std::{env, fs, io};
use transcript::{Outcome, Transcript, read_transcript};

/// Some transcript came out otherwise.
const OTHERWISE: u8 = 1;

// replays what the transcript sends
fn replay(alloc: Global, transcript: &Transcript) -> Result<Outcome, AllocError> {
    let mut words = Vec::new(alloc);
    words.push(String::from_str(alloc, "replay")?)?;
    let mut input = SureSource::new(Vec::from_slice(alloc, transcript.sent.as_str().as_bytes())?);
    let mut output = SureSink::new(alloc);
    let mut messages = SureSink::new(alloc);
    let words: Result<Vec<String>, WordsFault> = Ok(words);
    let ending = start(alloc, &words, &mut input, &mut output, &mut messages);
    Ok(Outcome {
        status: ending.status,
        written: Vec::from_slice(alloc, output.bytes())?,
        said: Vec::from_slice(alloc, messages.bytes())?,
    })
}

// replays one transcript of the file, and says whether it came out as it is written down
fn is_so(rt: &HostRuntime, name: &str, transcript: &Transcript) -> io::Result<bool> {
    let alloc = rt.alloc();
    let outcome = replay(alloc, transcript)?;
    let so = transcript.came_out(&outcome);
    if !so {
        let status = outcome.status;
        let written = String::from_utf8_lossy(alloc, &outcome.written)?;
        let said = String::from_utf8_lossy(alloc, &outcome.said)?;
        println!(rt; "otherwise: {name}\n{written}{said}= {status}")?;
    }
    Ok(so)
}

// replays the transcripts of the file behind its opening, and says whether all came out as they are written down
fn replay_file(rt: &HostRuntime, file: &str) -> io::Result<bool> {
    let alloc = rt.alloc();
    let text = fs::read_to_string(rt, file)?;
    let mut blocks = text.as_str().split("\n== ");
    let opening = read_transcript(alloc, &Transcript::new(alloc), blocks.next().unwrap_or(""))?;
    let mut replayed = 0u32;
    let mut otherwise = 0u32;
    for block in blocks {
        let (name, lines) = block.split_once('\n').unwrap_or((block, ""));
        let transcript = read_transcript(alloc, &opening, lines)?;
        replayed = replayed.saturating_add(1);
        if !is_so(rt, name, &transcript)? {
            otherwise = otherwise.saturating_add(1);
        }
    }
    println!(rt; "{file}: {replayed} replayed, {otherwise} otherwise")?;
    Ok(otherwise == 0)
}

// replays the transcripts of each file
fn replay_files(rt: &HostRuntime) -> io::Result<bool> {
    let mut so = true;
    for file in env::args(rt)?.skip(1) {
        so = replay_file(rt, file.as_str())? && so;
    }
    Ok(so)
}

fn main(rt: HostRuntime) -> io::Result<ExitCode> {
    if replay_files(&rt)? {
        Ok(ExitCode::from(0))
    } else {
        Ok(ExitCode::from(OTHERWISE))
    }
}
