//! What is said of how a command ended.

use autopush_main::{Fault, WordsFault, Written, start};
use push_outside::{ListSink, ListSource, Sink, Source, SureSink, SureSource};
use std::alloc::{AllocError, Global};
use std::process::Abort;
use std::test::Fail;

// The words of the command that replays.
fn replay_words(alloc: Global) -> Result<Vec<String>, AllocError> {
    let mut words = Vec::new(alloc);
    words.push(String::from_str(alloc, "replay")?)?;
    Ok(words)
}

fn first(alloc: Global) -> Result<Vec<u64>, AllocError> {
    Vec::from_slice(alloc, &[1])
}

// Replays, and compares the status and what is said.
fn says<I: Source, K: Sink>(
    rt: &impl Abort,
    alloc: Global,
    input: &mut I,
    output: &mut K,
    status: u8,
    said: &[u8],
) -> Result<(), Fail> {
    let words: Result<Vec<String>, WordsFault> = Ok(replay_words(alloc)?);
    let mut messages = SureSink::new(alloc);
    let ending = start(alloc, &words, input, output, &mut messages);
    assert_eq!(rt; ending.status, status);
    assert!(rt; messages.bytes() == said, "what is said at {status}");
    Ok(())
}

#[test]
fn streams_fail(rt: HostRuntime) -> Result<(), Fail> {
    let alloc = rt.alloc();
    let mut input = ListSource::new(Vec::new(alloc), first(alloc)?, Vec::new(alloc));
    let mut output = SureSink::new(alloc);
    says(
        &rt,
        alloc,
        &mut input,
        &mut output,
        5,
        b"autopush: the input failed\n",
    )?;
    let mut input = SureSource::new(Vec::from_slice(alloc, b"report\n")?);
    let mut output = ListSink::new(alloc, first(alloc)?, Vec::new(alloc));
    says(
        &rt,
        alloc,
        &mut input,
        &mut output,
        6,
        b"autopush: the output failed\n",
    )
}

#[test]
fn a_line_is_too_long(rt: HostRuntime) -> Result<(), Fail> {
    let alloc = rt.alloc();
    let mut bytes = Vec::from_slice(alloc, b"report\n")?;
    for _ in 0..16_385 {
        bytes.push(b'x')?;
    }
    let mut input = SureSource::new(bytes);
    let mut output = SureSink::new(alloc);
    let said = b"autopush: line 2: it has more than 16384 bytes\n";
    says(&rt, alloc, &mut input, &mut output, 4, said)
}

// What is said where there are no words.
fn says_without(
    rt: &impl Abort,
    alloc: Global,
    fault: WordsFault,
    status: u8,
    said: &[u8],
) -> Result<(), Fail> {
    let mut input = SureSource::new(Vec::from_slice(alloc, b"report\n")?);
    let mut output = SureSink::new(alloc);
    let mut messages = SureSink::new(alloc);
    let ending = start(alloc, &Err(fault), &mut input, &mut output, &mut messages);
    assert_eq!(rt; ending.status, status);
    assert_eq!(rt; output.bytes().len(), 0);
    assert!(rt; messages.bytes() == said, "what is said at {status}");
    Ok(())
}

#[test]
fn there_are_no_words(rt: HostRuntime) -> Result<(), Fail> {
    let alloc = rt.alloc();
    let usage =
        b"autopush: usage: autopush replay < SCHEDULE, or autopush serve CONNECTIONS ENDPOINTS CONNECTION_PORT ENDPOINT_PORT\n".as_slice();
    says_without(&rt, alloc, WordsFault::NotText, 2, usage)?;
    let no_memory = b"autopush: memory ran out\n".as_slice();
    says_without(&rt, alloc, WordsFault::NoMemory, 7, no_memory)
}

// Where the message can't be written the status stays, and where its sink takes nothing at first it is written whole.
#[test]
fn a_message_fails(rt: HostRuntime) -> Result<(), Fail> {
    let alloc = rt.alloc();
    let words: Result<Vec<String>, WordsFault> = Ok(replay_words(alloc)?);
    let line = b"autopush: line 1: word 1 names no kind of step\n".as_slice();
    for (failing, not_yet, told, said) in [
        (1, 2, Written::Lost(Fault::Failed), b"".as_slice()),
        (3, 1, Written::All, line),
    ] {
        let mut input = SureSource::new(Vec::from_slice(alloc, b"fly\n")?);
        let mut output = SureSink::new(alloc);
        let failing = Vec::from_slice(alloc, &[failing])?;
        let not_yet = Vec::from_slice(alloc, &[not_yet])?;
        let mut messages = ListSink::new(alloc, failing, not_yet);
        let ending = start(alloc, &words, &mut input, &mut output, &mut messages);
        assert_eq!(rt; ending.status, 4);
        assert!(rt; ending.told == told, "what was told");
        assert!(rt; messages.bytes() == said, "what is said");
    }
    Ok(())
}

// Other words are answered with the usage, and nothing is read.
#[test]
fn help_is_no_command(rt: HostRuntime) -> Result<(), Fail> {
    let alloc = rt.alloc();
    let mut words = Vec::new(alloc);
    words.push(String::from_str(alloc, "--help")?)?;
    let words: Result<Vec<String>, WordsFault> = Ok(words);
    let mut input = SureSource::new(Vec::from_slice(alloc, b"report\n")?);
    let mut output = SureSink::new(alloc);
    let mut messages = SureSink::new(alloc);
    let ending = start(alloc, &words, &mut input, &mut output, &mut messages);
    assert_eq!(rt; ending.status, 2);
    assert_eq!(rt; output.bytes().len(), 0);
    assert_eq!(rt; input.left(), b"report\n".as_slice());
    let usage =
        b"autopush: usage: autopush replay < SCHEDULE, or autopush serve CONNECTIONS ENDPOINTS CONNECTION_PORT ENDPOINT_PORT\n".as_slice();
    assert!(rt; messages.bytes() == usage, "the usage");
    Ok(())
}
