//! One line of a schedule: it is read, its step is made, and its reply is written.
ghost use Rattle.std.specs.Prelude.{◌≡◌, ℕ, ◌≤◌, ◌<◌, ◌+◌, ◌⊎◌, List, IfOk, OnOk, OnErr, length, string_bytes};
ghost use Rattle.push_model.specs.Steps.{step};
ghost use Rattle.schedule_text.specs.Replies.{reply_line};
ghost use Rattle.autopush_main.specs.Replay.{refusal};
ghost use Rattle.autopush_main.specs.Refusals.{IsWhy};
ghost use Rattle.autopush_main.specs.Turns.{Answers, DoesLine, DoesLast, Turns, Blames, BlamesSink, BlamesSource, RefusesBy};

use crate::endings::{Cause, End, Refusal};
use crate::pending::{Next, Pending, next_line};
use crate::put::{Written, put_all};
use push_model::{NoMemory, Step};
use push_outside::{Sink, Source};
use schedule_text::{LineFault, ReplyLine, read_line, what_is_wrong};
use shard_core::Shard;
use std::alloc::Global;

/// The most lines of a schedule.
pub const LINES: u32 = 1_000_000;

// Makes the step, and prints the line of its reply.
fn make(
    alloc: Global,
    shard: &mut Shard,
    asked: Step,
    reply: &mut ReplyLine,
) -> Result<(), NoMemory>
    ensures ok { OnOk result ((shard.new ≡ (step shard.old asked).0) × (reply.new ≡ reply_line (step shard.old asked).1)) }
    ensures err { OnErr result ((shard.new ≡ shard.old) ⊎ (shard.new ≡ (step shard.old asked).0)) }
{
    match &shard.step(alloc, asked) {
        Ok(made) => reply.print(alloc, made),
        Err(NoMemory) => Err(NoMemory),
    }
}

// Makes the step of the line, and prints the line of its reply.
fn answer(
    alloc: Global,
    shard: &mut Shard,
    line: &[u8],
    reply: &mut ReplyLine,
) -> Result<(), LineFault>
    requires { length line.now ≤ 16384 }
    ensures { Answers result line.now shard.old shard.new reply.new }
{
    let step = read_line(alloc, line)?;
    match make(alloc, shard, step, reply) {
        Ok(()) => Ok(()),
        Err(NoMemory) => Err(LineFault::NoMemory),
    }
}

fn refusal_text(alloc: Global, number: u32) -> Result<String, NoMemory>
    ensures { IfOk result (λ text. string_bytes text ≡ refusal number) }
{
    match format!(in alloc; "refused line {number}\n") {
        Ok(text) => Ok(text),
        Err(_) => Err(NoMemory),
    }
}

// Why a line over the limit is refused that stands behind so many others.
fn why_long(count: u32) -> Cause
    requires { count ≤ 1000000 }
    ensures { (line : List ℕ) → 16384 < length line → IsWhy result line count }
{
    if count < LINES {
        Cause::TooLong
    } else {
        Cause::TooMany
    }
}

// Names the refused line, which stands behind so many others.
fn refuse<K: Sink>(alloc: Global, output: &mut K, count: u32, why: Cause) -> End
    requires { count ≤ 1000000 }
    ensures written { RefusesBy result why count (K.written output.old) (K.written output.new) }
    ensures cause { BlamesSink result (K.faults output.old) (K.faults output.new) (K.lulls output.old) (K.lulls output.new) }
{
    let Ok(text) = refusal_text(alloc, count + 1) else {
        return End::NoMemory;
    };
    match put_all(output, text.as_bytes()) {
        Written::All => End::Refused(Refusal {
            line: count + 1,
            cause: why,
        }),
        Written::Lost(fault) => End::WriteFault(fault),
        Written::NoMemory => End::NoMemory,
    }
}

// Answers a line that stands behind so many others, or says how the replay ends.
fn do_line<K: Sink>(
    alloc: Global,
    shard: &mut Shard,
    output: &mut K,
    line: &[u8],
    reply: &mut ReplyLine,
    count: u32,
) -> Option<End>
    requires count { count ≤ 1000000 }
    requires short { length line.now ≤ 16384 }
    ensures done { DoesLine result line.now count shard.old shard.new (K.written output.old) (K.written output.new) }
    ensures cause { Blames result (K.faults output.old) (K.faults output.new) (K.lulls output.old) (K.lulls output.new) }
{
    if count == LINES {
        return Some(refuse(alloc, output, count, Cause::TooMany));
    }
    match answer(alloc, shard, line, reply) {
        Ok(()) => match put_all(output, reply.bytes()) {
            Written::All => None,
            Written::Lost(fault) => Some(End::WriteFault(fault)),
            Written::NoMemory => Some(End::NoMemory),
        },
        Err(LineFault::Outside) => {
            let why = Cause::NoStep(what_is_wrong(line));
            Some(refuse(alloc, output, count, why))
        }
        Err(LineFault::NoMemory) => Some(End::NoMemory),
    }
}

// Answers the last line, if there is one.
fn finish<K: Sink>(
    alloc: Global,
    shard: &mut Shard,
    output: &mut K,
    line: &[u8],
    reply: &mut ReplyLine,
    count: u32,
) -> Option<End>
    requires count { count ≤ 1000000 }
    requires short { length line.now ≤ 16384 }
    ensures done { DoesLast result line.now count shard.old shard.new (K.written output.old) (K.written output.new) }
    ensures cause { Blames result (K.faults output.old) (K.faults output.new) (K.lulls output.old) (K.lulls output.new) }
{
    if line.is_empty() {
        return Some(End::Done);
    }
    match do_line(alloc, shard, output, line, reply, count) {
        None => Some(End::Done),
        end => end,
    }
}

/// Answers the next line of the input, which stands behind so many others, or says how the replay ends.
pub fn turn<I: Source, K: Sink>(
    alloc: Global,
    shard: &mut Shard,
    input: &mut I,
    output: &mut K,
    pending: &mut Pending,
    reply: &mut ReplyLine,
    count: u32,
) -> Option<End>
    requires { count ≤ 1000000 }
    ensures turns { Turns result (I.left input.old) (I.left input.new) pending.old pending.new count shard.old shard.new (K.written output.old) (K.written output.new) }
    ensures source { BlamesSource result (I.faults input.old) (I.faults input.new) (I.lulls input.old) (I.lulls input.new) }
    ensures sink { Blames result (K.faults output.old) (K.faults output.new) (K.lulls output.old) (K.lulls output.new) }
{
    match next_line(input, pending) {
        Next::Line(n) => {
            let line = &pending.bytes()[..n];
            let end = do_line(alloc, shard, output, line, reply, count);
            pending.skip(n + 1);
            end
        }
        Next::End => finish(alloc, shard, output, pending.bytes(), reply, count),
        Next::TooLong => Some(refuse(alloc, output, count, why_long(count))),
        Next::Lost(fault) => Some(End::ReadFault(fault)),
        Next::NoMemory => Some(End::NoMemory),
    }
}
