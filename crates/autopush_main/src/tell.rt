//! One line on how a command ended.
ghost use Rattle.std.specs.Prelude.{◌≡◌, ◌++◌, ◌∷◌, [], IfOk, codes, decimal, string_bytes};
ghost use Rattle.autopush_main.specs.Messages.{end_message, message, IsQuiet, IsQuietEnd};
ghost use Rattle.autopush_main.specs.Puts.{WritesAll, WrittenBy};

use crate::endings::{End, Ended, Fault, Refusal};
use crate::put::{Written, put_all};
use push_model::NoMemory;
use push_outside::Sink;
use std::alloc::Global;

const USAGE: &[u8] =
    b"autopush: usage: autopush replay < SCHEDULE, or autopush serve CONNECTIONS ENDPOINTS CONNECTION_PORT ENDPOINT_PORT\n";

const INPUT_FAILED: &[u8] = b"autopush: the input failed\n";

const INPUT_WAITED: &[u8] = b"autopush: the input waited too long\n";

const OUTPUT_FAILED: &[u8] = b"autopush: the output failed\n";

const OUTPUT_WAITED: &[u8] = b"autopush: the output waited too long\n";

const NO_MEMORY: &[u8] = b"autopush: memory ran out\n";

fn refusal_line(alloc: Global, refusal: Refusal) -> Result<String, NoMemory>
    ensures { IfOk result (λ text. string_bytes text ≡ end_message (End.Refused refusal)) }
{
    let line = refusal.line;
    let cause = refusal.cause;
    match format!(in alloc; "autopush: line {line}: {cause}\n") {
        Ok(text) => Ok(text),
        Err(_) => Err(NoMemory),
    }
}

// The line of a refusal wants memory.
fn tell_refusal<M: Sink>(alloc: Global, messages: &mut M, refusal: Refusal) -> Written
    ensures bytes { WritesAll result (end_message (End.Refused refusal)) (M.written messages.old) (M.written messages.new) }
    ensures cause { WrittenBy result (M.faults messages.old) (M.faults messages.new) (M.lulls messages.old) (M.lulls messages.new) }
{
    match refusal_line(alloc, refusal) {
        Ok(text) => put_all(messages, text.as_bytes()),
        Err(_) => Written::NoMemory,
    }
}

fn tell_end<M: Sink>(alloc: Global, messages: &mut M, end: End) -> Written
    ensures bytes { WritesAll result (end_message end) (M.written messages.old) (M.written messages.new) }
    ensures cause { WrittenBy result (M.faults messages.old) (M.faults messages.new) (M.lulls messages.old) (M.lulls messages.new) }
    ensures quiet { IsQuietEnd end → messages.new ≡ messages.old }
{
    match end {
        End::Done => Written::All,
        End::Refused(refusal) => tell_refusal(alloc, messages, refusal),
        End::ReadFault(Fault::Failed) => put_all(messages, INPUT_FAILED),
        End::ReadFault(Fault::Waited) => put_all(messages, INPUT_WAITED),
        End::WriteFault(Fault::Failed) => put_all(messages, OUTPUT_FAILED),
        End::WriteFault(Fault::Waited) => put_all(messages, OUTPUT_WAITED),
        End::NoMemory => put_all(messages, NO_MEMORY),
    }
}

/// Says how a command ended: nothing where all was answered, else one line. Only that of a refused line wants memory.
pub fn tell<M: Sink>(alloc: Global, messages: &mut M, ended: Ended) -> Written
    ensures bytes { WritesAll result (message ended) (M.written messages.old) (M.written messages.new) }
    ensures cause { WrittenBy result (M.faults messages.old) (M.faults messages.new) (M.lulls messages.old) (M.lulls messages.new) }
    ensures quiet { IsQuiet ended → messages.new ≡ messages.old }
{
    match ended {
        Ended::WrongWords => put_all(messages, USAGE),
        Ended::NoWords => put_all(messages, NO_MEMORY),
        Ended::Replayed(end) => tell_end(alloc, messages, end),
    }
}
