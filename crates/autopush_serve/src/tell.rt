//! One line on how the command ended.
ghost use Rattle.std.specs.Prelude.{◌≡◌};
ghost use Rattle.autopush_main.specs.Puts.{WritesAll, WrittenBy};
ghost use Rattle.autopush_serve.specs.Messages.{IsQuiet, message, serve_message};

use crate::ended::Ended;
use autopush_main::{Fault, Written, put_all};
use push_outside::Sink;
use serve_run::{Halt, ServeEnd};

const USAGE: &[u8] =
    b"autopush: usage: autopush replay < SCHEDULE, or autopush serve CONNECTIONS ENDPOINTS CONNECTION_PORT ENDPOINT_PORT\n";

const NO_SEED: &[u8] = b"autopush: the machine gave no random seed\n";

const NO_PORT: &[u8] = b"autopush: a port can't be listened at\n";

const NO_LOOP: &[u8] = b"autopush: a loop can't be started\n";

const INPUT_FAILED: &[u8] = b"autopush: the input failed\n";

const INPUT_WAITED: &[u8] = b"autopush: the input waited too long\n";

const OUTPUT_FAILED: &[u8] = b"autopush: the output failed\n";

const OUTPUT_WAITED: &[u8] = b"autopush: the output waited too long\n";

const NO_MEMORY: &[u8] = b"autopush: memory ran out\n";

fn tell_served<M: Sink>(messages: &mut M, end: ServeEnd) -> Written
    ensures bytes { WritesAll result (serve_message end) (M.written messages.old) (M.written messages.new) }
    ensures cause { WrittenBy result (M.faults messages.old) (M.faults messages.new) (M.lulls messages.old) (M.lulls messages.new) }
    ensures quiet { end ≡ ServeEnd.Done → messages.new ≡ messages.old }
{
    match end {
        ServeEnd::Done => Written::All,
        ServeEnd::Halted(Halt::Port) => put_all(messages, NO_PORT),
        ServeEnd::Halted(Halt::Loop) => put_all(messages, NO_LOOP),
        ServeEnd::Halted(Halt::NoMemory) | ServeEnd::NoMemory => put_all(messages, NO_MEMORY),
        ServeEnd::ReadFault(Fault::Failed) => put_all(messages, INPUT_FAILED),
        ServeEnd::ReadFault(Fault::Waited) => put_all(messages, INPUT_WAITED),
        ServeEnd::WriteFault(Fault::Failed) => put_all(messages, OUTPUT_FAILED),
        ServeEnd::WriteFault(Fault::Waited) => put_all(messages, OUTPUT_WAITED),
    }
}

/// Says how the command ended: nothing where all was told, else one line. It wants no memory.
pub fn tell<M: Sink>(messages: &mut M, ended: Ended) -> Written
    ensures bytes { WritesAll result (message ended) (M.written messages.old) (M.written messages.new) }
    ensures cause { WrittenBy result (M.faults messages.old) (M.faults messages.new) (M.lulls messages.old) (M.lulls messages.new) }
    ensures quiet { IsQuiet ended → messages.new ≡ messages.old }
{
    match ended {
        Ended::WrongWords => put_all(messages, USAGE),
        Ended::NoSeed => put_all(messages, NO_SEED),
        Ended::Served(end) => tell_served(messages, end),
    }
}
