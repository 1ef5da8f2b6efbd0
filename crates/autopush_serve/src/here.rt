//! The command over the ports, the threads, the clock and the draws of this machine.
ghost use Rattle.std.specs.Prelude.{◌≡◌, map, string_bytes};
ghost use Rattle.autopush_main.specs.Puts.{WritesAll, WrittenBy};
ghost use Rattle.autopush_serve.specs.Endings.{BlamesInput, BlamesOutput, Ends, IsOfWords};
ghost use Rattle.autopush_serve.specs.Messages.{IsQuiet, message};
ghost use Rattle.autopush_serve.specs.Statuses.{status_of};

use crate::command::{Ending, start_serve};
use crate::threads::{Loop, ThreadSpawner, start_thread};
use push_machine::{MachineClock, SeededDraw};
use push_outside::{Sink, Source};
use push_sockets::SocketPorts;
use std::alloc::Global;
use std::net::Ipv4Addr;
use std::sync::Wait;
use std::thread::Threads;

/// Does what the words say, as `start_serve` does, at the ports of 127.0.0.1, with a thread for each loop, this machine's clock, and
/// random bytes of a seed that the machine draws. `rt` and `machine` are both this process's runtime.
pub fn serve_here<R, I, K, M>(
    rt: R,
    machine: HostRuntime,
    alloc: Global,
    words: &[String],
    input: &mut I,
    output: &mut K,
    messages: &mut M,
) -> Ending
where
    R: Threads + Wait + Copy + Send + Sync + 'static,
    I: Source,
    K: Sink,
    M: Sink,
    ensures status { result.status ≡ status_of result.ended }

    // By the words, and by the counts of its own ports and threads.
    ensures words { IsOfWords result.ended (map string_bytes words.now) }

    // What was read and written, and what broke off.
    ensures ends { Ends result.ended (I.left input.old) (I.left input.new) (K.written output.old) (K.written output.new) }
    ensures source { BlamesInput result.ended (I.faults input.old) (I.faults input.new) (I.lulls input.old) (I.lulls input.new) }
    ensures sink { BlamesOutput result.ended (K.faults output.old) (K.faults output.new) (K.lulls output.old) (K.lulls output.new) }

    // What was said.
    ensures message { WritesAll result.told (message result.ended) (M.written messages.old) (M.written messages.new) }
    ensures message_fault { WrittenBy result.told (M.faults messages.old) (M.faults messages.new) (M.lulls messages.old) (M.lulls messages.new) }
    ensures quiet { IsQuiet result.ended → messages.new ≡ messages.old }
{
    let clock = MachineClock::new(machine);
    let draw = SeededDraw::seeded(&machine);
    let mut ports = SocketPorts::new(alloc, machine, Ipv4Addr::LOCALHOST);
    let mut spawner = ThreadSpawner::new(rt, |job: Loop<R>| start_thread(rt, job));
    start_serve(
        rt,
        alloc,
        words,
        input,
        output,
        messages,
        &clock,
        draw,
        &mut ports,
        &mut spawner,
    )
}
