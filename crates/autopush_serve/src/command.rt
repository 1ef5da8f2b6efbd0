//! The whole command: its work, its status, and what is said of it.
ghost use Rattle.std.specs.Prelude.{◌≡◌, map, string_bytes};
ghost use Rattle.autopush_main.specs.Puts.{WritesAll, WrittenBy};
ghost use Rattle.autopush_serve.specs.Endings.{BlamesInput, BlamesOutput, BlamesPorts, BlamesSpawner, Ends, OfSeed, OfWords};
ghost use Rattle.autopush_serve.specs.Messages.{IsQuiet, message};
ghost use Rattle.autopush_serve.specs.Statuses.{status_of};

use crate::ended::Ended;
use crate::tell::tell;
use autopush_main::Written;
use node_runner::NodeJob;
use push_outside::{Clock, Draw, Sink, Source};
use push_ports::{Listener, Ports, Spawner};
use serve_run::serve;
use serve_words::read_serve;
use std::alloc::Global;
use std::sync::Wait;

/// What the command came to.
#[derive(Clone, Copy, Debug)]
pub struct Ending {
    /// The exit status.
    pub status: u8,
    /// How it ended.
    pub ended: Ended,
    /// Whether what was to be said of it was written.
    pub told: Written,
}

// Does what the words say.
fn work<R, I, K, C, G, N, S>(
    rt: R,
    alloc: Global,
    words: &[String],
    input: &mut I,
    output: &mut K,
    clock: &C,
    draw: Option<G>,
    ports: &mut N,
    spawner: &mut S,
) -> Ended
where
    R: Wait + Copy,
    I: Source,
    K: Sink,
    C: Clock + Copy + Drop,
    G: Draw + Drop,
    N: Ports,
    S: Spawner<NodeJob<R, <N::L as Listener>::B, N::L, C, G>>,
    S::Running: Drop,
    requires can { S.can_start spawner.old }
    ensures words { OfWords result (map string_bytes words.now) (N.given ports.old) (N.given ports.new) (S.started spawner.old) (S.started spawner.new) (S.joined spawner.old) (S.joined spawner.new) }
    ensures seed { OfSeed result draw }
    ensures ends { Ends result (I.left input.old) (I.left input.new) (K.written output.old) (K.written output.new) }
    ensures ports { BlamesPorts result (N.faults ports.old) (N.faults ports.new) }
    ensures spawner { BlamesSpawner result (S.faults spawner.old) (S.faults spawner.new) }
    ensures source { BlamesInput result (I.faults input.old) (I.faults input.new) (I.lulls input.old) (I.lulls input.new) }
    ensures sink { BlamesOutput result (K.faults output.old) (K.faults output.new) (K.lulls output.old) (K.lulls output.new) }
{
    let Some(plan) = read_serve(words) else {
        return Ended::WrongWords;
    };
    plan.is_plan();
    let Some(mut draw) = draw else {
        return Ended::NoSeed;
    };
    Ended::Served(serve(
        rt, alloc, &plan, input, output, clock, &mut draw, ports, spawner,
    ))
}

/// Does what the words say, which are those after the program's name, and then says in one line how it ended, where it didn't end
/// with status 0.
///
/// The words are `serve` and a plan, as `read_serve` reads them, or the status is 2. `draw` is where the nodes' random bytes come
/// from; without it the status is 12. For the rest it serves as `serve_run::serve` does until the operator's lines end. Nothing but
/// the answers to these lines is written to the output, and nothing but the message to its own sink: `specs/Messages` has its text.
///
/// It waits as long as the operator's lines last, and for its loops to end. A message that can't be written changes no status.
pub fn start_serve<R, I, K, M, C, G, N, S>(
    rt: R,
    alloc: Global,
    words: &[String],
    input: &mut I,
    output: &mut K,
    messages: &mut M,
    clock: &C,
    draw: Option<G>,
    ports: &mut N,
    spawner: &mut S,
) -> Ending
where
    R: Wait + Copy,
    I: Source,
    K: Sink,
    M: Sink,
    C: Clock + Copy + Drop,
    G: Draw + Drop,
    N: Ports,
    S: Spawner<NodeJob<R, <N::L as Listener>::B, N::L, C, G>>,
    S::Running: Drop,

    // Where it may start loops at all.
    requires can { S.can_start spawner.old }

    ensures status { result.status ≡ status_of result.ended }

    // 2 exactly where the words spell no plan, else 12 exactly where there is no draw; in both cases nothing is begun. Else the
    // ports and the loops are those of the plan.
    ensures words { OfWords result.ended (map string_bytes words.now) (N.given ports.old) (N.given ports.new) (S.started spawner.old) (S.started spawner.new) (S.joined spawner.old) (S.joined spawner.new) }
    ensures seed { OfSeed result.ended draw }

    // What was read and written: at status 0 the last two lines are the sums of sixteen worlds, each after a legal history.
    ensures ends { Ends result.ended (I.left input.old) (I.left input.new) (K.written output.old) (K.written output.new) }

    // What it blames.
    ensures ports { BlamesPorts result.ended (N.faults ports.old) (N.faults ports.new) }
    ensures spawner { BlamesSpawner result.ended (S.faults spawner.old) (S.faults spawner.new) }
    ensures source { BlamesInput result.ended (I.faults input.old) (I.faults input.new) (I.lulls input.old) (I.lulls input.new) }
    ensures sink { BlamesOutput result.ended (K.faults output.old) (K.faults output.new) (K.lulls output.old) (K.lulls output.new) }

    // What was said.
    ensures message { WritesAll result.told (message result.ended) (M.written messages.old) (M.written messages.new) }
    ensures message_fault { WrittenBy result.told (M.faults messages.old) (M.faults messages.new) (M.lulls messages.old) (M.lulls messages.new) }
    ensures quiet { IsQuiet result.ended → messages.new ≡ messages.old }
{
    let ended = work(rt, alloc, words, input, output, clock, draw, ports, spawner);
    let told = tell(messages, ended);
    Ending {
        status: ended.status(),
        ended,
        told,
    }
}
