//! The whole of control.
ghost use Rattle.std.specs.Prelude.{◌≡◌, ◌⊎◌, ◌==◌, [], ◌∷◌, ℕ, List, Option, IfSome, IsTrue};
ghost use Rattle.std.specs.List.{list_any};
ghost use Rattle.std.specs.Io.KnownBytes.{Consumes};
ghost use Rattle.push_model.specs.DeskViews.{DeskView};
ghost use Rattle.autopush_main.specs.Known.{HasCause, NoFault};
ghost use Rattle.node_control.specs.Controls.{BlamesInput, BlamesOutput, Controls, IsBroken, IsCut, IsOver};
ghost use Rattle.node_control.specs.Steps.{Goes};

use crate::answers::answer_line;
use crate::bytes::take_bytes;
use crate::ends::ControlEnd;
use crate::fronts::LineFront;
use autopush_main::{Chunk, read_chunk};
use push_model::Desks;
use push_outside::{Sink, Source};
use std::alloc::Global;
use std::sync::Wait;

/// The bytes of one read.
const CHUNK: usize = 64;

// Answers the last line, if there is one. No LF ended it.
fn finish<D: Desks, K: Sink>(
    alloc: Global,
    desks: &mut D,
    output: &mut K,
    front: &LineFront,
) -> ControlEnd
    ensures controls { (before after held : Option (List ℕ)) (a : DeskView) (read : List ℕ) → Goes a (D.view desks.old) held (K.written output.old) read front.now → Consumes before after read → IfSome before (λ all. all ≡ read) → Controls result before after held (K.written output.new) a (D.view desks.new) }
    ensures source { (f g l m : ℕ) → NoFault f g l m → BlamesInput result f g l m }
    ensures sink { BlamesOutput result (K.faults output.old) (K.faults output.new) (K.lulls output.old) (K.lulls output.new) }
{
    if front.is_empty() {
        return ControlEnd::Done;
    }
    match answer_line(alloc, desks, output, front.bytes()) {
        None => ControlEnd::Done,
        Some(end) => end,
    }
}

/// The same as `control`, and says how it ended, from which the status follows.
pub fn run_control<R: Wait, D: Desks, I: Source, K: Sink>(
    rt: &R,
    alloc: Global,
    desks: &mut D,
    input: &mut I,
    output: &mut K,
) -> ControlEnd
    ensures controls { Controls result (I.left input.old) (I.left input.new) (K.written output.old) (K.written output.new) (D.view desks.old) (D.view desks.new) }
    ensures source { BlamesInput result (I.faults input.old) (I.faults input.new) (I.lulls input.old) (I.lulls input.new) }
    ensures sink { BlamesOutput result (K.faults output.old) (K.faults output.new) (K.lulls output.old) (K.lulls output.new) }
{
    let mut front = LineFront::new();
    for _ in rt.forever() {
        let mut room = [0; CHUNK];
        match read_chunk(input, &mut room) {
            Chunk::Bytes(count) => {
                if let Some(end) = take_bytes(alloc, desks, output, &mut front, &room[..count]) {
                    return end;
                }
            }
            Chunk::End => return finish(alloc, desks, output, &front),
            Chunk::Lost(fault) => return ControlEnd::ReadFault(fault),
        }
    }
    unreachable!()
}

/// Reads control lines, does what each asks for on every shard of the desks, and writes its answer before the next line is read,
/// until the line `stop` or the end of the input. The answer is the exit status:
/// - 0: `stop` came, or all of the input was read, and each line was answered;
/// - 5: the source's count of faults rose, or it had nothing 1,000,000,000 times in a row; each line that was whole was answered;
/// - 6: the sink's count of faults rose, or it took nothing 1,000,000,000 times in a row; the answers to all earlier lines were
///   written whole, and a front of the last one;
/// - 7: memory ran out for an answer; what was written is such a text.
///
/// A line is ended by LF, which the last one needn't have. N is a node, from 1 to 8:
/// - `kill N` makes Kill(N) on each shard, is answered `killed H O` with the sums of what was held and of the rows that are new
///   orphans, and then each shard is swept;
/// - `up N` makes Up(N) on each shard, and is answered `done`;
/// - `report` sweeps each shard, makes Report on each, and is answered by the line of the sums, which ends with ` waiting 0` where the
///   desks are honest;
/// - any other line, of whatever length, is answered `unknown`, and makes nothing.
///
/// A sweep that wants memory is left at that place. No other step is made. Of a line no more is kept than 7 bytes.
///
/// It may wait where the desks do, and it reads for as long as there are lines.
pub fn control<R: Wait, D: Desks, I: Source, K: Sink>(
    rt: &R,
    alloc: Global,
    desks: &mut D,
    input: &mut I,
    output: &mut K,
) -> u8
    // There are no other statuses.
    ensures known { IsTrue (list_any (λ s. s == result) (0 ∷ 5 ∷ 6 ∷ 7 ∷ [])) }

    // What was read, made and written.
    ensures over { result ≡ 0 → IsOver (I.left input.old) (I.left input.new) (K.written output.old) (K.written output.new) (D.view desks.old) (D.view desks.new) }
    ensures broken { result ≡ 5 → IsBroken (I.left input.old) (I.left input.new) (K.written output.old) (K.written output.new) (D.view desks.old) (D.view desks.new) }
    ensures cut { (result ≡ 6) ⊎ (result ≡ 7) → IsCut (I.left input.old) (I.left input.new) (K.written output.old) (K.written output.new) (D.view desks.old) (D.view desks.new) }

    // A fault of the source ends it with 5 and comes at no other status, and so does one of the sink with 6.
    ensures read_fault { result ≡ 5 → HasCause (I.faults input.old) (I.faults input.new) (I.lulls input.old) (I.lulls input.new) }
    ensures no_read_fault { ¬ (result ≡ 5) → NoFault (I.faults input.old) (I.faults input.new) (I.lulls input.old) (I.lulls input.new) }
    ensures write_fault { result ≡ 6 → HasCause (K.faults output.old) (K.faults output.new) (K.lulls output.old) (K.lulls output.new) }
    ensures no_write_fault { ¬ (result ≡ 6) → NoFault (K.faults output.old) (K.faults output.new) (K.lulls output.old) (K.lulls output.new) }
{
    match run_control(rt, alloc, desks, input, output) {
        ControlEnd::Done => 0,
        ControlEnd::ReadFault(_) => 5,
        ControlEnd::WriteFault(_) => 6,
        ControlEnd::NoMemory => 7,
    }
}
