//! The top call.
ghost use Rattle.std.specs.Prelude.{◌≡◌, ◌≤◌, ◌↔◌, ◌⊎◌, ◌==◌, [], ◌∷◌, map, codes, IsTrue, string_bytes};
ghost use Rattle.std.specs.List.{list_any};
ghost use Rattle.std.specs.Io.KnownBytes.{Keeps};
ghost use Rattle.autopush_main.specs.Known.{NoFault, HasCause};
ghost use Rattle.autopush_main.specs.Replay.{IsDone, IsRefusal, IsBroken, IsCut};
ghost use Rattle.autopush_main.specs.Endings.{OfWords, Ends, NotBegun, BlamesInput, BlamesOutput};

use crate::endings::{End, Ended};
use crate::run::run;
use push_outside::{Sink, Source};
use std::alloc::Global;

fn is_replay(words: &[String]) -> bool
    ensures { IsTrue result ↔ (map string_bytes words.now ≡ codes "replay" ∷ []) }
{
    match words {
        [word] => word.as_str() == "replay",
        _ => false,
    }
}

/// The same as `autopush_replay`, and says how it ended, from which the status follows.
pub fn replay<I: Source, K: Sink>(
    alloc: Global,
    words: &[String],
    input: &mut I,
    output: &mut K,
) -> Ended
    ensures words { OfWords result (map string_bytes words.now) }
    ensures ends { Ends result (I.left input.old) (I.left input.new) (K.written output.old) (K.written output.new) }
    ensures same_source { NotBegun result → input.new ≡ input.old }
    ensures same_sink { NotBegun result → output.new ≡ output.old }
    ensures source { BlamesInput result (I.faults input.old) (I.faults input.new) (I.lulls input.old) (I.lulls input.new) }
    ensures sink { BlamesOutput result (K.faults output.old) (K.faults output.new) (K.lulls output.old) (K.lulls output.new) }
{
    if !is_replay(words) {
        return Ended::WrongWords;
    }
    Ended::Replayed(run(alloc, input, output))
}

/// Replays a schedule: reads its lines from the input, makes the step of each on a shard from its start, and writes the
/// reply's line before it reads the next. The words are those after the program's name; there is the one word `replay`.
///
/// A line has at most 16,384 bytes and is ended by LF, which the last one needn't have; a schedule has at most 1,000,000
/// lines. It returns always, and its answer is the exit status:
/// - 0: all of the input was read, and each line answered;
/// - 2: exactly where the words aren't the one word `replay`; nothing is read or written;
/// - 4: a line is outside the grammar, or line 1,000,001 is there; the lines before it were answered, and the last line
///   written is `refused line L` with its number;
/// - 5: the source's count of faults rose, or it had nothing 1,000,000,000 times in a row; all lines that were whole
///   before were answered;
/// - 6: the sink's count of faults rose, or it took nothing 1,000,000,000 times in a row; the replies to all earlier lines
///   were written whole, and a front of the last one, or of `refused line L`;
/// - 7: memory ran out; what was written is such a text, or ends with a whole reply.
///
/// A fault ends the replay at once: at each status but 5 the source's count of faults is as it was, and at each but 6 the
/// sink's. No more than 1,000,000 lines are answered, whatever the status.
pub fn autopush_replay<I: Source, K: Sink>(
    alloc: Global,
    words: &[String],
    input: &mut I,
    output: &mut K,
) -> u8
    // 2 comes exactly where the words aren't the one word, and then nothing is called, read or written.
    ensures words { result ≡ 2 → ¬ (map string_bytes words.now ≡ codes "replay" ∷ []) }
    ensures wrong_words { ¬ (map string_bytes words.now ≡ codes "replay" ∷ []) → result ≡ 2 }
    ensures nothing_written { result ≡ 2 → Keeps (K.written output.old) (K.written output.new) }
    ensures nothing_read { result ≡ 2 → Keeps (I.left input.old) (I.left input.new) }
    ensures same_source { result ≡ 2 → input.new ≡ input.old }
    ensures same_sink { result ≡ 2 → output.new ≡ output.old }

    // There are no other statuses.
    ensures known { IsTrue (list_any (λ s. s == result) (0 ∷ 2 ∷ 4 ∷ 5 ∷ 6 ∷ 7 ∷ [])) }

    // What was read, and what was written.
    ensures done { result ≡ 0 → IsDone (I.left input.old) (I.left input.new) (K.written output.old) (K.written output.new) }
    ensures refused { result ≡ 4 → IsRefusal (I.left input.old) (I.left input.new) (K.written output.old) (K.written output.new) }
    ensures broken { result ≡ 5 → IsBroken (I.left input.old) (I.left input.new) (K.written output.old) (K.written output.new) }
    ensures cut { (result ≡ 6) ⊎ (result ≡ 7) → IsCut result (I.left input.old) (I.left input.new) (K.written output.old) (K.written output.new) }

    // A fault of the source ends the replay with 5 and comes at no other status, and so does one of the sink with 6.
    ensures read_fault { result ≡ 5 → HasCause (I.faults input.old) (I.faults input.new) (I.lulls input.old) (I.lulls input.new) }
    ensures no_read_fault { ¬ (result ≡ 5) → NoFault (I.faults input.old) (I.faults input.new) (I.lulls input.old) (I.lulls input.new) }
    ensures write_fault { result ≡ 6 → HasCause (K.faults output.old) (K.faults output.new) (K.lulls output.old) (K.lulls output.new) }
    ensures no_write_fault { ¬ (result ≡ 6) → NoFault (K.faults output.old) (K.faults output.new) (K.lulls output.old) (K.lulls output.new) }

    // The counts of faults never fall.
    ensures source_faults { I.faults input.old ≤ I.faults input.new }
    ensures sink_faults { K.faults output.old ≤ K.faults output.new }
{
    match replay(alloc, words, input, output) {
        Ended::WrongWords => 2,
        Ended::NoWords => 7,
        Ended::Replayed(End::Done) => 0,
        Ended::Replayed(End::Refused(_)) => 4,
        Ended::Replayed(End::ReadFault(_)) => 5,
        Ended::Replayed(End::WriteFault(_)) => 6,
        Ended::Replayed(End::NoMemory) => 7,
    }
}
