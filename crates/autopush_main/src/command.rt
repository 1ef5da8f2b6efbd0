//! A whole command: its work, its status, and what is said of it.
ghost use Rattle.std.specs.Prelude.{◌≡◌, map, string_bytes, MatchResult};
ghost use Rattle.autopush_main.specs.Endings.{OfWords, ended_without, Ends, NotBegun, BlamesInput, BlamesOutput};
ghost use Rattle.autopush_main.specs.Messages.{message, IsQuiet};
ghost use Rattle.autopush_main.specs.Puts.{WritesAll, WrittenBy};
ghost use Rattle.autopush_main.specs.Statuses.{status_of};

use crate::endings::{Ended, WordsFault};
use crate::put::Written;
use crate::tell::tell;
use crate::top::replay;
use push_outside::{Sink, Source};
use std::alloc::Global;

/// What a command came to.
#[derive(Clone, Copy, Debug)]
pub struct Ending {
    /// The exit status.
    pub status: u8,
    /// How it ended.
    pub ended: Ended,
    /// Whether what was to be said of it was written.
    pub told: Written,
}

// Does what the words say.
fn work<I: Source, K: Sink>(
    alloc: Global,
    words: &Result<Vec<String>, WordsFault>,
    input: &mut I,
    output: &mut K,
) -> Ended
    ensures words { MatchResult words.now (λ w. OfWords result (map string_bytes w.items)) (λ fault. result ≡ ended_without fault) }
    ensures ends { Ends result (I.left input.old) (I.left input.new) (K.written output.old) (K.written output.new) }
    ensures same_source { NotBegun result → input.new ≡ input.old }
    ensures same_sink { NotBegun result → output.new ≡ output.old }
    ensures source { BlamesInput result (I.faults input.old) (I.faults input.new) (I.lulls input.old) (I.lulls input.new) }
    ensures sink { BlamesOutput result (K.faults output.old) (K.faults output.new) (K.lulls output.old) (K.lulls output.new) }
{
    match words {
        Ok(words) => replay(alloc, words, input, output),
        Err(WordsFault::NotText) => Ended::WrongWords,
        Err(WordsFault::NoMemory) => Ended::NoWords,
    }
}

/// Does what the words say, which are those after the program's name, and then says in one line how it ended, where it
/// didn't end with status 0.
///
/// The words are the one word `replay`, or the status is 2; where there was no memory for them it is 7. For the rest the
/// status, what is read and what is written are those of `autopush_replay`. Nothing but the replies and the refusal's line
/// is written to the output, and nothing but the message to its own sink: `specs/Messages` has its text, which names the
/// refused line and what is wrong with it at status 4, and the cause at 5, 6 and 7.
///
/// A message is written whole, or a front of it where its sink fails, takes nothing 1,000,000,000 times in a row or has no
/// memory, as `told` says; the status stays the same. The message of a refused line wants memory, and without it nothing is
/// said; no other message wants any.
pub fn start<I: Source, K: Sink, M: Sink>(
    alloc: Global,
    words: &Result<Vec<String>, WordsFault>,
    input: &mut I,
    output: &mut K,
    messages: &mut M,
) -> Ending
    ensures status { result.status ≡ status_of result.ended }

    // It ends with 2 exactly where the words are others, or no text; then nothing is called of the source or of the sink.
    ensures words { MatchResult words.now (λ w. OfWords result.ended (map string_bytes w.items)) (λ fault. result.ended ≡ ended_without fault) }
    ensures same_source { NotBegun result.ended → input.new ≡ input.old }
    ensures same_sink { NotBegun result.ended → output.new ≡ output.old }

    // What was read and written, and what broke off.
    ensures ends { Ends result.ended (I.left input.old) (I.left input.new) (K.written output.old) (K.written output.new) }
    ensures source { BlamesInput result.ended (I.faults input.old) (I.faults input.new) (I.lulls input.old) (I.lulls input.new) }
    ensures sink { BlamesOutput result.ended (K.faults output.old) (K.faults output.new) (K.lulls output.old) (K.lulls output.new) }

    // What was said.
    ensures message { WritesAll result.told (message result.ended) (M.written messages.old) (M.written messages.new) }
    ensures message_fault { WrittenBy result.told (M.faults messages.old) (M.faults messages.new) (M.lulls messages.old) (M.lulls messages.new) }
    ensures quiet { IsQuiet result.ended → messages.new ≡ messages.old }
{
    let ended = work(alloc, words, input, output);
    let told = tell(alloc, messages, ended);
    Ending {
        status: ended.status(),
        ended,
        told,
    }
}
