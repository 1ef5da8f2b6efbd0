//! The step of a line.
ghost use Rattle.std.specs.Prelude.{◌≡◌, IfOk, Some};
ghost use Rattle.push_model.specs.declared.step.Step.{Step};
ghost use Rattle.schedule_text.specs.Spelling.{spell, InRange};
ghost use Rattle.schedule_text.specs.Reading.{Gives, line_at, WantsFor};

use crate::begin::begin;
use crate::fault::LineFault;
use crate::session_lines::read_session_line;
use crate::words::Words;
use push_model::Step;
use std::alloc::Global;

#[tactic(auto, unfolding(crate::specs::Reading::line_at))]
fn read(alloc: Global, line: &[u8]) -> Result<Step, LineFault>
    ensures step { Gives (λ x. x) result (line_at line.now) }
    ensures memory { WantsFor (λ s. line_at line.now ≡ Some s) result }
{
    let (verb, words) = Words::of(line);
    if verb == b"begin".as_slice() {
        return begin(alloc, words);
    }
    read_session_line(verb, words).ok_or(LineFault::Outside)
}

/// The step that the line, without its LF, spells. `Outside` comes exactly where it is the spelling of no step in range,
/// and `NoMemory` only where it is the spelling of a `begin` in range, for want of memory for the payload.
pub fn read_line(alloc: Global, line: &[u8]) -> Result<Step, LineFault>
    // What is read is spelled so.
    ensures found { IfOk result (λ s. (line.now ≡ spell s) × InRange s) }
    // What is spelled so is read, unless memory runs out; so `Outside` says that no step in range has this spelling.
    ensures only { (s : Step) → InRange s → line.now ≡ spell s → Gives (λ x. x) result (Some s) }
    ensures exact { Gives (λ x. x) result (line_at line.now) }
    // Memory is wanted only where the line spells a step in range, the begin of a message with a payload.
    ensures memory { WantsFor (λ s. (line.now ≡ spell s) × InRange s) result }
{
    read(alloc, line)
}
