//! The bytes of the input, one after the other.
ghost use Rattle.std.specs.Prelude.{◌≡◌, ◌++◌, ◌∷◌, [], ℕ, List, Option};
ghost use Rattle.push_model.specs.DeskViews.{DeskView};
ghost use Rattle.node_control.specs.Steps.{Blames, Goes, TakesBytes};

use crate::answers::answer_line;
use crate::ends::ControlEnd;
use crate::fronts::LineFront;
use push_model::Desks;
use push_outside::Sink;
use std::alloc::Global;

// Takes one byte, and answers the line that it ends.
fn take_byte<D: Desks, K: Sink>(
    alloc: Global,
    desks: &mut D,
    output: &mut K,
    front: &mut LineFront,
    byte: u8,
) -> Option<ControlEnd>
    ensures takes { (a : DeskView) (held : Option (List ℕ)) (read : List ℕ) → Goes a (D.view desks.old) held (K.written output.old) read front.old → TakesBytes result a (D.view desks.new) held (K.written output.new) (read ++ byte ∷ []) front.new }
    ensures cause { Blames result (K.faults output.old) (K.faults output.new) (K.lulls output.old) (K.lulls output.new) }
{
    if byte != b'\n' {
        front.push(byte);
        return None;
    }
    let end = answer_line(alloc, desks, output, front.bytes());
    front.clear();
    end
}

/// Takes these bytes, and answers each line that they end, or says how control ends.
pub fn take_bytes<D: Desks, K: Sink>(
    alloc: Global,
    desks: &mut D,
    output: &mut K,
    front: &mut LineFront,
    bytes: &[u8],
) -> Option<ControlEnd>
    ensures takes { (a : DeskView) (held : Option (List ℕ)) (read : List ℕ) → Goes a (D.view desks.old) held (K.written output.old) read front.old → TakesBytes result a (D.view desks.new) held (K.written output.new) (read ++ bytes.now) front.new }
    ensures cause { Blames result (K.faults output.old) (K.faults output.new) (K.lulls output.old) (K.lulls output.new) }
{
    for byte in bytes {
        if let Some(end) = take_byte(alloc, desks, output, front, *byte) {
            return Some(end);
        }
    }
    None
}
