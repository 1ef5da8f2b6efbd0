//! Reading one part of a body.
ghost use Rattle.std.specs.Prelude.{◌≡◌, IfOk, IfErr};
ghost use Rattle.std.specs.Io.KnownBytes.{Keeps};
ghost use Rattle.http_bytes.specs.Breaks.{part_fault, Breaks, NeverOrFull, OpenWithin};
ghost use Rattle.http_bytes.specs.Causes.{CausedBy};
ghost use Rattle.http_bytes.specs.Moves.{Moves};

use crate::fault::WireFault;
use crate::rest::Rest;
use crate::wait::{Form, Stop, wait_for};
use push_outside::Wire;

// The fault where a part of a body doesn't come.
fn part_fault(stop: Stop) -> WireFault
    ensures { result ≡ part_fault stop }
{
    match stop {
        Stop::End => WireFault::Truncated,
        Stop::Full | Stop::Bad => WireFault::BadHead,
        Stop::Idle => WireFault::Idle,
        Stop::Failed => WireFault::ReadFault,
        Stop::NoMemory => WireFault::NoMemory,
    }
}

/// Reads until the bytes have the form of a part of a body in front, which stays there.
///
/// - `Truncated`: the input ended, and the part may still have come;
/// - `BadHead`: whatever follows, it never comes, or 65,536 bytes don't have it yet;
/// - `Idle`: 1,000 reads in a row answered `NotYet`;
/// - `ReadFault`: the wire's count of faults rose;
/// - `NoMemory`: there was no memory for more bytes.
pub fn read_part<W: Wire, F: Form>(
    wire: &mut W,
    rest: &mut Rest,
    form: &mut F,
) -> Result<F::Found, WireFault>
    ensures bytes { IfOk result (λ _. Moves (W.left wire.old) (W.left wire.new) rest.old rest.new) }
    ensures found { IfOk result (λ found. F.is_found form.new found rest.new) }
    ensures err { IfErr result (λ fault. Breaks fault (W.left wire.old) (W.left wire.new) rest.old (OpenWithin (F.is_open form.new)) (NeverOrFull (F.is_open form.new) (F.is_bad form.new))) }
    ensures same { F.sought form.new ≡ F.sought form.old }
    ensures kept { Keeps (W.written wire.old) (W.written wire.new) }
    ensures cause { CausedBy result (W.faults wire.old) (W.faults wire.new) (W.lulls wire.new) }
{
    match wait_for(wire, rest, form) {
        Ok(found) => Ok(found),
        Err(stop) => Err(part_fault(stop)),
    }
}
