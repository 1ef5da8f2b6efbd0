//! Writing all of some bytes.
ghost use Rattle.std.specs.Prelude.{◌<◌, length};
ghost use Rattle.std.specs.Io.KnownBytes.{Keeps};
ghost use Rattle.http_bytes.specs.Causes.{CausedByWrites};
ghost use Rattle.http_bytes.specs.Puts.{WritesAll, WritesPiece};

use crate::fault::WireFault;
use push_outside::{Put, Wire};

// So many writes in a row that take nothing are the end.
const LULLS: u32 = 1000;

// Writes once, and again while nothing is taken now, at most 1,000 times in a row.
fn write_piece<W: Wire>(wire: &mut W, piece: &[u8]) -> Result<usize, WireFault>
    requires { 0 < length piece.now }
    ensures bytes { WritesPiece result piece.now (W.written wire.old) (W.written wire.new) }
    ensures kept { Keeps (W.left wire.old) (W.left wire.new) }
    ensures cause { CausedByWrites result (W.faults wire.old) (W.faults wire.new) (W.lulls wire.new) }
{
    for _ in 0..LULLS {
        match wire.write(piece) {
            Put::Wrote(count) => return Ok(count),
            Put::NotYet => {}
            Put::Failed => return Err(WireFault::WriteFault),
            Put::NoMemory => return Err(WireFault::NoMemory),
        }
    }
    Err(WireFault::Idle)
}

/// Writes all of the bytes, or a front of them where it breaks off.
///
/// - `Idle`: 1,000 writes in a row answered `NotYet`;
/// - `WriteFault`: the wire's count of faults rose;
/// - `NoMemory`: the wire wanted memory.
pub fn write_all<W: Wire>(wire: &mut W, bytes: &[u8]) -> Result<(), WireFault>
    ensures bytes { WritesAll result bytes.now (W.written wire.old) (W.written wire.new) }
    ensures kept { Keeps (W.left wire.old) (W.left wire.new) }
    ensures cause { CausedByWrites result (W.faults wire.old) (W.faults wire.new) (W.lulls wire.new) }
{
    let mut at = 0;
    while at < bytes.len() {
        match write_piece(wire, &bytes[at..]) {
            Ok(count) => at += count,
            Err(fault) => return Err(fault),
        }
    }
    Ok(())
}
