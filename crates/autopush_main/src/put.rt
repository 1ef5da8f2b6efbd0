//! Writing all of some bytes to a sink, where lulls are waited out.
ghost use Rattle.std.specs.Prelude.{◌<◌, length};
ghost use Rattle.autopush_main.specs.Puts.{WritesPiece, WritesBy, WritesAll, WrittenBy};

use crate::endings::Fault;
use crate::lulls::LULLS;
use push_outside::{Put, Sink};

/// What writing did.
#[derive(Clone, Copy, Debug, PartialEq, Eq)]
pub enum Written {
    /// All was taken.
    All,
    /// The sink failed, or took nothing too often.
    Lost(Fault),
    /// Memory ran out.
    NoMemory,
}

/// What one write did.
#[derive(Clone, Copy, Debug)]
enum Piece {
    Wrote(usize),
    Lost(Fault),
    NoMemory,
}

// Writes once, and again while nothing is taken now, at most 1,000,000,000 times in a row.
fn put_piece<K: Sink>(sink: &mut K, piece: &[u8]) -> Piece
    requires { 0 < length piece.now }
    ensures bytes { WritesPiece result piece.now (K.written sink.old) (K.written sink.new) }
    ensures cause { WritesBy result (K.faults sink.old) (K.faults sink.new) (K.lulls sink.old) (K.lulls sink.new) }
{
    for _ in 0..LULLS {
        match sink.write(piece) {
            Put::Wrote(count) => return Piece::Wrote(count),
            Put::NotYet => {}
            Put::Failed => return Piece::Lost(Fault::Failed),
            Put::NoMemory => return Piece::NoMemory,
        }
    }
    Piece::Lost(Fault::Waited)
}

/// Writes all of the bytes, or a front of them where it breaks off.
pub fn put_all<K: Sink>(sink: &mut K, bytes: &[u8]) -> Written
    ensures bytes { WritesAll result bytes.now (K.written sink.old) (K.written sink.new) }
    ensures cause { WrittenBy result (K.faults sink.old) (K.faults sink.new) (K.lulls sink.old) (K.lulls sink.new) }
{
    let mut at = 0;
    while at < bytes.len() {
        match put_piece(sink, &bytes[at..]) {
            Piece::Wrote(count) => at += count,
            Piece::Lost(fault) => return Written::Lost(fault),
            Piece::NoMemory => return Written::NoMemory,
        }
    }
    Written::All
}
