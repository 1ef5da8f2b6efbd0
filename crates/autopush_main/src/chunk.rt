//! One read of a source, where lulls are waited out.
ghost use Rattle.std.specs.Prelude.{◌<◌, length};
ghost use Rattle.autopush_main.specs.Chunks.{ReadsChunk, ReadsBy};

use crate::endings::Fault;
use crate::lulls::LULLS;
use push_outside::{Got, Source};

/// What a read gave.
#[derive(Clone, Copy, Debug)]
pub enum Chunk {
    /// So many bytes, in the front of the room.
    Bytes(usize),
    /// The input has ended.
    End,
    /// The source failed, or had nothing too often.
    Lost(Fault),
}

/// Reads once, and again while there is nothing now, at most 1,000,000,000 times in a row.
pub fn read_chunk<I: Source>(source: &mut I, room: &mut [u8]) -> Chunk
    requires { 0 < length room.old }
    ensures bytes { ReadsChunk result room.new (I.left source.old) (I.left source.new) }
    ensures cause { ReadsBy result (I.faults source.old) (I.faults source.new) (I.lulls source.old) (I.lulls source.new) }
{
    for _ in 0..LULLS {
        match source.read(room) {
            Got::Bytes(count) => return Chunk::Bytes(count),
            Got::End => return Chunk::End,
            Got::NotYet => {}
            Got::Failed => return Chunk::Lost(Fault::Failed),
        }
    }
    Chunk::Lost(Fault::Waited)
}
