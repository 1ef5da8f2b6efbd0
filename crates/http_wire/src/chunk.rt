//! A chunked body (RFC 9112, section 7.1).
ghost use Rattle.std.specs.Prelude.{◌≡◌, ◌≤◌, ◌<◌, [], IfOk, IfErr, length};
ghost use Rattle.std.specs.Io.KnownBytes.{Keeps};
ghost use Rattle.http_bytes.specs.Breaks.{Breaks, NeverOrFull, OpenWithin};
ghost use Rattle.http_bytes.specs.Causes.{CausedBy};
ghost use Rattle.http_bytes.specs.Forms.{IsLineOpen, IsLineBad, IsDataOpen, IsDataBad, AreTrailersOpen, AreTrailersBad};
ghost use Rattle.http_wire.specs.Chunks.{TakesLine, TakesData, TakesStep, TakesTrailers, TakesChunks, TakesChunked, IsChunkOpen, IsChunkBad, AreChunksOpen, AreChunksBad, IsChunkedOpen, IsChunkedBad};

use crate::body::{BODY, Body};
use http_bytes::{ChunkForm, LineForm, Rest, TrailerForm, WireFault, read_part};
use push_model::Blob;
use push_outside::Wire;
use std::alloc::Global;

// What stood at a chunk's place.
#[derive(Clone, Copy, Debug)]
enum Step {
    // A chunk, whose data was added to the body.
    Data,
    // The line of the last chunk.
    Last,
    // The line of a chunk that makes the body too long.
    Over,
}

// What stood behind the chunks.
#[derive(Clone, Copy, Debug)]
enum Tail {
    // The line of the last chunk.
    Last,
    // The line of a chunk that makes the body too long.
    Over,
}

// Reads the line before a chunk, and gives the chunk's size.
fn read_size<W: Wire>(wire: &mut W, rest: &mut Rest) -> Result<u64, WireFault>
    ensures ok { IfOk result (λ size. TakesLine (W.left wire.old) (W.left wire.new) rest.old rest.new size) }
    ensures err { IfErr result (λ fault. Breaks fault (W.left wire.old) (W.left wire.new) rest.old (OpenWithin IsLineOpen) (NeverOrFull IsLineOpen IsLineBad)) }
    ensures kept { Keeps (W.written wire.old) (W.written wire.new) }
    ensures cause { CausedBy result (W.faults wire.old) (W.faults wire.new) (W.lulls wire.new) }
{
    match read_part(wire, rest, &mut LineForm) {
        Ok((len, size)) => {
            rest.skip(len);
            Ok(size)
        }
        Err(fault) => Err(fault),
    }
}

// Reads so many bytes of data, and the CR LF behind them.
fn read_data<W: Wire>(
    wire: &mut W,
    rest: &mut Rest,
    body: &mut Vec<u8>,
    size: usize,
) -> Result<(), WireFault>
    requires { size ≤ 4096 }
    ensures ok { IfOk result (λ _. TakesData (W.left wire.old) (W.left wire.new) rest.old rest.new body.old.items body.new.items size) }
    ensures err { IfErr result (λ fault. Breaks fault (W.left wire.old) (W.left wire.new) rest.old (IsDataOpen size) (IsDataBad size)) }
    ensures kept { Keeps (W.written wire.old) (W.written wire.new) }
    ensures cause { CausedBy result (W.faults wire.old) (W.faults wire.new) (W.lulls wire.new) }
{
    match read_part(wire, rest, &mut ChunkForm { size }) {
        Ok(()) => match body.extend_from_slice(&rest.bytes()[..size]) {
            Ok(()) => {
                rest.skip(size + 2);
                Ok(())
            }
            Err(_) => Err(WireFault::NoMemory),
        },
        Err(fault) => Err(fault),
    }
}

// Reads a chunk, or the line of one that ends the body or makes it too long.
fn read_chunk<W: Wire>(wire: &mut W, rest: &mut Rest, body: &mut Vec<u8>) -> Result<Step, WireFault>
    requires { length body.old.items ≤ 4096 }
    ensures ok { IfOk result (λ step. TakesStep step (W.left wire.old) (W.left wire.new) rest.old rest.new body.old.items body.new.items) }
    ensures err { IfErr result (λ fault. Breaks fault (W.left wire.old) (W.left wire.new) rest.old (IsChunkOpen (length body.old.items)) (IsChunkBad (length body.old.items))) }
    ensures kept { Keeps (W.written wire.old) (W.written wire.new) }
    ensures cause { CausedBy result (W.faults wire.old) (W.faults wire.new) (W.lulls wire.new) }
{
    let size = match read_size(wire, rest) {
        Ok(size) => size,
        Err(fault) => return Err(fault),
    };
    if size == 0 {
        return Ok(Step::Last);
    }
    if size > (BODY - body.len()) as u64 {
        return Ok(Step::Over);
    }
    match read_data(wire, rest, body, size as usize) {
        Ok(()) => Ok(Step::Data),
        Err(fault) => Err(fault),
    }
}

// Reads chunks up to the line of the last one, or to the line of one that makes the body too long.
fn read_chunks<W: Wire>(
    wire: &mut W,
    rest: &mut Rest,
    body: &mut Vec<u8>,
) -> Result<Tail, WireFault>
    requires { body.old.items ≡ [] }
    ensures ok { IfOk result (λ tail. TakesChunks tail (W.left wire.old) (W.left wire.new) rest.old rest.new body.new.items) }
    ensures err { IfErr result (λ fault. Breaks fault (W.left wire.old) (W.left wire.new) rest.old AreChunksOpen AreChunksBad) }
    ensures kept { Keeps (W.written wire.old) (W.written wire.new) }
    ensures cause { CausedBy result (W.faults wire.old) (W.faults wire.new) (W.lulls wire.new) }
{
    loop {
        match read_chunk(wire, rest, body) {
            Ok(step) => match step {
                Step::Data => {}
                Step::Last => return Ok(Tail::Last),
                Step::Over => return Ok(Tail::Over),
            },
            Err(fault) => return Err(fault),
        }
    }
}

// Reads the trailers, which are passed over.
fn read_trailers<W: Wire>(wire: &mut W, rest: &mut Rest) -> Result<(), WireFault>
    ensures ok { IfOk result (λ _. TakesTrailers (W.left wire.old) (W.left wire.new) rest.old rest.new) }
    ensures err { IfErr result (λ fault. Breaks fault (W.left wire.old) (W.left wire.new) rest.old (OpenWithin AreTrailersOpen) (NeverOrFull AreTrailersOpen AreTrailersBad)) }
    ensures kept { Keeps (W.written wire.old) (W.written wire.new) }
    ensures cause { CausedBy result (W.faults wire.old) (W.faults wire.new) (W.lulls wire.new) }
{
    match read_part(wire, rest, &mut TrailerForm::new()) {
        Ok(len) => {
            rest.skip(len);
            Ok(())
        }
        Err(fault) => Err(fault),
    }
}

/// Reads a chunked body: its data, or that it is too long, as soon as a chunk's line says so.
pub fn read_chunked<W: Wire>(
    alloc: Global,
    wire: &mut W,
    rest: &mut Rest,
) -> Result<Body, WireFault>
    ensures ok { IfOk result (λ body. TakesChunked (W.left wire.old) (W.left wire.new) rest.old rest.new body) }
    ensures err { IfErr result (λ fault. Breaks fault (W.left wire.old) (W.left wire.new) rest.old IsChunkedOpen IsChunkedBad) }
    ensures kept { Keeps (W.written wire.old) (W.written wire.new) }
    ensures cause { CausedBy result (W.faults wire.old) (W.faults wire.new) (W.lulls wire.new) }
{
    let mut body = Vec::new(alloc);
    match read_chunks(wire, rest, &mut body) {
        Ok(tail) => match tail {
            Tail::Over => return Ok(Body::TooLong),
            Tail::Last => {}
        },
        Err(fault) => return Err(fault),
    }
    match read_trailers(wire, rest) {
        Ok(()) => Ok(Body::Bytes(Blob::from_vec(body))),
        Err(fault) => Err(fault),
    }
}
