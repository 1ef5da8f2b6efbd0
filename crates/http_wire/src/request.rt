//! The next request of a connection.
ghost use Rattle.std.specs.Prelude.{◌≡◌, ◌≤◌, ◌<◌, IfOk, IfErr, length};
ghost use Rattle.std.specs.Io.KnownBytes.{Keeps};
ghost use Rattle.http_bytes.specs.Breaks.{Breaks};
ghost use Rattle.http_bytes.specs.Causes.{CausedBy};
ghost use Rattle.http_bytes.specs.Forms.{IsHeadFound};
ghost use Rattle.http_wire.specs.Requests.{is_blank, head_fault, is_empty_body, IsStart, BeginsBad, TakesHead, BreaksHead, TakesBytes, TakesBody, IsBodyOpen, IsBodyBad, TakesRequest, BreaksRequest};

use crate::body::{BODY, Body};
use crate::chunk::read_chunked;
use crate::framing::{Framing, framing_of};
use crate::head::Head;
use http_bytes::{HeadForm, PieceForm, Rest, Stop, WireFault, read_part, wait_for};
use httparse::spans::{HeaderSpan, RequestSpans};
use push_model::Blob;
use push_outside::Wire;
use std::alloc::Global;

/// A request.
#[derive(Debug, Drop)]
pub struct Request {
    /// Its head.
    pub head: Head,
    /// Its body.
    pub body: Body,
}

// A head that was read, and how long the body behind it is.
#[derive(Debug, Drop)]
struct Start {
    head: Head,
    framing: Framing,
}

// Whether there are empty lines alone.
fn is_blank(bytes: &[u8]) -> bool
    ensures { result ≡ is_blank bytes.now }
{
    let mut rest = bytes;
    loop {
        match rest {
            [] => return true,
            [b'\n', tail @ ..] => rest = tail,
            [b'\r', b'\n', tail @ ..] => rest = tail,
            _ => return false,
        }
    }
}

// The fault where no head comes, after these bytes.
fn head_fault(stop: Stop, seen: &[u8]) -> WireFault
    ensures { result ≡ head_fault stop seen.now }
{
    match stop {
        Stop::End if is_blank(seen) => WireFault::Ended,
        Stop::End => WireFault::Truncated,
        Stop::Full => WireFault::HeadTooLong,
        Stop::Bad => WireFault::BadHead,
        Stop::Idle => WireFault::Idle,
        Stop::Failed => WireFault::ReadFault,
        Stop::NoMemory => WireFault::NoMemory,
    }
}

// Takes a head from the front of the bytes, where it was found.
fn begin(
    alloc: Global,
    rest: &mut Rest,
    lines: &[HeaderSpan],
    found: &RequestSpans,
) -> Result<Start, WireFault>
    requires found { IsHeadFound lines.now found.now rest.old }
    requires few { length lines.now ≤ 100 }
    ensures ok { IfOk result (λ start. IsStart start.head start.framing rest.old rest.new) }
    ensures err { IfErr result (λ fault. BeginsBad fault rest.old) }
{
    let Ok(head) = Head::copy(alloc, rest.bytes(), lines, found) else {
        return Err(WireFault::NoMemory);
    };
    match framing_of(&head) {
        Some(framing) => {
            rest.skip(found.len);
            Ok(Start { head, framing })
        }
        None => Err(WireFault::BadHead),
    }
}

// Reads a head.
fn read_head<W: Wire>(alloc: Global, wire: &mut W, rest: &mut Rest) -> Result<Start, WireFault>
    ensures ok { IfOk result (λ start. TakesHead (W.left wire.old) (W.left wire.new) rest.old rest.new start.head start.framing) }
    ensures err { IfErr result (λ fault. BreaksHead fault (W.left wire.old) (W.left wire.new) rest.old) }
    ensures kept { Keeps (W.written wire.old) (W.written wire.new) }
    ensures cause { CausedBy result (W.faults wire.old) (W.faults wire.new) (W.lulls wire.new) }
{
    let mut form = HeadForm::new();
    match wait_for(wire, rest, &mut form) {
        Ok(found) => begin(alloc, rest, &form.lines, &found),
        Err(stop) => Err(head_fault(stop, rest.bytes())),
    }
}

// Reads a body of so many bytes.
fn read_bytes<W: Wire>(
    alloc: Global,
    wire: &mut W,
    rest: &mut Rest,
    size: usize,
) -> Result<Blob, WireFault>
    requires { size ≤ 4096 }
    ensures ok { IfOk result (λ bytes. TakesBytes (W.left wire.old) (W.left wire.new) rest.old rest.new bytes size) }
    ensures err { IfErr result (λ fault. Breaks fault (W.left wire.old) (W.left wire.new) rest.old (λ seen. length seen < size) (λ _. ⊥)) }
    ensures kept { Keeps (W.written wire.old) (W.written wire.new) }
    ensures cause { CausedBy result (W.faults wire.old) (W.faults wire.new) (W.lulls wire.new) }
{
    match read_part(wire, rest, &mut PieceForm { size }) {
        Ok(()) => match Blob::copy(alloc, &rest.bytes()[..size]) {
            Ok(bytes) => {
                rest.skip(size);
                Ok(bytes)
            }
            Err(_) => Err(WireFault::NoMemory),
        },
        Err(fault) => Err(fault),
    }
}

// Reads a body.
fn read_body<W: Wire>(
    alloc: Global,
    wire: &mut W,
    rest: &mut Rest,
    framing: Framing,
) -> Result<Body, WireFault>
    ensures ok { IfOk result (λ body. TakesBody (W.left wire.old) (W.left wire.new) rest.old rest.new framing body) }
    ensures err { IfErr result (λ fault. Breaks fault (W.left wire.old) (W.left wire.new) rest.old (IsBodyOpen framing) (IsBodyBad framing)) }
    ensures kept { Keeps (W.written wire.old) (W.written wire.new) }
    ensures cause { CausedBy result (W.faults wire.old) (W.faults wire.new) (W.lulls wire.new) }
{
    match framing {
        Framing::Chunked => read_chunked(alloc, wire, rest),
        Framing::Length(size) => {
            if size > BODY as u64 {
                return Ok(Body::TooLong);
            }
            match read_bytes(alloc, wire, rest, size as usize) {
                Ok(bytes) => Ok(Body::Bytes(bytes)),
                Err(fault) => Err(fault),
            }
        }
    }
}

/// Reads the next request (RFC 9112) from what is kept and what the wire gives, and keeps the bytes behind it.
///
/// Empty lines before a request are passed over. A head has at most 65,536 bytes, those empty lines among them, and at
/// most 100 lines; so have the trailers of a chunked body. A body of more than 4,096 bytes is answered `TooLong` as soon
/// as its length, or a chunk's size, says so, and the rest of it isn't read.
///
/// After an `Err` the connection is used no more:
/// - `Ended`: the input ended, with empty lines at most before it;
/// - `Truncated`: it ended within a request;
/// - `BadHead`: whatever follows, the bytes are no request;
/// - `HeadTooLong`: 65,536 bytes came with no end of the head;
/// - `Idle`: 1,000 reads in a row answered `NotYet`;
/// - `ReadFault`: the wire's count of faults rose;
/// - `NoMemory`: memory ran out.
pub fn next_request<W: Wire>(
    alloc: Global,
    wire: &mut W,
    rest: &mut Rest,
) -> Result<Request, WireFault>
    ensures ok { IfOk result (λ request. TakesRequest (W.left wire.old) (W.left wire.new) rest.old rest.new request) }
    ensures err { IfErr result (λ fault. BreaksRequest fault (W.left wire.old) (W.left wire.new) rest.old) }
    ensures kept { Keeps (W.written wire.old) (W.written wire.new) }
    ensures cause { CausedBy result (W.faults wire.old) (W.faults wire.new) (W.lulls wire.new) }
{
    let start = match read_head(alloc, wire, rest) {
        Ok(start) => start,
        Err(fault) => return Err(fault),
    };
    match read_body(alloc, wire, rest, start.framing) {
        Ok(body) => Ok(Request {
            head: start.head.with_body(body.is_empty()),
            body,
        }),
        Err(fault) => Err(fault),
    }
}
