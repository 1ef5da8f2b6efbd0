//! Replies to a request.
ghost use Rattle.std.specs.Prelude.{◌≡◌, ◌⊎◌, true};
ghost use Rattle.std.specs.Io.KnownBytes.{Keeps};
ghost use Rattle.http_bytes.specs.Causes.{CausedByWrites};
ghost use Rattle.http_bytes.specs.Puts.{WritesAll};
ghost use Rattle.push_json.specs.Bodies.{error_body};
ghost use Rattle.http_front.specs.Rows.{IsTellable, created_text, memory_text, refusal, refusal_text};
ghost use Rattle.http_front.specs.Served.{TellsWhy};
ghost use Rattle.http_front.specs.Steps.{WhyCausedBy};

use crate::refusal::Refusal;
use http_bytes::WireFault;
use http_wire::{HttpReply, write_reply};
use push_json::error_body;
use push_model::MsgId;
use push_outside::Wire;
use std::alloc::Global;

// The body where memory was wanted.
const MEMORY_BODY: &[u8] =
    b"{\"code\":500,\"errno\":900,\"error\":\"Internal Server Error\",\"message\":\"Out of memory\"}";

/// Tells that the message was taken: its id, and the seconds for which it is kept (RFC 8030, section 5). At an `Err` a front of
/// the text was written. It takes no memory.
pub fn tell_created<W: Wire>(
    wire: &mut W,
    id: MsgId,
    ttl: u32,
    close: bool,
) -> Result<(), WireFault>
    ensures written { WritesAll result (created_text id ttl close) (W.written wire.old) (W.written wire.new) }
    ensures kept { Keeps (W.left wire.old) (W.left wire.new) }
    ensures cause { CausedByWrites result (W.faults wire.old) (W.faults wire.new) (W.lulls wire.new) }
{
    let reply = HttpReply {
        code: 201,
        allow: None,
        close,
        body: None,
        location: Some(id),
        ttl: Some(ttl),
    };
    write_reply(wire, &reply)
}

/// Tells that memory was wanted, by a constant text. At an `Err` a front of the text was written. It takes no memory.
pub fn tell_no_memory<W: Wire>(wire: &mut W, close: bool) -> Result<(), WireFault>
    ensures written { WritesAll result (memory_text close) (W.written wire.old) (W.written wire.new) }
    ensures kept { Keeps (W.left wire.old) (W.left wire.new) }
    ensures cause { CausedByWrites result (W.faults wire.old) (W.faults wire.new) (W.lulls wire.new) }
{
    let reply = HttpReply {
        code: 500,
        allow: None,
        close,
        body: Some(MEMORY_BODY),
        location: None,
        ttl: None,
    };
    write_reply(wire, &reply)
}

// The reply of a refusal with that body.
fn tell_with_body<W: Wire>(
    wire: &mut W,
    refusal: Refusal,
    close: bool,
    body: &str,
) -> Result<(), WireFault>
    requires tellable { IsTellable refusal }
    requires body { body.now ≡ error_body refusal.code refusal.errno }
    ensures written { WritesAll result (refusal_text refusal close) (W.written wire.old) (W.written wire.new) }
    ensures kept { Keeps (W.left wire.old) (W.left wire.new) }
    ensures cause { CausedByWrites result (W.faults wire.old) (W.faults wire.new) (W.lulls wire.new) }
{
    let allow = if refusal.code == 405 {
        Some("POST")
    } else {
        None
    };
    let reply = HttpReply {
        code: refusal.code,
        allow,
        close,
        body: Some(body.as_bytes()),
        location: None,
        ttl: None,
    };
    write_reply(wire, &reply)
}

/// Tells a refusal (RFC 8030, section 8.4), or, where there is no memory for its body, that memory was wanted. At an `Err` a
/// front of the text was written.
pub fn tell_refusal<W: Wire>(
    alloc: Global,
    wire: &mut W,
    refusal: Refusal,
    close: bool,
) -> Result<(), WireFault>
    requires { IsTellable refusal }
    ensures written { WritesAll result (refusal_text refusal close) (W.written wire.old) (W.written wire.new) ⊎ WritesAll result (memory_text close) (W.written wire.old) (W.written wire.new) }
    ensures kept { Keeps (W.left wire.old) (W.left wire.new) }
    ensures cause { CausedByWrites result (W.faults wire.old) (W.faults wire.new) (W.lulls wire.new) }
{
    match error_body(alloc, refusal.code, refusal.errno) {
        Ok(body) => tell_with_body(wire, refusal, close, body.as_str()),
        Err(_) => tell_no_memory(wire, close),
    }
}

/// Tells the refusal of bytes that are no request, of that code and number, as the last that is written; and says why the
/// connection ends: for that fault, or, where the text could not be written whole, for what writing it answered. Where there is
/// no memory for its body nothing is written.
pub(crate) fn tell_malformed<W: Wire>(
    alloc: Global,
    wire: &mut W,
    fault: WireFault,
    code: u16,
    errno: u16,
) -> WireFault
    requires { IsTellable (refusal code errno) }
    ensures told { TellsWhy fault result (refusal_text (refusal code errno) true) (W.written wire.old) (W.written wire.new) }
    ensures kept { Keeps (W.left wire.old) (W.left wire.new) }
    ensures cause { WhyCausedBy fault result (W.faults wire.old) (W.faults wire.new) (W.lulls wire.new) }
{
    let Ok(body) = error_body(alloc, code, errno) else {
        return WireFault::NoMemory;
    };
    match tell_with_body(wire, Refusal { code, errno }, true, body.as_str()) {
        Ok(()) => fault,
        Err(end) => end,
    }
}
