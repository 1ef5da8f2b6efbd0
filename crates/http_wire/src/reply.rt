//! Replies as text.
ghost use Rattle.std.specs.Prelude.{◌≡◌, ◌++◌, ◌∷◌, [], ℕ, List, codes, decimal, Option, Some};
ghost use Rattle.std.specs.Io.KnownBytes.{Keeps};
ghost use Rattle.std.specs.Option.{option_copied};
ghost use Rattle.hex.specs.Hex.{encode_lower};
ghost use Rattle.std.specs.Int.{w64, to_be_bytes};
ghost use Rattle.http_bytes.specs.Causes.{CausedByWrites};
ghost use Rattle.http_bytes.specs.Puts.{IsBlamed, IsPut, WritesAll};
ghost use Rattle.http_wire.specs.Replies.{IsKnown, IsProper, allow_line, body_bytes, body_lines, close_line, length_line, location_line, phrase, status_line, text_of, ttl_line};

use http_bytes::{Outbox, WireFault};
use itoa::Buffer;
use push_model::MsgId;
use push_outside::Wire;

/// A reply.
#[derive(Clone, Copy, Debug)]
pub struct HttpReply<'a> {
    /// The status code.
    pub code: u16,
    /// The methods that are allowed, where they are named.
    pub allow: Option<&'a str>,
    /// Whether the connection ends after it.
    pub close: bool,
    /// The body, which is JSON, where there is one.
    pub body: Option<&'a [u8]>,
    /// The message that was made, where there is one.
    pub location: Option<MsgId>,
    /// The seconds for which the message is kept.
    pub ttl: Option<u32>,
}

// The phrase of a code.
fn phrase(code: u16) -> &'static [u8]
    requires { IsKnown code }
    ensures { result.now ≡ phrase code }
{
    match code {
        201 => b"Created",
        204 => b"No Content",
        400 => b"Bad Request",
        404 => b"Not Found",
        405 => b"Method Not Allowed",
        410 => b"Gone",
        413 => b"Payload Too Large",
        431 => b"Request Header Fields Too Large",
        500 => b"Internal Server Error",
        _ => b"Service Unavailable",
    }
}

fn put_number<W: Wire>(out: &mut Outbox, wire: &mut W, name: &[u8], number: u64)
    ensures text { (start : Option (List ℕ)) (text : List ℕ) → IsPut start (W.written wire.old) text out.old → IsPut start (W.written wire.new) (text ++ (name.now ++ (decimal number ++ codes "\r\n"))) out.new }
    ensures cause { (before : ℕ) → IsBlamed before (W.faults wire.old) (W.lulls wire.old) out.old → IsBlamed before (W.faults wire.new) (W.lulls wire.new) out.new }
    ensures kept { Keeps (W.left wire.old) (W.left wire.new) }
{
    let mut digits = Buffer::new();
    out.put(wire, name);
    out.put(wire, digits.format(number).as_bytes());
    out.put(wire, b"\r\n");
}

fn put_status<W: Wire>(out: &mut Outbox, wire: &mut W, code: u16)
    requires { IsKnown code }
    ensures text { (start : Option (List ℕ)) (text : List ℕ) → IsPut start (W.written wire.old) text out.old → IsPut start (W.written wire.new) (text ++ status_line code) out.new }
    ensures cause { (before : ℕ) → IsBlamed before (W.faults wire.old) (W.lulls wire.old) out.old → IsBlamed before (W.faults wire.new) (W.lulls wire.new) out.new }
    ensures kept { Keeps (W.left wire.old) (W.left wire.new) }
{
    let mut digits = Buffer::new();
    out.put(wire, b"HTTP/1.1 ");
    out.put(wire, digits.format(code).as_bytes());
    out.put(wire, b" ");
    out.put(wire, phrase(code));
    out.put(wire, b"\r\n");
}

fn put_allow<W: Wire>(out: &mut Outbox, wire: &mut W, allow: Option<&str>)
    ensures text { (start : Option (List ℕ)) (text : List ℕ) → IsPut start (W.written wire.old) text out.old → IsPut start (W.written wire.new) (text ++ allow_line (option_copied allow.entry)) out.new }
    ensures cause { (before : ℕ) → IsBlamed before (W.faults wire.old) (W.lulls wire.old) out.old → IsBlamed before (W.faults wire.new) (W.lulls wire.new) out.new }
    ensures kept { Keeps (W.left wire.old) (W.left wire.new) }
{
    if let Some(methods) = allow {
        out.put(wire, b"Allow: ");
        out.put(wire, methods.as_bytes());
        out.put(wire, b"\r\n");
    }
}

fn put_close<W: Wire>(out: &mut Outbox, wire: &mut W, close: bool)
    ensures text { (start : Option (List ℕ)) (text : List ℕ) → IsPut start (W.written wire.old) text out.old → IsPut start (W.written wire.new) (text ++ close_line close) out.new }
    ensures cause { (before : ℕ) → IsBlamed before (W.faults wire.old) (W.lulls wire.old) out.old → IsBlamed before (W.faults wire.new) (W.lulls wire.new) out.new }
    ensures kept { Keeps (W.left wire.old) (W.left wire.new) }
{
    if close {
        out.put(wire, b"Connection: close\r\n");
    }
}

fn put_ttl<W: Wire>(out: &mut Outbox, wire: &mut W, ttl: Option<u32>)
    ensures text { (start : Option (List ℕ)) (text : List ℕ) → IsPut start (W.written wire.old) text out.old → IsPut start (W.written wire.new) (text ++ ttl_line ttl) out.new }
    ensures cause { (before : ℕ) → IsBlamed before (W.faults wire.old) (W.lulls wire.old) out.old → IsBlamed before (W.faults wire.new) (W.lulls wire.new) out.new }
    ensures kept { Keeps (W.left wire.old) (W.left wire.new) }
{
    if let Some(ttl) = ttl {
        put_number(out, wire, b"TTL: ", u64::from(ttl));
    }
}

fn shard_text(shard: u8) -> [u8; 2]
    ensures { result ≡ encode_lower (shard ∷ []) }
{
    let mut text = [0; 2];
    let _ = hex::encode_to_slice([shard].as_slice(), &mut text);
    text
}

fn number_text(number: u64) -> [u8; 16]
    ensures { result ≡ encode_lower (to_be_bytes w64 number) }
{
    let mut text = [0; 16];
    let _ = hex::encode_to_slice(number.to_be_bytes().as_slice(), &mut text);
    text
}

fn put_version<W: Wire>(out: &mut Outbox, wire: &mut W, shard: &[u8], number: &[u8])
    ensures text { (start : Option (List ℕ)) (text : List ℕ) → IsPut start (W.written wire.old) text out.old → IsPut start (W.written wire.new) (text ++ (codes "Location: /m/" ++ ((shard.now ++ (codes "-" ++ number.now)) ++ codes "\r\n"))) out.new }
    ensures cause { (before : ℕ) → IsBlamed before (W.faults wire.old) (W.lulls wire.old) out.old → IsBlamed before (W.faults wire.new) (W.lulls wire.new) out.new }
    ensures kept { Keeps (W.left wire.old) (W.left wire.new) }
{
    out.put(wire, b"Location: /m/");
    out.put(wire, shard);
    out.put(wire, b"-");
    out.put(wire, number);
    out.put(wire, b"\r\n");
}

fn put_id<W: Wire>(out: &mut Outbox, wire: &mut W, id: MsgId)
    ensures text { (start : Option (List ℕ)) (text : List ℕ) → IsPut start (W.written wire.old) text out.old → IsPut start (W.written wire.new) (text ++ location_line (Some id)) out.new }
    ensures cause { (before : ℕ) → IsBlamed before (W.faults wire.old) (W.lulls wire.old) out.old → IsBlamed before (W.faults wire.new) (W.lulls wire.new) out.new }
    ensures kept { Keeps (W.left wire.old) (W.left wire.new) }
{
    let shard = shard_text(id.shard);
    let number = number_text(id.number);
    put_version(out, wire, &shard, &number);
}

fn put_location<W: Wire>(out: &mut Outbox, wire: &mut W, location: Option<MsgId>)
    ensures text { (start : Option (List ℕ)) (text : List ℕ) → IsPut start (W.written wire.old) text out.old → IsPut start (W.written wire.new) (text ++ location_line location) out.new }
    ensures cause { (before : ℕ) → IsBlamed before (W.faults wire.old) (W.lulls wire.old) out.old → IsBlamed before (W.faults wire.new) (W.lulls wire.new) out.new }
    ensures kept { Keeps (W.left wire.old) (W.left wire.new) }
{
    if let Some(id) = location {
        put_id(out, wire, id);
    }
}

fn put_known_size<W: Wire>(out: &mut Outbox, wire: &mut W, size: u64)
    ensures text { (start : Option (List ℕ)) (text : List ℕ) → IsPut start (W.written wire.old) text out.old → IsPut start (W.written wire.new) (text ++ (length_line size ++ codes "Content-Type: application/json\r\n")) out.new }
    ensures cause { (before : ℕ) → IsBlamed before (W.faults wire.old) (W.lulls wire.old) out.old → IsBlamed before (W.faults wire.new) (W.lulls wire.new) out.new }
    ensures kept { Keeps (W.left wire.old) (W.left wire.new) }
{
    put_number(out, wire, b"Content-Length: ", size);
    out.put(wire, b"Content-Type: application/json\r\n");
}

// The lines that tell of the body.
fn put_size<W: Wire>(out: &mut Outbox, wire: &mut W, code: u16, body: Option<&[u8]>)
    ensures text { (start : Option (List ℕ)) (text : List ℕ) → IsPut start (W.written wire.old) text out.old → IsPut start (W.written wire.new) (text ++ body_lines code (option_copied body.entry)) out.new }
    ensures cause { (before : ℕ) → IsBlamed before (W.faults wire.old) (W.lulls wire.old) out.old → IsBlamed before (W.faults wire.new) (W.lulls wire.new) out.new }
    ensures kept { Keeps (W.left wire.old) (W.left wire.new) }
{
    match body {
        Some(bytes) => put_known_size(out, wire, bytes.len() as u64),
        None if code == 204 => {}
        None => put_number(out, wire, b"Content-Length: ", 0),
    }
}

// The empty line, and the body.
fn put_body<W: Wire>(out: &mut Outbox, wire: &mut W, body: Option<&[u8]>)
    ensures text { (start : Option (List ℕ)) (text : List ℕ) → IsPut start (W.written wire.old) text out.old → IsPut start (W.written wire.new) (text ++ (codes "\r\n" ++ body_bytes (option_copied body.entry))) out.new }
    ensures cause { (before : ℕ) → IsBlamed before (W.faults wire.old) (W.lulls wire.old) out.old → IsBlamed before (W.faults wire.new) (W.lulls wire.new) out.new }
    ensures kept { Keeps (W.left wire.old) (W.left wire.new) }
{
    out.put(wire, b"\r\n");
    if let Some(bytes) = body {
        out.put(wire, bytes);
    }
}

fn put_reply<W: Wire>(out: &mut Outbox, wire: &mut W, reply: &HttpReply<'_>)
    requires { IsKnown reply.now.code }
    ensures text { (start : Option (List ℕ)) (text : List ℕ) → IsPut start (W.written wire.old) text out.old → IsPut start (W.written wire.new) (text ++ text_of reply.now) out.new }
    ensures cause { (before : ℕ) → IsBlamed before (W.faults wire.old) (W.lulls wire.old) out.old → IsBlamed before (W.faults wire.new) (W.lulls wire.new) out.new }
    ensures kept { Keeps (W.left wire.old) (W.left wire.new) }
{
    put_status(out, wire, reply.code);
    put_allow(out, wire, reply.allow);
    put_close(out, wire, reply.close);
    put_size(out, wire, reply.code, reply.body);
    put_location(out, wire, reply.location);
    put_ttl(out, wire, reply.ttl);
    put_body(out, wire, reply.body);
}

/// Writes a reply (RFC 9112, section 4), of a code that has a phrase here; one of 204 has no body. The lines stand in the order
/// Allow, Connection, Content-Length, Content-Type, Location and TTL, each where it applies. At an `Err` a front of the text was
/// written, and the connection is used no more:
/// - `Idle`: 1,000 writes in a row answered `NotYet`;
/// - `WriteFault`: the wire's count of faults rose;
/// - `NoMemory`: the wire wanted memory; the call itself takes none.
pub fn write_reply<W: Wire>(wire: &mut W, reply: &HttpReply<'_>) -> Result<(), WireFault>
    requires { IsProper reply.now }
    ensures written { WritesAll result (text_of reply.now) (W.written wire.old) (W.written wire.new) }
    ensures kept { Keeps (W.left wire.old) (W.left wire.new) }
    ensures cause { CausedByWrites result (W.faults wire.old) (W.faults wire.new) (W.lulls wire.new) }
{
    let mut out = Outbox::new();
    put_reply(&mut out, wire, reply);
    out.finish(wire)
}
