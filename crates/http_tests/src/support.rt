//! What several tests need: wires in memory, and what is read of them as text.

ghost use Rattle.std.specs.Prelude.{◌≡◌, ◌<◌, None, length};
ghost use Rattle.std.specs.Io.KnownBytes.{Keeps};
ghost use Rattle.push_outside.specs.Reads.{Reads, ReadFails, lulls_after_read};
ghost use Rattle.push_outside.specs.Writes.{Writes, WriteFails, lulls_after_write};

use http_wire::{Body, Head, Request, Rest, next_request};
use push_outside::{Got, ListWire, Put, Wire};
use std::alloc::{AllocError, Global};
use std::process::Abort;
use std::str::from_utf8;
use std::test::Fail;

/// A wire in memory that has these bytes to give.
pub fn wire_of(alloc: Global, bytes: &[u8]) -> Result<ListWire, AllocError> {
    let bytes = Vec::from_slice(alloc, bytes)?;
    Ok(ListWire::new(alloc, bytes, Vec::new(alloc), Vec::new(alloc)))
}

/// A wire that gives one byte a read. It tells no bytes.
#[derive(Drop)]
pub struct Drip {
    wire: ListWire,
}

impl Drip {
    /// The wire that has these bytes to give.
    pub fn new(alloc: Global, bytes: &[u8]) -> Result<Drip, AllocError> {
        let wire = wire_of(alloc, bytes)?;
        Ok(Drip { wire })
    }
}

impl Wire for Drip {
    ghost left = { λ _. None };

    ghost written = { λ _. None };

    ghost faults = { λ d. d.wire.faults };

    ghost lulls = { λ d. d.wire.lulls };

    fn read(&mut self, room: &mut [u8]) -> Got {
        self.wire.read(&mut room[..1])
    }

    fn write(&mut self, piece: &[u8]) -> Put {
        self.wire.write(piece)
    }

    fn rest(&mut self) {}

    fn hurry(&mut self) {}

    fn is_quiet(&self) -> bool {
        false
    }
}

// Adds these bytes to the text.
fn put(text: &mut String, bytes: &[u8]) -> Result<(), Fail> {
    text.push_str(from_utf8(bytes)?)?;
    Ok(())
}

// Adds a head: its method, its target, its minor version, and its lines.
fn put_head(text: &mut String, head: &Head) -> Result<(), Fail> {
    put(text, head.method())?;
    text.push_str(" ")?;
    put(text, head.target())?;
    text.push_str(if head.minor() == 1 { " 1.1" } else { " 1.0" })?;
    for i in 0..head.lines() {
        let (name, value) = head.line(i);
        text.push_str(" ")?;
        put(text, name)?;
        text.push_str("=")?;
        put(text, value)?;
    }
    Ok(())
}

// Adds a body, which stands in parentheses.
fn put_body(text: &mut String, body: &Body) -> Result<(), Fail> {
    match body {
        Body::Bytes(bytes) => {
            text.push_str(" (")?;
            put(text, bytes.bytes())?;
            text.push_str(")")?;
        }
        Body::TooLong => text.push_str(" too long")?,
    }
    Ok(())
}

fn put_request(text: &mut String, request: &Request) -> Result<(), Fail> {
    put_head(text, &request.head)?;
    put_body(text, &request.body)?;
    text.push_str(", ")?;
    Ok(())
}

/// The requests that are read of a wire, and the fault that ends them.
pub fn read_all<W: Wire>(alloc: Global, wire: &mut W) -> Result<String, Fail> {
    let mut text = String::new(alloc);
    let mut rest = Rest::new(alloc);
    for _ in 0..1000 {
        match next_request(alloc, wire, &mut rest) {
            Ok(request) => put_request(&mut text, &request)?,
            Err(fault) => {
                text.push_str(format!(in alloc; "{fault:?}")?.as_str())?;
                return Ok(text);
            }
        }
    }
    Err(Fail::from("requests without end"))
}

/// Reads these bytes, at once and byte by byte, and compares what was read.
pub fn reads(rt: &impl Abort, alloc: Global, bytes: &[u8], wanted: &str) -> Result<(), Fail> {
    let whole = read_all(alloc, &mut wire_of(alloc, bytes)?)?;
    assert_eq!(rt; whole.as_str(), wanted);
    let dripped = read_all(alloc, &mut Drip::new(alloc, bytes)?)?;
    assert_eq!(rt; dripped.as_str(), wanted);
    Ok(())
}
