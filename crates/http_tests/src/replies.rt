//! The text of replies, and writing it.

ghost use Rattle.std.specs.Prelude.{◌≡◌, None};
ghost use Rattle.http_wire.specs.Replies.{IsProper};

use crate::support::wire_of;
use http_wire::{HttpReply, WireFault, write_reply};
use push_model::MsgId;
use push_outside::ListWire;
use std::alloc::{AllocError, Global};
use std::process::Abort;
use std::test::Fail;

// Writes a reply, and compares what was written.
fn writes(rt: &impl Abort, alloc: Global, reply: &HttpReply<'_>, text: &str) -> Result<(), Fail>
    requires { IsProper reply.now }
{
    let mut wire = wire_of(alloc, b"")?;
    assert_eq!(rt; write_reply(&mut wire, reply), Ok(()));
    assert_eq!(rt; wire.written(), text.as_bytes());
    Ok(())
}

const CREATED: HttpReply<'static> = HttpReply {
    code: 201,
    allow: None,
    close: false,
    body: None,
    location: Some(MsgId {
        shard: 10,
        number: 255,
    }),
    ttl: Some(60),
};

const CREATED_TEXT: &str = "HTTP/1.1 201 Created\r\n\
    Content-Length: 0\r\n\
    Location: /m/0a-00000000000000ff\r\n\
    TTL: 60\r\n\r\n";

#[test]
fn a_message_is_created(rt: HostRuntime) -> Result<(), Fail> {
    writes(&rt, rt.alloc(), &CREATED, CREATED_TEXT)
}

#[test]
fn nothing_is_there(rt: HostRuntime) -> Result<(), Fail> {
    let reply = HttpReply {
        code: 204,
        location: None,
        ttl: None,
        ..CREATED
    };
    writes(&rt, rt.alloc(), &reply, "HTTP/1.1 204 No Content\r\n\r\n")
}

const UNKNOWN: &str =
    "{\"code\":404,\"errno\":101,\"error\":\"Not Found\",\"message\":\"Unknown path\"}";

#[test]
fn a_path_is_unknown(rt: HostRuntime) -> Result<(), Fail> {
    let alloc = rt.alloc();
    let reply = HttpReply {
        code: 404,
        body: Some(UNKNOWN.as_bytes()),
        location: None,
        ttl: None,
        ..CREATED
    };
    let text = format!(in alloc;
        "HTTP/1.1 404 Not Found\r\nContent-Length: 69\r\nContent-Type: application/json\r\n\r\n{UNKNOWN}"
    )?;
    writes(&rt, alloc, &reply, text.as_str())
}

const LONG: &str =
    "{\"code\":413,\"errno\":104,\"error\":\"Payload Too Large\",\"message\":\"Body over 4096 bytes\"}";

#[test]
fn a_body_is_too_long(rt: HostRuntime) -> Result<(), Fail> {
    let alloc = rt.alloc();
    let reply = HttpReply {
        code: 413,
        close: true,
        body: Some(LONG.as_bytes()),
        location: None,
        ttl: None,
        ..CREATED
    };
    let text = format!(in alloc;
        "HTTP/1.1 413 Payload Too Large\r\nConnection: close\r\nContent-Length: 85\r\nContent-Type: application/json\r\n\r\n{LONG}"
    )?;
    writes(&rt, alloc, &reply, text.as_str())
}

#[test]
fn a_method_is_not_allowed(rt: HostRuntime) -> Result<(), Fail> {
    let reply = HttpReply {
        code: 405,
        allow: Some("POST"),
        location: None,
        ttl: None,
        ..CREATED
    };
    let text = "HTTP/1.1 405 Method Not Allowed\r\nAllow: POST\r\nContent-Length: 0\r\n\r\n";
    writes(&rt, rt.alloc(), &reply, text)
}

// The numbers of the first calls, so many of them.
fn first_calls(alloc: Global, count: u64) -> Result<Vec<u64>, AllocError> {
    let mut numbers = Vec::new(alloc);
    for i in 1..=count {
        numbers.push(i)?;
    }
    Ok(numbers)
}

#[test]
fn a_write_fails(rt: HostRuntime) -> Result<(), Fail> {
    let alloc = rt.alloc();
    let failing = first_calls(alloc, 1)?;
    let mut wire = ListWire::new(alloc, Vec::new(alloc), failing, Vec::new(alloc));
    assert_eq!(rt;
        write_reply(&mut wire, &CREATED),
        Err(WireFault::WriteFault)
    );
    assert_eq!(rt; wire.written(), b"".as_slice());
    Ok(())
}

#[test]
fn writes_have_nothing_to_do(rt: HostRuntime) -> Result<(), Fail> {
    let alloc = rt.alloc();
    for (count, answer) in [(999, Ok(())), (1000, Err(WireFault::Idle))] {
        let waiting = first_calls(alloc, count)?;
        let mut wire = ListWire::new(alloc, Vec::new(alloc), Vec::new(alloc), waiting);
        assert_eq!(rt; write_reply(&mut wire, &CREATED), answer, "{count}");
    }
    Ok(())
}
