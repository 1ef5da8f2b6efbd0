//! Handshakes (RFC 6455, section 4).

use crate::bytes::{REQUEST, RESPONSE};
use push_outside::ListWire;
use std::alloc::Global;
use std::process::Abort;
use std::test::Fail;
use ws_front::WsChat;

// What a wire with these bytes comes to: the answer that was written, or why there is none.
fn handshake(
    alloc: Global,
    bytes: &[u8],
    failing: &[u64],
    not_yet: &[u64],
) -> Result<String, Fail> {
    let bytes = Vec::from_slice(alloc, bytes)?;
    let failing = Vec::from_slice(alloc, failing)?;
    let not_yet = Vec::from_slice(alloc, not_yet)?;
    match WsChat::accept(alloc, ListWire::new(alloc, bytes, failing, not_yet)) {
        Ok(chat) => Ok(hex::encode(alloc, chat.wire().written())?),
        Err(fault) => Ok(format!(in alloc; "{fault:?}")?),
    }
}

// A browser's request, and these lines behind it.
fn request(alloc: Global, more: &str) -> Result<String, Fail> {
    Ok(format!(in alloc; "{REQUEST}{more}\r\n")?)
}

// The answer, in digits.
fn response(alloc: Global) -> Result<String, Fail> {
    Ok(hex::encode(alloc, RESPONSE.as_bytes())?)
}

#[test]
fn of_a_browser(rt: HostRuntime) -> Result<(), Fail> {
    let alloc = rt.alloc();
    let request = request(alloc, "")?;
    let wanted = response(alloc)?;
    assert_eq!(rt;
        handshake(alloc, request.as_bytes(), &[], &[])?.as_str(),
        wanted.as_str()
    );
    Ok(())
}

// One of more than 4,096 bytes comes in two reads.
#[test]
fn of_two_pieces(rt: HostRuntime) -> Result<(), Fail> {
    let alloc = rt.alloc();
    let padding = format!(in alloc; "X-Padding: {:>5000}\r\n", "x")?;
    let request = request(alloc, padding.as_str())?;
    let wanted = response(alloc)?;
    assert_eq!(rt;
        handshake(alloc, request.as_bytes(), &[], &[])?.as_str(),
        wanted.as_str()
    );
    assert_eq!(rt;
        handshake(alloc, request.as_bytes(), &[], &[2, 4])?.as_str(),
        wanted.as_str()
    );
    Ok(())
}

#[test]
fn of_idle_clients(rt: HostRuntime) -> Result<(), Fail> {
    let alloc = rt.alloc();
    let request = request(alloc, "")?;
    let mut not_yet = Vec::new(alloc);
    for call in 1..1_000 {
        not_yet.push(call)?;
    }
    let wanted = response(alloc)?;
    assert_eq!(rt;
        handshake(alloc, request.as_bytes(), &[], &not_yet)?.as_str(),
        wanted.as_str()
    );
    not_yet.push(1_000)?;
    assert_eq!(rt;
        handshake(alloc, request.as_bytes(), &[], &not_yet)?.as_str(),
        "Idle"
    );
    Ok(())
}

#[test]
fn over_wires_that_fail(rt: HostRuntime) -> Result<(), Fail> {
    let alloc = rt.alloc();
    let request = request(alloc, "")?;
    assert_eq!(rt;
        handshake(alloc, request.as_bytes(), &[1], &[])?.as_str(),
        "Fault"
    );
    assert_eq!(rt;
        handshake(alloc, request.as_bytes(), &[2], &[])?.as_str(),
        "Fault"
    );
    assert_eq!(rt; handshake(alloc, &[], &[], &[])?.as_str(), "Refused");
    Ok(())
}

// Requests that are refused, each as what stands in the place of a part of the browser's.
const REFUSED: &str = "GET / HTTP/1.1 > POST / HTTP/1.1
GET / HTTP/1.1 > GET / HTTP/1.0
GET / HTTP/1.1 > GET /
Sec-WebSocket-Version: 13 > Sec-WebSocket-Version: 8
Sec-WebSocket-Version: 13 > X-Version: 13
Sec-WebSocket-Key: dGhlIHNhbXBsZSBub25jZQ== > X-Key: dGhlIHNhbXBsZSBub25jZQ==
Connection: keep-alive, Upgrade > Connection: keep-alive
Upgrade: websocket > Upgrade: h2c
Cache-Control: no-cache > Cache Control: no-cache";

fn refuses(rt: &impl Abort, alloc: Global, part: &str, other: &str) -> Result<(), Fail> {
    let request = request(alloc, "")?.replace(alloc, part, other)?;
    assert_eq!(rt;
        handshake(alloc, request.as_bytes(), &[], &[])?.as_str(),
        "Refused",
        "{other}"
    );
    Ok(())
}

#[test]
fn that_are_refused(rt: HostRuntime) -> Result<(), Fail> {
    let alloc = rt.alloc();
    for line in REFUSED.lines() {
        let (part, other) = line.split_once(" > ").ok_or("a part and another")?;
        refuses(&rt, alloc, part, other)?;
    }
    Ok(())
}

// Nothing may stand behind the request in what is read with it.
#[test]
fn with_a_frame_behind(rt: HostRuntime) -> Result<(), Fail> {
    let alloc = rt.alloc();
    let request = format!(in alloc; "{REQUEST}\r\nx")?;
    assert_eq!(rt;
        handshake(alloc, request.as_bytes(), &[], &[])?.as_str(),
        "Refused"
    );
    Ok(())
}
