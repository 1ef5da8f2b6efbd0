//! Ends of connections.

use crate::support::{Front, TARGET, answers, refusal};
use http_bytes::WireFault;
use http_front::HttpEnd;
use push_outside::ListWire;
use std::alloc::Global;
use std::process::Abort;
use std::test::Fail;

const CREATED: &str =
    "HTTP/1.1 201 Created\r\nConnection: close\r\nContent-Length: 0\r\nLocation: /m/00-0000000000000001\r\nTTL: 60\r\n\r\n";

// Each row has lines of a head, and whether the connection goes on after a request with them.
const CONNECTIONS: &str = "Connection: close > off|\
    connection: keep-alive ,\t CLOSE \t, x > off|\
    Connection: x\r\nConnection: ,close > off|\
    Connection: closed > on|\
    Connection: clo se > on|\
    Connection: keep-alive > on|\
    Connection: , > on|\
    X: close > on";

// Whether the connection goes on after a request with these lines; where it ends, the reply says so.
fn goes_on(alloc: Global, lines: &str) -> Result<bool, Fail> {
    let request = format!(in alloc; "POST {TARGET} HTTP/1.1\r\nTTL: 60\r\n{lines}\r\n\r\n")?;
    let talked = Front::new(alloc)?.talk(alloc, request.as_bytes())?;
    let says_so = talked.wire.written() == CREATED.as_bytes();
    match talked.end {
        HttpEnd::Asked if says_so => Ok(false),
        HttpEnd::Fault(WireFault::Ended) if !says_so => Ok(true),
        _ => Err(Fail::from("another end")),
    }
}

#[test]
fn the_sender_asks_for_the_end(rt: HostRuntime) -> Result<(), Fail> {
    for row in CONNECTIONS.split('|') {
        let (lines, goes) = row.split_once(" > ").ok_or("lines and what follows")?;
        assert_eq!(rt; goes_on(rt.alloc(), lines)?, goes == "on", "{lines}");
    }
    Ok(())
}

#[test]
fn an_older_version(rt: HostRuntime) -> Result<(), Fail> {
    let alloc = rt.alloc();
    let bytes = format!(in alloc;
        "POST {TARGET} HTTP/1.0\r\nConnection: keep-alive\r\nTTL: 60\r\n\r\nPOST {TARGET} HTTP/1.1\r\nTTL: 60\r\n\r\n"
    )?;
    answers(&rt, alloc, bytes.as_str(), CREATED, HttpEnd::Asked)
}

const LONG: &str =
    "{\"code\":413,\"errno\":104,\"error\":\"Payload Too Large\",\"message\":\"Body over 4096 bytes\"}";

// The end by the body comes before that which was asked for, and nothing behind is read.
#[test]
fn a_long_body(rt: HostRuntime) -> Result<(), Fail> {
    let alloc = rt.alloc();
    let bytes = format!(in alloc;
        "POST {TARGET} HTTP/1.1\r\nConnection: close\r\nContent-Length: 4097\r\n\r\nPOST {TARGET} HTTP/1.1\r\nTTL: 60\r\n\r\n"
    )?;
    let wanted = refusal(
        alloc,
        "413 Payload Too Large",
        "Connection: close\r\n",
        LONG,
    )?;
    answers(
        &rt,
        alloc,
        bytes.as_str(),
        wanted.as_str(),
        HttpEnd::LongBody,
    )
}

const MALFORMED: &str =
    "{\"code\":400,\"errno\":100,\"error\":\"Bad Request\",\"message\":\"Malformed request\"}";

#[test]
fn a_length_beside_a_coding(rt: HostRuntime) -> Result<(), Fail> {
    let alloc = rt.alloc();
    let bytes = format!(in alloc;
        "POST {TARGET} HTTP/1.1\r\nTTL: 60\r\nContent-Length: 0\r\nTransfer-Encoding: chunked\r\n\r\n0\r\n\r\n"
    )?;
    let wanted = refusal(alloc, "400 Bad Request", "Connection: close\r\n", MALFORMED)?;
    answers(
        &rt,
        alloc,
        bytes.as_str(),
        wanted.as_str(),
        HttpEnd::Fault(WireFault::BadHead),
    )
}

const TOO_LONG: &str =
    "{\"code\":431,\"errno\":107,\"error\":\"Request Header Fields Too Large\",\"message\":\"Head over 65536 bytes\"}";

#[test]
fn a_long_head(rt: HostRuntime) -> Result<(), Fail> {
    let alloc = rt.alloc();
    let value = "x".repeat(alloc, 70_000)?;
    let bytes = format!(in alloc; "POST {TARGET} HTTP/1.1\r\nA: {value}\r\n\r\n")?;
    let wanted = refusal(
        alloc,
        "431 Request Header Fields Too Large",
        "Connection: close\r\n",
        TOO_LONG,
    )?;
    answers(
        &rt,
        alloc,
        bytes.as_str(),
        wanted.as_str(),
        HttpEnd::Fault(WireFault::HeadTooLong),
    )
}

// A request that is cut is not answered, and one before it is.
#[test]
fn a_request_is_cut(rt: HostRuntime) -> Result<(), Fail> {
    let alloc = rt.alloc();
    let end = HttpEnd::Fault(WireFault::Truncated);
    let bytes = format!(in alloc;
        "POST {TARGET} HTTP/1.1\r\nTTL: 60\r\nContent-Length: 3\r\n\r\nhi"
    )?;
    answers(&rt, alloc, bytes.as_str(), "", end)?;
    answers(&rt, alloc, "POST / HT", "", end)
}

// A wire with one request, of which the call of that number fails.
fn failing_at(alloc: Global, call: u64) -> Result<ListWire, Fail> {
    let request = format!(in alloc; "POST {TARGET} HTTP/1.1\r\nTTL: 60\r\n\r\n")?;
    let bytes = Vec::from_slice(alloc, request.as_bytes())?;
    Ok(ListWire::new(alloc, bytes, vec![in alloc; call]?, Vec::new(alloc)))
}

#[test]
fn a_wire_fails(rt: HostRuntime) -> Result<(), Fail> {
    let alloc = rt.alloc();
    let mut front = Front::new(alloc)?;
    let read = front.serve(alloc, &mut failing_at(alloc, 1)?)?;
    assert_eq!(rt; read, HttpEnd::Fault(WireFault::ReadFault));
    assert_eq!(rt; front.next(), 0);
    let mut wire = failing_at(alloc, 2)?;
    let write = front.serve(alloc, &mut wire)?;
    assert_eq!(rt; write, HttpEnd::Fault(WireFault::WriteFault));
    assert_eq!(rt; front.next(), 1);
    assert!(rt; wire.written().is_empty());
    Ok(())
}
