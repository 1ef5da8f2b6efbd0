//! Requests that are read, whole, in pieces and one behind the other.

use crate::support::{read_all, reads, wire_of};
use std::test::Fail;

const POST: &str =
    "POST /wpush/v1/a HTTP/1.1\r\nHost: localhost\r\nTTL:  60 \r\nContent-Length: 2\r\n\r\nhi";

const READ: &str = "POST /wpush/v1/a 1.1 host=localhost ttl=60 content-length=2 (hi), ";

#[test]
fn a_request_is_read(rt: HostRuntime) -> Result<(), Fail> {
    let alloc = rt.alloc();
    let wanted = format!(in alloc; "{READ}Ended")?;
    reads(&rt, alloc, POST.as_bytes(), wanted.as_str())
}

#[test]
fn a_request_is_cut(rt: HostRuntime) -> Result<(), Fail> {
    let alloc = rt.alloc();
    let bytes = POST.as_bytes();
    for size in 1..bytes.len() {
        let mut wire = wire_of(alloc, &bytes[..size])?;
        assert_eq!(rt; read_all(alloc, &mut wire)?.as_str(), "Truncated", "{size}");
    }
    Ok(())
}

#[test]
fn requests_in_one_piece(rt: HostRuntime) -> Result<(), Fail> {
    let alloc = rt.alloc();
    let bytes = format!(in alloc; "\r\n{POST}\n\r\n{POST}GET")?;
    let wanted = format!(in alloc; "{READ}{READ}Truncated")?;
    reads(&rt, alloc, bytes.as_bytes(), wanted.as_str())
}

#[test]
fn empty_lines_alone(rt: HostRuntime) -> Result<(), Fail> {
    reads(&rt, rt.alloc(), b"", "Ended")?;
    reads(&rt, rt.alloc(), b"\r\n\n\r\n", "Ended")?;
    reads(&rt, rt.alloc(), b"\r\n\r", "Truncated")
}

#[test]
fn a_request_of_the_older_version(rt: HostRuntime) -> Result<(), Fail> {
    let wanted = "GET * 1.0 a=b a=c (), Ended";
    reads(&rt, rt.alloc(), b"GET * HTTP/1.0\nA:b\nA: c\n\n", wanted)
}
