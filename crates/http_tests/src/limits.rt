//! Requests at their limits, and wires that have nothing or fail.

use crate::support::{read_all, reads, wire_of};
use push_outside::ListWire;
use std::alloc::{AllocError, Global};
use std::process::Abort;
use std::test::Fail;

// A head of so many bytes more than 23.
fn head_of(alloc: Global, more: usize) -> Result<String, Fail> {
    let value = "a".repeat(alloc, more)?;
    Ok(format!(in alloc; "GET / HTTP/1.1\r\nX: {value}\r\n\r\n")?)
}

#[test]
fn the_longest_head(rt: HostRuntime) -> Result<(), Fail> {
    let alloc = rt.alloc();
    let head = head_of(alloc, 65_513)?;
    assert_eq!(rt; head.len(), 65_536);
    let value = "a".repeat(alloc, 65_513)?;
    let wanted = format!(in alloc; "GET / 1.1 x={value} (), Ended")?;
    reads(&rt, alloc, head.as_bytes(), wanted.as_str())
}

#[test]
fn a_longer_head(rt: HostRuntime) -> Result<(), Fail> {
    let alloc = rt.alloc();
    let head = head_of(alloc, 65_514)?;
    reads(&rt, alloc, head.as_bytes(), "HeadTooLong")
}

// A head of so many lines.
fn lines_of(alloc: Global, count: usize) -> Result<String, Fail> {
    let lines = "A: b\r\n".repeat(alloc, count)?;
    Ok(format!(in alloc; "GET / HTTP/1.1\r\n{lines}\r\n")?)
}

#[test]
fn lines_of_a_head(rt: HostRuntime) -> Result<(), Fail> {
    let alloc = rt.alloc();
    let lines = " a=b".repeat(alloc, 100)?;
    let wanted = format!(in alloc; "GET / 1.1{lines} (), Ended")?;
    reads(
        &rt,
        alloc,
        lines_of(alloc, 100)?.as_bytes(),
        wanted.as_str(),
    )?;
    reads(&rt, alloc, lines_of(alloc, 101)?.as_bytes(), "BadHead")
}

// A body of the length that its head says.
#[test]
fn the_longest_body(rt: HostRuntime) -> Result<(), Fail> {
    let alloc = rt.alloc();
    let body = "a".repeat(alloc, 4096)?;
    let bytes = format!(in alloc; "POST / HTTP/1.1\r\nContent-Length: 4096\r\n\r\n{body}")?;
    let wanted = format!(in alloc; "POST / 1.1 content-length=4096 ({body}), Ended")?;
    reads(&rt, alloc, bytes.as_bytes(), wanted.as_str())
}

// The same in one chunk, and a byte more in a second one.
#[test]
fn the_longest_chunks(rt: HostRuntime) -> Result<(), Fail> {
    let alloc = rt.alloc();
    let body = "a".repeat(alloc, 4096)?;
    let head = "POST / HTTP/1.1\r\nTransfer-Encoding: chunked\r\n\r\n";
    let whole = format!(in alloc; "{head}1000\r\n{body}\r\n0\r\n\r\n")?;
    let wanted = format!(in alloc; "POST / 1.1 transfer-encoding=chunked ({body}), Ended")?;
    reads(&rt, alloc, whole.as_bytes(), wanted.as_str())?;
    let long = format!(in alloc; "{head}1000\r\n{body}\r\n1\r\n")?;
    let wanted = "POST / 1.1 transfer-encoding=chunked too long, Ended";
    reads(&rt, alloc, long.as_bytes(), wanted)
}

// What is behind the head of a body that is too long is not read as its body.
#[test]
fn a_longer_body(rt: HostRuntime) -> Result<(), Fail> {
    let bytes = b"POST / HTTP/1.1\r\nContent-Length: 4097\r\n\r\n\r\n";
    let wanted = "POST / 1.1 content-length=4097 too long, Ended";
    reads(&rt, rt.alloc(), bytes, wanted)
}

// The numbers of so many calls, from that one.
fn calls(alloc: Global, first: u64, count: u64) -> Result<Vec<u64>, AllocError> {
    let mut numbers = Vec::new(alloc);
    for i in 0..count {
        numbers.push(first.saturating_add(i))?;
    }
    Ok(numbers)
}

// Compares what is read of a request where so many reads from that one have nothing.
fn lulls(rt: &impl Abort, alloc: Global, first: u64, count: u64, wanted: &str) -> Result<(), Fail> {
    let bytes = Vec::from_slice(alloc, b"GET / HTTP/1.1\r\n\r\nGET")?;
    let mut wire = ListWire::new(alloc, bytes, Vec::new(alloc), calls(alloc, first, count)?);
    assert_eq!(rt; read_all(alloc, &mut wire)?.as_str(), wanted);
    Ok(())
}

#[test]
fn a_wire_has_nothing(rt: HostRuntime) -> Result<(), Fail> {
    let alloc = rt.alloc();
    lulls(&rt, alloc, 1, 999, "GET / 1.1 (), Truncated")?;
    lulls(&rt, alloc, 1, 1000, "Idle")?;
    lulls(&rt, alloc, 2, 999, "GET / 1.1 (), Truncated")?;
    lulls(&rt, alloc, 2, 1000, "GET / 1.1 (), Idle")
}

#[test]
fn a_read_fails(rt: HostRuntime) -> Result<(), Fail> {
    let alloc = rt.alloc();
    let bytes = Vec::from_slice(alloc, b"GET / HTTP/1.1\r\n\r\nGET")?;
    let mut wire = ListWire::new(alloc, bytes, calls(alloc, 2, 1)?, Vec::new(alloc));
    assert_eq!(rt;
        read_all(alloc, &mut wire)?.as_str(),
        "GET / 1.1 (), ReadFault"
    );
    Ok(())
}
