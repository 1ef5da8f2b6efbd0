//! The parts of which reading and writing are made: numbers, kept bytes, forms, and text on its way out.

use crate::support::wire_of;
use http_bytes::{
    ChunkForm, Filled, Form, HeadForm, LineForm, Outbox, PieceForm, Rest, TrailerForm, WireFault,
    read_number, read_part, wait_for,
};
use http_wire::{Lone, next_request};
use std::alloc::{AllocError, Global};
use std::test::Fail;

#[test]
fn numbers(rt: HostRuntime) {
    for (text, number) in [
        ("0", Some(0)),
        ("0041", Some(41)),
        ("43", Some(42)),
        ("99999999999999999999999", Some(42)),
        ("", None),
        ("4x", None),
        ("-4", None),
    ] {
        assert_eq!(rt; read_number(text.as_bytes(), 42), number, "{text}");
    }
}

#[test]
fn bytes_are_kept(rt: HostRuntime) -> Result<(), Fail> {
    let alloc = rt.alloc();
    let mut wire = wire_of(alloc, b"abc")?;
    let mut rest = Rest::new(alloc);
    assert!(rt; rest.is_empty());
    assert!(rt; matches!(rest.fill(&mut wire), Filled::More));
    assert_eq!(rt; rest.bytes(), b"abc".as_slice());
    assert!(rt; rest.bytes().len() > 2 && !rest.is_full());
    rest.skip(2);
    assert_eq!(rt; rest.bytes(), b"c".as_slice());
    assert!(rt; !rest.is_full());
    assert!(rt; matches!(rest.fill(&mut wire), Filled::End));
    Ok(())
}

// What is found of that form in front of the bytes.
fn found<F: Form>(
    alloc: Global,
    bytes: &[u8],
    form: &mut F,
) -> Result<Result<F::Found, WireFault>, AllocError> {
    let mut wire = wire_of(alloc, bytes)?;
    let mut rest = Rest::new(alloc);
    Ok(read_part(&mut wire, &mut rest, form))
}

#[test]
fn a_size_line(rt: HostRuntime) -> Result<(), Fail> {
    let line = found(rt.alloc(), b"a;x\r\n!", &mut LineForm)?;
    assert_eq!(rt; line, Ok((5, 10)));
    Ok(())
}

#[test]
fn a_chunk(rt: HostRuntime) -> Result<(), Fail> {
    let chunk = found(rt.alloc(), b"hi\r\n!", &mut ChunkForm { size: 2 })?;
    assert_eq!(rt; chunk, Ok(()));
    Ok(())
}

#[test]
fn pieces(rt: HostRuntime) -> Result<(), Fail> {
    let whole = found(rt.alloc(), b"hi!", &mut PieceForm { size: 3 })?;
    assert_eq!(rt; whole, Ok(()));
    let cut = found(rt.alloc(), b"hi", &mut PieceForm { size: 3 })?;
    assert_eq!(rt; cut, Err(WireFault::Truncated));
    Ok(())
}

#[test]
fn trailers(rt: HostRuntime) -> Result<(), Fail> {
    let section = found(rt.alloc(), b"A: b\r\n\r\n!", &mut TrailerForm::new())?;
    assert_eq!(rt; section, Ok(8));
    Ok(())
}

#[test]
fn a_head(rt: HostRuntime) -> Result<(), Fail> {
    let alloc = rt.alloc();
    let mut wire = wire_of(alloc, b"GET /a HTTP/1.1\r\n\r\n!")?;
    let mut rest = Rest::new(alloc);
    match wait_for(&mut wire, &mut rest, &mut HeadForm::new()) {
        Ok(found) => assert_eq!(rt; found.len, 19),
        Err(_) => return Err(Fail::from("a head")),
    }
    assert_eq!(rt; rest.bytes().len(), 20);
    Ok(())
}

#[test]
fn text_on_its_way(rt: HostRuntime) -> Result<(), Fail> {
    let alloc = rt.alloc();
    let mut wire = wire_of(alloc, b"")?;
    let long = "a".repeat(alloc, 600)?;
    let mut out = Outbox::new();
    out.put(&mut wire, b"b");
    assert_eq!(rt; wire.written().len(), 0);
    out.put(&mut wire, long.as_bytes());
    assert_eq!(rt; wire.written().len(), 601);
    out.put(&mut wire, b"c");
    assert_eq!(rt; out.finish(&mut wire), Ok(()));
    assert_eq!(rt; wire.written(), format!(in alloc; "b{long}c")?.as_bytes());
    Ok(())
}

#[test]
fn lines_by_name(rt: HostRuntime) -> Result<(), Fail> {
    let alloc = rt.alloc();
    let mut wire = wire_of(alloc, b"GET / HTTP/1.1\r\nA: 1\r\nB: 2\r\na: 3\r\n\r\n")?;
    let request = next_request(alloc, &mut wire, &mut Rest::new(alloc))?;
    assert!(rt; matches!(request.head.find(b"a"), Lone::Several));
    assert!(rt; matches!(request.head.find(b"b"), Lone::One(b"2")));
    assert!(rt; matches!(request.head.find(b"c"), Lone::Absent));
    assert!(rt; request.head.body_empty());
    assert!(rt; request.body.is_empty());
    Ok(())
}
