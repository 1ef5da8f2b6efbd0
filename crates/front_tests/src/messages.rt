//! Messages that are taken.

use crate::support::{Front, TARGET, answers, session};
use http_bytes::WireFault;
use http_front::HttpEnd;
use push_model::{Coding, Reply, Step};
use std::alloc::Global;
use std::process::Abort;
use std::test::Fail;

/// What is answered to the first message.
const FIRST: &str =
    "HTTP/1.1 201 Created\r\nContent-Length: 0\r\nLocation: /m/00-0000000000000001\r\nTTL: 60\r\n\r\n";

// Compares the one message that the session takes.
fn takes(rt: &impl Abort, alloc: Global, front: &mut Front, payload: &[u8]) -> Result<(), Fail> {
    let Reply::Page(page) = front.make(alloc, Step::TakeDirect(session()?))? else {
        return Err(Fail::from("a page"));
    };
    if page.len() != 1 {
        return Err(Fail::from("one message"));
    }
    let message = page.at(0);
    assert_eq!(rt; message.ask.payload.bytes(), payload);
    assert!(rt; matches!(message.ask.terms.coding, Coding::Aes128gcm));
    assert_eq!(rt; message.accepted.seconds(), 1000);
    Ok(())
}

#[test]
fn a_message_comes_to_its_session(rt: HostRuntime) -> Result<(), Fail> {
    let alloc = rt.alloc();
    let mut front = Front::new(alloc)?;
    let bytes = format!(in alloc;
        "POST {TARGET} HTTP/1.1\r\nTTL: 60\r\nContent-Encoding: aes128gcm\r\nContent-Length: 3\r\n\r\n\x00hi"
    )?;
    let talked = front.talk(alloc, bytes.as_bytes())?;
    assert_eq!(rt; talked.wire.written(), FIRST.as_bytes());
    assert_eq!(rt; talked.end, HttpEnd::Fault(WireFault::Ended));
    assert_eq!(rt; front.next(), 1);
    takes(&rt, alloc, &mut front, b"\x00hi")
}

#[test]
fn two_requests_in_one_piece(rt: HostRuntime) -> Result<(), Fail> {
    let alloc = rt.alloc();
    let bytes = format!(in alloc;
        "POST {TARGET} HTTP/1.1\r\nTTL: 60\r\n\r\nPOST {TARGET}?a=b HTTP/1.1\r\nTTL: 5\r\n\r\n"
    )?;
    let wanted = format!(in alloc;
        "{FIRST}HTTP/1.1 201 Created\r\nContent-Length: 0\r\nLocation: /m/00-0000000000000002\r\nTTL: 5\r\n\r\n"
    )?;
    answers(
        &rt,
        alloc,
        bytes.as_str(),
        wanted.as_str(),
        HttpEnd::Fault(WireFault::Ended),
    )
}

#[test]
fn a_chunked_body(rt: HostRuntime) -> Result<(), Fail> {
    let alloc = rt.alloc();
    let bytes = format!(in alloc;
        "POST {TARGET} HTTP/1.1\r\nTTL: 60\r\nContent-Encoding: aesgcm\r\nTransfer-Encoding: chunked\r\n\r\n2\r\nhi\r\n0\r\n\r\n"
    )?;
    answers(
        &rt,
        alloc,
        bytes.as_str(),
        FIRST,
        HttpEnd::Fault(WireFault::Ended),
    )
}
