//! What the head of a push request asks for, and its path.

use crate::support::wire_of;
use http_wire::{Body, Request, Rest, next_request};
use push_headers::{check_head, read_ask};
use push_model::{Coding, Terms};
use push_paths::Paths;
use std::alloc::Global;
use std::process::Abort;
use std::str::from_utf8;
use std::test::Fail;

// The request with these lines, and with the body `hi` where they say a length of 2.
fn request_with(alloc: Global, lines: &str) -> Result<Request, Fail> {
    let bytes = format!(in alloc; "POST / HTTP/1.1\r\n{lines}\r\n\r\nhi")?;
    let mut wire = wire_of(alloc, bytes.as_bytes())?;
    Ok(next_request(alloc, &mut wire, &mut Rest::new(alloc))?)
}

// The terms as words: the ttl, the topic, the urgency and the coding.
fn show_terms(alloc: Global, terms: &Terms) -> Result<String, Fail> {
    let topic = match &terms.topic {
        Some(topic) => from_utf8(topic.bytes())?,
        None => ".",
    };
    let ttl = terms.ttl;
    let urgency = terms.urgency;
    let coding = terms.coding;
    Ok(format!(in alloc; "{ttl} {topic} {urgency:?} {coding:?}")?)
}

fn show_head(alloc: Global, lines: &str) -> Result<String, Fail> {
    let request = request_with(alloc, lines)?;
    match check_head(&request.head) {
        Ok(terms) => show_terms(alloc, &terms),
        Err(fault) => Ok(format!(in alloc; "{fault:?}")?),
    }
}

// Each row, behind a bar, has lines of a head, and what they ask for.
fn asks(rt: &impl Abort, alloc: Global, rows: &str) -> Result<(), Fail> {
    for row in rows.split('|') {
        let (lines, wanted) = row.split_once(" > ").ok_or("lines and what they ask for")?;
        assert_eq!(rt; show_head(alloc, lines)?.as_str(), wanted, "{lines}");
    }
    Ok(())
}

const TTLS: &str = "TTL: 0 > 0 . Normal Bare|\
    TTL: 0060 > 60 . Normal Bare|\
    TTL: 2592000 > 2592000 . Normal Bare|\
    TTL: 2592001 > 2592000 . Normal Bare|\
    TTL: 99999999999999999999999 > 2592000 . Normal Bare|\
    Topic: + > MissingTtl|\
    TTL: -1 > BadTtl|\
    TTL: > BadTtl|\
    TTL: 1 2\r\nTopic: + > BadTtl|\
    TTL: 60\r\nttl: 60 > BadTtl";

#[test]
fn ttls(rt: HostRuntime) -> Result<(), Fail> {
    asks(&rt, rt.alloc(), TTLS)
}

const TOPICS: &str = "TTL: 60\r\nTopic: a > 60 a Normal Bare|\
    TTL: 60\r\nTopic: AZaz-_0123456789abcdefghijklmnop > 60 AZaz-_0123456789abcdefghijklmnop Normal Bare|\
    TTL: 60\r\nTopic: AZaz-_0123456789abcdefghijklmnopq > BadTopic|\
    TTL: 60\r\nTopic: > BadTopic|\
    TTL: 60\r\nTopic: a=\r\nUrgency: none > BadTopic|\
    TTL: 60\r\nTopic: a\r\nTopic: a > BadTopic";

#[test]
fn topics(rt: HostRuntime) -> Result<(), Fail> {
    asks(&rt, rt.alloc(), TOPICS)
}

const URGENCIES: &str = "TTL: 60\r\nUrgency: Very-Low > 60 . VeryLow Bare|\
    TTL: 60\r\nUrgency: low > 60 . Low Bare|\
    TTL: 60\r\nUrgency: normal > 60 . Normal Bare|\
    TTL: 60\r\nUrgency: high > 60 . High Bare|\
    TTL: 60\r\nUrgency: urgent\r\nContent-Length: 2 > BadUrgency|\
    TTL: 60\r\nUrgency: low\r\nUrgency: low > BadUrgency";

#[test]
fn urgencies(rt: HostRuntime) -> Result<(), Fail> {
    asks(&rt, rt.alloc(), URGENCIES)
}

const CODINGS: &str =
    "TTL: 60\r\nContent-Length: 2\r\nContent-Encoding: aes128gcm > 60 . Normal Aes128gcm|\
    TTL: 60\r\nContent-Length: 2\r\nContent-Encoding: AESGCM > 60 . Normal Aesgcm|\
    TTL: 60\r\nContent-Encoding: gzip > 60 . Normal Bare|\
    TTL: 60\r\nContent-Length: 2 > BadEncoding|\
    TTL: 60\r\nContent-Length: 2\r\nContent-Encoding: gzip > BadEncoding|\
    TTL: 60\r\nEncryption: a\r\nEncryption: a > BadEncoding|\
    TTL: 60\r\nCrypto-Key: \u{e9} > BadEncoding";

#[test]
fn codings(rt: HostRuntime) -> Result<(), Fail> {
    asks(&rt, rt.alloc(), CODINGS)
}

#[test]
fn parameters_have_1024_bytes(rt: HostRuntime) -> Result<(), Fail> {
    let alloc = rt.alloc();
    let salt = "s".repeat(alloc, 1024)?;
    let lines = format!(in alloc; "TTL: 60\r\nEncryption: {salt}")?;
    assert_eq!(rt;
        show_head(alloc, lines.as_str())?.as_str(),
        "60 . Normal Bare"
    );
    let lines = format!(in alloc; "TTL: 60\r\nEncryption: {salt}s")?;
    assert_eq!(rt; show_head(alloc, lines.as_str())?.as_str(), "BadEncoding");
    Ok(())
}

const DRAFT: &str =
    "TTL: 60\r\nContent-Length: 2\r\nContent-Encoding: aesgcm\r\nEncryption: salt=a\r\nCrypto-Key: dh=b";

#[test]
fn an_ask(rt: HostRuntime) -> Result<(), Fail> {
    let alloc = rt.alloc();
    let Request { head, body } = request_with(alloc, DRAFT)?;
    let Body::Bytes(payload) = body else {
        return Err(Fail::from("a short body"));
    };
    if payload.bytes().is_empty() || payload.bytes().len() > 4096 || head.body_empty() {
        return Err(Fail::from("a body of 1 to 4096 bytes"));
    }
    let ask = read_ask(alloc, &head, payload)?;
    assert!(rt; matches!(ask.terms.coding, Coding::Aesgcm));
    assert_eq!(rt; ask.encryption.bytes(), b"salt=a".as_slice());
    assert_eq!(rt; ask.crypto_key.bytes(), b"dh=b".as_slice());
    assert_eq!(rt; ask.payload.bytes(), b"hi".as_slice());
    Ok(())
}

#[test]
fn paths(rt: HostRuntime) -> Result<(), Fail> {
    let paths = Paths::new(rt.alloc())?;
    for (target, token) in [
        ("/wpush/v1/a%2F", Some("a%2F")),
        ("/wpush/v1/a?b/c?d", Some("a")),
        ("/wpush/v1/", None),
        ("/wpush/v1/?a", None),
        ("/wpush/v1/a/", None),
        ("/wpush/v2/a", None),
        ("http://localhost/wpush/v1/a", None),
        ("*", None),
    ] {
        let found = paths.token(target.as_bytes());
        assert!(rt; found == token.map(|text| text.as_bytes()), "{target}");
    }
    Ok(())
}
