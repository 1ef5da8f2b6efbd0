//! Requests that are malformed, whatever follows.

use crate::support::reads;
use std::alloc::Global;
use std::process::Abort;
use std::test::Fail;

// Each of these texts, which stand between bars, is malformed, also where it comes byte by byte.
fn are_malformed(rt: &impl Abort, alloc: Global, texts: &str) -> Result<(), Fail> {
    for text in texts.split('|') {
        reads(rt, alloc, text.as_bytes(), "BadHead")?;
    }
    Ok(())
}

// No version; an unknown one; a NUL in a value; a folded line; a space before the colon; a name that is none; a line
// without a colon.
const HEADS: &str = "GET /\r\n\r\n|\
    GET / HTTP/2.0\r\n\r\n|\
    GET / HTTP/1.1\r\nA: b\0c\r\n\r\n|\
    GET / HTTP/1.1\r\nA: b\r\n c\r\n\r\n|\
    GET / HTTP/1.1\r\nA : b\r\n\r\n|\
    GET / HTTP/1.1\r\nA@: b\r\n\r\n|\
    GET / HTTP/1.1\r\nA\r\n\r\n";

#[test]
fn heads(rt: HostRuntime) -> Result<(), Fail> {
    are_malformed(&rt, rt.alloc(), HEADS)
}

// Two lengths, also equal ones; a length and a coding; two codings, in two lines and in one; another coding; lengths with
// a sign, of no digits, of two words, and of 2^63.
const FRAMINGS: &str = "POST / HTTP/1.1\r\nContent-Length: 2\r\nContent-Length: 2\r\n\r\n|\
    POST / HTTP/1.1\r\nContent-Length: 2\r\nTransfer-Encoding: chunked\r\n\r\n|\
    POST / HTTP/1.0\r\nTransfer-Encoding: chunked\r\nTransfer-Encoding: chunked\r\n\r\n|\
    POST / HTTP/1.1\r\nTransfer-Encoding: chunked, chunked\r\n\r\n|\
    POST / HTTP/1.1\r\nTransfer-Encoding: gzip\r\n\r\n|\
    POST / HTTP/1.1\r\nContent-Length: +2\r\n\r\n|\
    POST / HTTP/1.1\r\nContent-Length:\r\n\r\n|\
    POST / HTTP/1.1\r\nContent-Length: 2, 2\r\n\r\n|\
    POST / HTTP/1.1\r\nContent-Length: 9223372036854775808\r\n\r\n";

#[test]
fn framings(rt: HostRuntime) -> Result<(), Fail> {
    are_malformed(&rt, rt.alloc(), FRAMINGS)
}

// Behind the head of a chunked body: a size of 17 digits, of none and of another letter; data that goes on; trailers that
// are none.
const CHUNKS: &str =
    "00000000000000001\r\n|;a\r\n|g\r\n|2\r\nhi!|2\r\nhi\r!|0\r\nA b\r\n\r\n|0\r\nA: b\0\r\n\r\n";

#[test]
fn chunks(rt: HostRuntime) -> Result<(), Fail> {
    let alloc = rt.alloc();
    for text in CHUNKS.split('|') {
        let bytes = format!(in alloc;
            "POST / HTTP/1.1\r\nTransfer-Encoding: chunked\r\n\r\n{text}"
        )?;
        reads(&rt, alloc, bytes.as_bytes(), "BadHead")?;
    }
    Ok(())
}
