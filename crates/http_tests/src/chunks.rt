//! Chunked bodies.

use crate::support::reads;
use std::alloc::Global;
use std::process::Abort;
use std::test::Fail;

// Compares what is read where these bytes stand behind the head of a chunked body.
fn behind_head(rt: &impl Abort, alloc: Global, text: &str, wanted: &str) -> Result<(), Fail> {
    let bytes = format!(in alloc; "POST / HTTP/1.1\r\nTransfer-Encoding: Chunked\r\n\r\n{text}")?;
    let wanted = format!(in alloc; "POST / 1.1 transfer-encoding=Chunked {wanted}")?;
    reads(rt, alloc, bytes.as_bytes(), wanted.as_str())
}

#[test]
fn chunks_are_joined(rt: HostRuntime) -> Result<(), Fail> {
    let text =
        "2;a=\"b\"\r\nhi\r\n01\r\n!\r\n0\r\nTrailer: passed over\r\n\r\n\r\nGET / HTTP/1.1\r\n\r\n";
    behind_head(&rt, rt.alloc(), text, "(hi!), GET / 1.1 (), Ended")
}

#[test]
fn no_chunk(rt: HostRuntime) -> Result<(), Fail> {
    behind_head(&rt, rt.alloc(), "0\r\n\r\n", "(), Ended")
}

// The size of a chunk says that the body is too long, and what is behind it is not read as the body's.
#[test]
fn a_chunk_too_long(rt: HostRuntime) -> Result<(), Fail> {
    behind_head(&rt, rt.alloc(), "1001\r\n", "too long, Ended")?;
    behind_head(&rt, rt.alloc(), "2\r\nhi\r\nFFF\r\n\r\n", "too long, Ended")
}

// Cut in a size line, in data, in front of the line end behind data, and in trailers.
const CUT: &str = "2|2;\r|2\r\nh|2\r\nhi|2\r\nhi\r|0\r\n|0\r\nA: b\r\n";

#[test]
fn a_chunked_body_is_cut(rt: HostRuntime) -> Result<(), Fail> {
    let alloc = rt.alloc();
    for text in CUT.split('|') {
        let bytes = format!(in alloc;
            "POST / HTTP/1.1\r\nTransfer-Encoding: chunked\r\n\r\n{text}"
        )?;
        reads(&rt, alloc, bytes.as_bytes(), "Truncated")?;
    }
    Ok(())
}
