//! How long the body behind a head is (RFC 9112, section 6).
ghost use Rattle.std.specs.Prelude.{◌≡◌};
ghost use Rattle.http_wire.specs.Framings.{framing_of, is_chunked, length_value};

use crate::head::{Head, Lone};
use http_bytes::read_number;

/// How long a body is.
#[derive(Clone, Copy, Debug)]
pub enum Framing {
    /// So many bytes, below 2^63.
    Length(u64),
    /// What its chunks say.
    Chunked,
}

// Past the greatest length.
const END: u64 = 1 << 63;

// A number of digits alone, below 2^63.
fn length_value(text: &[u8]) -> Option<u64>
    ensures { result ≡ length_value text.now }
{
    match read_number(text, END) {
        Some(n) if n < END => Some(n),
        _ => None,
    }
}

fn is_chunked(coding: &[u8]) -> bool
    ensures { result ≡ is_chunked coding.now }
{
    coding.eq_ignore_ascii_case(b"chunked")
}

/// How long the body is, or `None` where the head doesn't say it in one way.
pub fn framing_of(head: &Head) -> Option<Framing>
    ensures { result ≡ framing_of head.now.lines }
{
    match (
        head.find(b"content-length"),
        head.find(b"transfer-encoding"),
    ) {
        (Lone::Absent, Lone::Absent) => Some(Framing::Length(0)),
        (Lone::One(length), Lone::Absent) => Some(Framing::Length(length_value(length)?)),
        (Lone::Absent, Lone::One(coding)) if is_chunked(coding) => Some(Framing::Chunked),
        _ => None,
    }
}
