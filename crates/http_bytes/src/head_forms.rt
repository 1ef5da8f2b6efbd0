//! The forms of a head and of the trailers of a chunked body.
ghost use Rattle.std.specs.Prelude.{◌≡◌};
ghost use Rattle.http_bytes.specs.Forms.{AreTrailersBad, AreTrailersFound, AreTrailersOpen, IsHeadBad, IsHeadFound, IsHeadOpen};

use crate::wait::{Form, Look};
use httparse::Status;
use httparse::spans::{EMPTY_HEADER_SPAN, HeaderSpan, RequestSpans, parse_headers, parse_request};

/// The most lines of a head, and of trailers.
pub const LINES: usize = 100;

// Whether an empty line stands behind another line.
fn has_empty_line(bytes: &[u8]) -> bool {
    let mut ends = 0u8;
    let mut behind = false;
    for b in bytes {
        match *b {
            b'\n' if behind && ends == 1 => return true,
            b'\n' => ends = 1,
            b'\r' => {}
            _ => {
                behind = true;
                ends = 0;
            }
        }
    }
    false
}

/// A request's head (RFC 9112, sections 2 to 5), with at most 100 lines. What is found is where its parts stand.
#[derive(Drop)]
pub struct HeadForm {
    /// Where the lines stand that were found.
    pub lines: [HeaderSpan; LINES],
}

impl HeadForm {
    /// Before the first look.
    pub fn new() -> HeadForm {
        HeadForm {
            lines: [EMPTY_HEADER_SPAN; LINES],
        }
    }
}

impl Form for HeadForm {
    type Found = RequestSpans;

    ghost sought = { λ _. 0 };

    ghost is_found = { λ s r bytes. IsHeadFound s.lines r bytes };

    ghost is_open = { λ _ bytes. IsHeadOpen bytes };

    ghost is_bad = { λ _ bytes. IsHeadBad bytes };

    fn look(&mut self, bytes: &[u8]) -> Look<RequestSpans> {
        match parse_request(bytes, &mut self.lines) {
            Ok(Status::Complete(found)) => Look::Whole(found),
            Ok(Status::Partial) => Look::Part,
            Err(_) => Look::Bad,
        }
    }

    fn may_end(&self, bytes: &[u8]) -> bool {
        has_empty_line(bytes)
    }
}

/// The trailers after the last chunk (RFC 9112, section 7.1.2), with at most 100 lines. What is found is their length.
#[derive(Drop)]
pub struct TrailerForm {
    lines: [HeaderSpan; LINES],
}

impl TrailerForm {
    /// Before the first look.
    pub fn new() -> TrailerForm {
        TrailerForm {
            lines: [EMPTY_HEADER_SPAN; LINES],
        }
    }
}

impl Form for TrailerForm {
    type Found = usize;

    ghost sought = { λ _. 0 };

    ghost is_found = { λ _ len bytes. AreTrailersFound len bytes };

    ghost is_open = { λ _ bytes. AreTrailersOpen bytes };

    ghost is_bad = { λ _ bytes. AreTrailersBad bytes };

    fn look(&mut self, bytes: &[u8]) -> Look<usize> {
        match parse_headers(bytes, &mut self.lines) {
            Ok(Status::Complete((len, _))) => Look::Whole(len),
            Ok(Status::Partial) => Look::Part,
            Err(_) => Look::Bad,
        }
    }

    fn may_end(&self, bytes: &[u8]) -> bool {
        has_empty_line(bytes)
    }
}
