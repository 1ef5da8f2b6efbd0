//! The bytes of a message, as they come in.
ghost use Rattle.std.specs.Prelude.{All, length};
ghost use Rattle.httparse.specs.Spans.{IsHeaderWithin};
ghost use Rattle.http_bytes.specs.Forms.{IsHeadFound};

use http_bytes::{Form, HeadForm, LineForm, Look, TrailerForm, read_number};
use httparse::spans::{HeaderSpan, RequestSpans};
use std::alloc::{AllocError, Global};

/// How many bytes are read of a connection before it is given anyway.
const LIMIT: usize = 16_384;
/// The longest body of a told length that is waited for, in bytes. A longer one is refused by its head.
const BODY: u64 = 4_096;
/// How many bytes follow the data of a chunk.
const LINE_END: usize = 2;
/// An end of a part shows in the bytes that are new and so many before them.
const OVERLAP: usize = 4;

/// A part of a message (RFC 9112, sections 2 and 7.1).
#[derive(Clone, Copy, Debug, PartialEq, Eq)]
enum Part {
    Head,
    /// The line before a chunk.
    ChunkLine,
    Trailers,
    /// What follows the message.
    Next,
}

/// What a look at a part found.
#[derive(Clone, Copy, Debug, PartialEq, Eq)]
enum Seen {
    /// It isn't whole.
    Open,
    /// That part follows, so many bytes further on.
    Then(Part, usize),
    /// The bytes are no message, or one that is refused by its head.
    Refused,
}

/// What was read of a connection that no wire has.
#[derive(Drop)]
pub(crate) struct Incoming {
    bytes: Vec<u8>,
    /// So many bytes were looked at.
    seen: usize,
    /// The part that isn't whole, and where it begins.
    part: Part,
    at: usize,
}

impl Incoming {
    pub(crate) fn new(alloc: Global) -> Incoming {
        Incoming {
            bytes: Vec::new(alloc),
            seen: 0,
            part: Part::Head,
            at: 0,
        }
    }

    /// Puts these bytes behind the others.
    pub(crate) fn push(&mut self, piece: &[u8]) -> Result<(), AllocError> {
        self.bytes.extend_from_slice(piece)
    }

    /// Whether a reader can go on without waiting: a message is there to its end, or it is none, or there are too many bytes.
    pub(crate) fn is_whole(&mut self) -> bool {
        // (each part but the last has a byte or more)
        for _ in 0..=LIMIT {
            if self.bytes.len() > LIMIT || self.part == Part::Next && self.at <= self.bytes.len() {
                return true;
            }
            match self.look() {
                Seen::Open => {
                    self.seen = self.bytes.len();
                    return false;
                }
                Seen::Then(part, length) => {
                    self.part = part;
                    self.at = self.at.saturating_add(length);
                }
                Seen::Refused => return true,
            }
        }
        true
    }

    // Looks at the part that isn't whole.
    fn look(&self) -> Seen {
        let Some(bytes) = self.bytes.get(self.at..) else {
            return Seen::Open;
        };
        let from = self.seen.max(self.at).saturating_sub(OVERLAP);
        let news = self.bytes.get(from..).unwrap_or(&[]);
        match self.part {
            Part::Head => look_at_head(bytes, news),
            Part::ChunkLine => look_at_chunk(bytes, news),
            Part::Trailers => look_at_trailers(bytes),
            Part::Next => Seen::Open,
        }
    }

    /// Takes out the bytes.
    pub(crate) fn take(&mut self, alloc: Global) -> Vec<u8> {
        let mut bytes = Vec::new(alloc);
        std::mem::swap(&mut bytes, &mut self.bytes);
        self.seen = 0;
        self.part = Part::Head;
        self.at = 0;
        bytes
    }
}

fn look_at_head(bytes: &[u8], news: &[u8]) -> Seen {
    let mut form = HeadForm::new();
    if !form.may_end(news) {
        return Seen::Open;
    }
    match form.look(bytes) {
        Look::Whole(found) => behind_head(bytes, &form.lines, &found),
        Look::Part => Seen::Open,
        Look::Bad => Seen::Refused,
    }
}

// What follows a head whose parts stand at these places.
fn behind_head(bytes: &[u8], lines: &[HeaderSpan], found: &RequestSpans) -> Seen
    requires { IsHeadFound lines.now found.now bytes.now }
{
    behind_lines(bytes, &lines[..found.headers], found.len)
}

// What follows a head that ends there, by its lines. One that tells of its body twice is refused.
fn behind_lines(bytes: &[u8], lines: &[HeaderSpan], end: usize) -> Seen
    requires { All (IsHeaderWithin (length bytes.now)) lines.now }
{
    let mut told = None;
    for line in lines {
        let value = line.value.of(bytes);
        if let Some(behind) = behind_line(line.name.of(bytes), value, end) {
            if told.is_some() {
                return Seen::Refused;
            }
            told = Some(behind);
        }
    }
    told.unwrap_or(Seen::Then(Part::Next, end))
}

// What follows a head that ends there, where this line tells of its body.
fn behind_line(name: &[u8], value: &[u8], end: usize) -> Option<Seen> {
    if name.eq_ignore_ascii_case(b"content-length") {
        return Some(match read_number(value, BODY + 1) {
            Some(count) if count <= BODY => {
                Seen::Then(Part::Next, end.saturating_add(count as usize))
            }
            _ => Seen::Refused,
        });
    }
    if !name.eq_ignore_ascii_case(b"transfer-encoding") {
        return None;
    }
    if value.eq_ignore_ascii_case(b"chunked") {
        Some(Seen::Then(Part::ChunkLine, end))
    } else {
        Some(Seen::Refused)
    }
}

fn look_at_chunk(bytes: &[u8], news: &[u8]) -> Seen {
    let mut form = LineForm;
    if !form.may_end(news) {
        return Seen::Open;
    }
    match form.look(bytes) {
        Look::Whole((length, 0)) => Seen::Then(Part::Trailers, length),
        Look::Whole((length, size)) if size <= BODY => Seen::Then(
            Part::ChunkLine,
            length
                .saturating_add(size as usize)
                .saturating_add(LINE_END),
        ),
        Look::Part => Seen::Open,
        Look::Whole(_) | Look::Bad => Seen::Refused,
    }
}

fn look_at_trailers(bytes: &[u8]) -> Seen {
    match TrailerForm::new().look(bytes) {
        Look::Whole(length) => Seen::Then(Part::Next, length),
        Look::Part => Seen::Open,
        Look::Bad => Seen::Refused,
    }
}
