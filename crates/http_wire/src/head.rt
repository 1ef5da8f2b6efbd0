//! The head of a request.
ghost use Rattle.std.specs.Prelude.{◌≡◌, ◌<◌, ◌++◌, length, map, All, IfOk, IsUtf8, Some, slice_get};
ghost use Rattle.std.specs.Str.{str_to_ascii_lowercase};
ghost use Rattle.httparse.specs.Spans.{IsHeaderWithin, IsWithin};
ghost use Rattle.http_bytes.specs.Forms.{IsHeadFound};
ghost use Rattle.http_wire.specs.Heads.{head_at, line_at, lines_at, IsLone, values_of};
ghost use Rattle.http_wire.specs.Texts.{Adds, Grows, line_in, lines_in};

use httparse::spans::{HeaderSpan, RequestSpans, Span};
use push_model::NoMemory;
use std::alloc::Global;
use std::marker::Model;

/// The head of a request: its method, its target, its lines in order, its minor version (0 or 1), and whether its body
/// is empty. A line's name is in lower case, and its value has no space or tab at either end.
#[derive(Debug, Drop)]
pub struct Head {
    /// All texts of the head, one behind the other.
    texts: Vec<u8>,
    method: Span,
    target: Span,
    lines: Vec<HeaderSpan>,
    minor: u8,
    body_empty: bool,
}

impl Model for Head {
    ghost use Rattle.std.specs.Prelude.{length, All, IsUtf8};
    ghost use Rattle.httparse.specs.Spans.{span_bytes, IsHeaderWithin, IsWithin};
    ghost use Rattle.http_wire.specs.HeadValue.{HeadValue};
    ghost use Rattle.http_wire.specs.Texts.{lines_in};

    ghost Value = { HeadValue };

    ghost view = { λ h. record { method = span_bytes h.texts.items h.method; target = span_bytes h.texts.items h.target; lines = lines_in h.texts.items h.lines.items; minor = h.minor; body_empty = h.body_empty } };

    ghost invariant = { λ h. IsWithin (length h.texts.items) h.method × IsWithin (length h.texts.items) h.target × All (IsHeaderWithin (length h.texts.items)) h.lines.items × IsUtf8 (span_bytes h.texts.items h.target) };
}

/// The values of the lines of one name.
#[derive(Clone, Copy, Debug)]
pub enum Lone<'a> {
    /// There is no such line.
    Absent,
    /// There is one, with this value.
    One(&'a [u8]),
    /// There are two or more.
    Several,
}

// Puts a piece behind the texts, and tells where it stands there.
fn put(texts: &mut Vec<u8>, piece: &[u8]) -> Result<Span, NoMemory>
    ensures { IfOk result (λ at. Adds piece.now texts.old.items texts.new.items at) }
{
    let start = texts.len();
    if texts.extend_from_slice(piece).is_err() {
        return Err(NoMemory);
    }
    Ok(Span {
        start,
        end: texts.len(),
    })
}

// Puts a piece behind the texts in lower case, and tells where it stands there.
fn put_lower(texts: &mut Vec<u8>, piece: &[u8]) -> Result<Span, NoMemory>
    ensures { IfOk result (λ at. Adds (str_to_ascii_lowercase piece.now) texts.old.items texts.new.items at) }
{
    let at = put(texts, piece)?;
    texts[at.start..].make_ascii_lowercase();
    Ok(at)
}

// Puts the line at these places of the bytes behind the texts, and tells where it stands there.
fn put_line(texts: &mut Vec<u8>, bytes: &[u8], span: &HeaderSpan) -> Result<HeaderSpan, NoMemory>
    requires { IsHeaderWithin (length bytes.now) span.now }
    ensures { IfOk result (λ at. Grows texts.old.items texts.new.items × IsHeaderWithin (length texts.new.items) at × (line_in texts.new.items at ≡ line_at bytes.now span.now)) }
{
    let name = put_lower(texts, span.name.of(bytes))?;
    let value = put(texts, span.value.of(bytes))?;
    Ok(HeaderSpan { name, value })
}

// Puts the lines at these places of the bytes behind the texts, and tells where they stand there.
fn put_lines(
    alloc: Global,
    texts: &mut Vec<u8>,
    bytes: &[u8],
    spans: &[HeaderSpan],
) -> Result<Vec<HeaderSpan>, NoMemory>
    requires { All (IsHeaderWithin (length bytes.now)) spans.now }
    ensures { IfOk result (λ lines. Grows texts.old.items texts.new.items × All (IsHeaderWithin (length texts.new.items)) lines.items × (lines_in texts.new.items lines.items ≡ lines_at bytes.now spans.now)) }
{
    let Ok(mut lines) = Vec::with_capacity(alloc, spans.len()) else {
        return Err(NoMemory);
    };
    for span in spans {
        let line = put_line(texts, bytes, span)?;
        if lines.push(line).is_err() {
            return Err(NoMemory);
        }
    }
    Ok(lines)
}

impl Head {
    /// The head whose parts stand at these places of the bytes, with an empty body. It takes memory twice.
    pub(crate) fn copy(
        alloc: Global,
        bytes: &[u8],
        lines: &[HeaderSpan],
        found: &RequestSpans,
    ) -> Result<Head, NoMemory>
        requires { IsHeadFound lines.now found.now bytes.now }
        ensures { IfOk result (λ head. head ≡ head_at bytes.now lines.now found.now) }
    {
        // (the texts are parts of the head)
        let Ok(mut texts) = Vec::with_capacity(alloc, found.len) else {
            return Err(NoMemory);
        };
        let method = put(&mut texts, found.method.of(bytes))?;
        let target = put(&mut texts, found.path.of(bytes))?;
        let lines = put_lines(alloc, &mut texts, bytes, &lines[..found.headers])?;
        Ok(Head {
            texts,
            method,
            target,
            lines,
            minor: found.version,
            body_empty: true,
        })
    }

    /// The same head, with such a body.
    pub(crate) fn with_body(self, body_empty: bool) -> Head
        ensures { result ≡ record self { body_empty = body_empty } }
    {
        Head { body_empty, ..self }
    }

    /// The method.
    pub fn method(&self) -> &[u8]
        ensures { result.now ≡ self.now.method }
    {
        self.method.of(self.texts.as_slice())
    }

    /// The target, as it was sent, which is UTF-8.
    pub fn target(&self) -> &[u8]
        ensures value { result.now ≡ self.now.target }
        ensures text { IsUtf8 self.now.target }
    {
        self.target.of(self.texts.as_slice())
    }

    /// How many lines there are.
    pub fn lines(&self) -> usize
        ensures { result ≡ length self.now.lines }
    {
        self.lines.len()
    }

    /// The name of a line, in lower case, and its value. Lines are counted from 0.
    pub fn line(&self, i: usize) -> (&[u8], &[u8])
        requires { i < length self.now.lines }
        ensures { slice_get self.now.lines i ≡ Some (record { name = result.0.now; value = result.1.now }) }
    {
        let line = self.lines[i];
        let texts = self.texts.as_slice();
        (line.name.of(texts), line.value.of(texts))
    }

    /// The minor version: 0 for HTTP/1.0 and 1 for HTTP/1.1.
    pub fn minor(&self) -> u8
        ensures { result ≡ self.now.minor }
    {
        self.minor
    }

    /// Whether the body is empty.
    pub fn body_empty(&self) -> bool
        ensures { result ≡ self.now.body_empty }
    {
        self.body_empty
    }

    /// The value of the line of that name, which is in lower case, if there is one such line alone. It goes over all lines.
    pub fn find(&self, name: &[u8]) -> Lone<'_>
        ensures { IsLone result (values_of name.now self.now.lines) }
    {
        find_value(self.texts.as_slice(), self.lines.as_slice(), name)
    }
}

// The values of the lines of that name, as long as there are fewer than two.
fn find_value<'a>(texts: &'a [u8], lines: &[HeaderSpan], name: &[u8]) -> Lone<'a>
    requires { All (IsHeaderWithin (length texts.now)) lines.now }
    ensures { IsLone result (values_of name.now (lines_in texts.now lines.now)) }
{
    let mut found = Lone::Absent;
    for line in lines {
        if line.name.of(texts) == name {
            match found {
                Lone::Absent => found = Lone::One(line.value.of(texts)),
                _ => return Lone::Several,
            }
        }
    }
    found
}
