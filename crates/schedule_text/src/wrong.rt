//! What is wrong with a line that spells no step.
ghost use Rattle.std.specs.Prelude.{◌≡◌, true, drop, IfSome};
ghost use Rattle.schedule_text.specs.Wrongs.{HasTwoSpaces, Means, MeansBehind, is_strange};

use crate::digits;
use crate::kind::{Kind, Shape, form, is_kind, is_number, kind_at, noun};
use crate::shape::{shape_of, tagged};
use crate::words::cut;
use std::fmt;

/// What is wrong with a line. Words behind the name are counted from 0.
#[derive(Clone, Copy, Debug, PartialEq, Eq)]
pub enum Wrong {
    /// It is empty.
    Empty,
    /// It begins with a byte order mark.
    Mark,
    /// It has a CR.
    Return,
    /// It has another byte that is no printable character of ASCII.
    Strange,
    /// It begins with a space.
    SpaceInFront,
    /// It ends with a space.
    SpaceBehind,
    /// It has two spaces side by side.
    TwoSpaces,
    /// Its first word names no kind of step.
    Name,
    /// The word behind so many others isn't what it is to be.
    Word(u8, Kind),
    /// The same, of a number that is out of range.
    Range(u8, Kind),
    /// The word behind so many others isn't there.
    Missing(u8, Kind),
    /// The word behind so many others is one too many.
    Extra(u8),
    /// None of these was found.
    Unclear,
}

/// The word behind so many others behind the name, which is word 1.
#[derive(Clone, Copy)]
struct Place(u8);

impl fmt::Display for Place {
    ghost use Rattle.std.specs.Prelude.{Some};
    ghost use Rattle.schedule_text.specs.Wrongs.{place_text};

    ghost output = { λ p. Some (place_text p.0) };

    fn fmt<W: fmt::Write>(&self, f: &mut fmt::Formatter<W>) -> fmt::Result {
        let place: u8 = self.0;
        let number = u16::from(place) + 2;
        write!(f, "word {number}")
    }
}

/// That word, and what it is to be.
#[derive(Clone, Copy)]
struct The(u8, Kind);

impl fmt::Display for The {
    ghost use Rattle.std.specs.Prelude.{Some};
    ghost use Rattle.schedule_text.specs.Wrongs.{the_text};

    ghost output = { λ t. Some (the_text t.0 t.1) };

    fn fmt<W: fmt::Write>(&self, f: &mut fmt::Formatter<W>) -> fmt::Result {
        let place: u8 = self.0;
        let kind = self.1;
        write!(f, "{}, the {} ({})", Place(place), noun(kind), form(kind))
    }
}

impl fmt::Display for Wrong {
    ghost use Rattle.std.specs.Prelude.{Some};
    ghost use Rattle.schedule_text.specs.Wrongs.{wrong_text};

    ghost output = { λ w. Some (wrong_text w) };

    fn fmt<W: fmt::Write>(&self, f: &mut fmt::Formatter<W>) -> fmt::Result {
        match *self {
            Wrong::Empty => write!(f, "it is empty"),
            Wrong::Mark => write!(f, "a byte order mark stands in front"),
            Wrong::Return => write!(f, "it has a CR; LF alone ends a line"),
            Wrong::Strange => write!(f, "it has a byte that is no printable ASCII"),
            Wrong::SpaceInFront => write!(f, "a space stands in front"),
            Wrong::SpaceBehind => write!(f, "a space stands behind"),
            Wrong::TwoSpaces => write!(f, "two spaces stand side by side"),
            Wrong::Name => write!(f, "word 1 names no kind of step"),
            Wrong::Word(place, kind) => {
                write!(f, "{} is no {}: {}", Place(place), noun(kind), form(kind))
            }
            Wrong::Range(place, kind) => write!(f, "{}, is out of range", The(place, kind)),
            Wrong::Missing(place, kind) => write!(f, "{}, is missing", The(place, kind)),
            Wrong::Extra(place) => write!(f, "{} is one too many", Place(place)),
            Wrong::Unclear => write!(f, "it is outside the grammar"),
        }
    }
}

fn has_two_spaces(line: &[u8]) -> bool
    ensures { result ≡ true → HasTwoSpaces line.now }
{
    let mut before = 0;
    for byte in line {
        if *byte == b' ' && before == b' ' {
            return true;
        }
        before = *byte;
    }
    false
}

fn is_strange(byte: u8) -> bool
    ensures { result ≡ is_strange byte }
{
    byte < b' ' || byte > b'~'
}

// What is wrong with its bytes.
fn wrong_bytes(line: &[u8]) -> Option<Wrong>
    ensures { IfSome result (λ w. Means w line.now) }
{
    if line.is_empty() {
        return Some(Wrong::Empty);
    }
    if line.len() >= 3 && line[..3] == b"\xef\xbb\xbf"[..] {
        return Some(Wrong::Mark);
    }
    if line.contains(&b'\r') {
        return Some(Wrong::Return);
    }
    if line.iter().any(|byte| is_strange(*byte)) {
        return Some(Wrong::Strange);
    }
    if line[0] == b' ' {
        return Some(Wrong::SpaceInFront);
    }
    if line[line.len() - 1] == b' ' {
        return Some(Wrong::SpaceBehind);
    }
    if has_two_spaces(line) {
        return Some(Wrong::TwoSpaces);
    }
    None
}

fn behind_space(rest: &[u8]) -> &[u8]
    ensures { result.now ≡ drop 1 rest.now }
{
    match rest {
        [] => rest,
        [_, behind @ ..] => behind,
    }
}

// What is wrong with the words behind the name, from the space in front of them on.
fn wrong_behind(shape: Shape, words: &[u8]) -> Wrong
    ensures { MeansBehind result shape words.now }
{
    let mut rest = words;
    for place in 0..8u8 {
        let Some(kind) = kind_at(shape, usize::from(place)) else {
            if rest.is_empty() {
                return Wrong::Unclear;
            }
            return Wrong::Extra(place);
        };
        if rest.is_empty() {
            return Wrong::Missing(place, kind);
        }
        let (word, behind) = cut(behind_space(rest));
        if !is_kind(kind, word) {
            if is_number(kind) && digits::are_decimal(word) {
                return Wrong::Range(place, kind);
            }
            return Wrong::Word(place, kind);
        }
        rest = behind;
    }
    Wrong::Unclear
}

fn wrong_words(line: &[u8]) -> Wrong
    ensures { Means result line.now }
{
    let (name, rest) = cut(line);
    let Some(shape) = shape_of(name) else {
        return Wrong::Name;
    };
    let (tag, _) = cut(behind_space(rest));
    wrong_behind(tagged(shape, tag), rest)
}

/// What is wrong with the line, where it spells no step.
pub fn what_is_wrong(line: &[u8]) -> Wrong
    ensures { Means result line.now }
{
    match wrong_bytes(line) {
        Some(wrong) => wrong,
        None => wrong_words(line),
    }
}
