//! Numbers and tokens in lower-case hexadecimal digits.
ghost use Rattle.std.specs.Prelude.{◌≡◌, ◌≤◌, false, drop, length};
ghost use Rattle.std.specs.Fmt.{digits};
ghost use Rattle.schedule_text.specs.Words.{token_word, trimmed};

use crate::digits::glyph;
use push_model::Token;
use std::marker::Model;
use std::{fmt, str};

/// The digits of a number, without zeros in front. Contracts see these bytes.
pub struct HexText {
    digits: [u8; 32],
    start: usize,
}

impl Drop for HexText {
    fn drop(self) {
        let HexText {
            digits: _,
            start: _,
        } = self;
    }
}

impl Model for HexText {
    ghost use Rattle.std.specs.Prelude.{List, ℕ, ◌≤◌, drop};

    ghost Value = { List ℕ };

    ghost view = { λ t. drop t.start t.digits };

    ghost invariant = { λ t. t.start ≤ 32 };
}

impl HexText {
    /// The digits of that number.
    pub fn of(number: u128) -> HexText
        ensures { result ≡ digits 16 false number }
    {
        let mut digits = [b'0'; 32];
        let mut start = 32;
        let mut rest = number;
        while rest >= 16 {
            start -= 1;
            digits[start] = glyph((rest % 16) as u8);
            rest /= 16;
        }
        start -= 1;
        digits[start] = glyph(rest as u8);
        HexText { digits, start }
    }

    /// From 1 to 32 digits.
    pub fn bytes(&self) -> &[u8]
        ensures { result.now ≡ self.now }
    {
        &self.digits[self.start..]
    }
}

/// How many zeros stand in front. The last digit is none of them.
fn zeros_in_front(digits: &[u8]) -> usize
    ensures rest { drop result digits.now ≡ trimmed digits.now }
    ensures within { result ≤ length digits.now }
{
    let mut zeros = 0;
    while zeros + 1 < digits.len() {
        if digits[zeros] != b'0' {
            return zeros;
        }
        zeros += 1;
    }
    zeros
}

/// The digits of a token, two a byte, without zeros in front. Contracts see these bytes.
pub struct TokenText {
    digits: [u8; 48],
}

impl Drop for TokenText {
    fn drop(self) {
        let TokenText { digits: _ } = self;
    }
}

impl Model for TokenText {
    ghost use Rattle.std.specs.Prelude.{List, ℕ};
    ghost use Rattle.schedule_text.specs.Words.{trimmed};

    ghost Value = { List ℕ };

    ghost view = { λ t. trimmed t.digits };
}

impl TokenText {
    /// The digits of that token.
    pub fn of(token: &Token) -> TokenText
        ensures { result ≡ token_word token.now }
    {
        let mut digits = [b'0'; 48];
        let written = hex::encode_to_slice(&token.0[..], &mut digits);
        prove!(written.is_ok());
        TokenText { digits }
    }

    /// From 1 to 48 digits.
    pub fn bytes(&self) -> &[u8]
        ensures { result.now ≡ self.now }
    {
        &self.digits[zeros_in_front(&self.digits)..]
    }
}

/// A number that `{}` writes in hexadecimal digits.
#[derive(Clone, Copy)]
pub struct Hex(pub u128);

impl fmt::Display for Hex {
    ghost use Rattle.std.specs.Prelude.{Some};
    ghost use Rattle.schedule_text.specs.Words.{hex};

    ghost output = { λ h. Some (hex h.0) };

    fn fmt<W: fmt::Write>(&self, f: &mut fmt::Formatter<W>) -> fmt::Result {
        let text = HexText::of(self.0);
        match str::from_utf8(text.bytes()) {
            Ok(digits) => write!(f, "{digits}"),
            Err(_) => Err(fmt::Error),
        }
    }
}

/// A token that `{}` writes in hexadecimal digits.
#[derive(Clone, Copy)]
pub struct TokenWord(pub Token);

impl fmt::Display for TokenWord {
    ghost use Rattle.std.specs.Prelude.{Some};
    ghost use Rattle.schedule_text.specs.Words.{token_word};

    ghost output = { λ w. Some (token_word w.0) };

    fn fmt<W: fmt::Write>(&self, f: &mut fmt::Formatter<W>) -> fmt::Result {
        let text = TokenText::of(&self.0);
        match str::from_utf8(text.bytes()) {
            Ok(digits) => write!(f, "{digits}"),
            Err(_) => Err(fmt::Error),
        }
    }
}
