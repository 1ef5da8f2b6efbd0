//! What stands in the lines of replies, written behind a text.
ghost use Rattle.std.specs.Prelude.{◌≡◌, ◌≤◌, ◌++◌, OnOk, length, decimal};
ghost use Rattle.std.specs.String.{string_bytes};
ghost use Rattle.hex.specs.Hex.{encode_lower};
ghost use Rattle.schedule_text.specs.Words.{word, hex, token_word, payload_word};

use crate::digits::encode;
use crate::hex_text::{HexText, TokenText};
use itoa::Buffer;
use push_model::{Blob, Token};
use std::alloc::AllocError;
use std::str;

/// How many bytes are spelled together.
const FEW: usize = 128;

/// Writes a space and a word.
pub fn put_word(text: &mut String, last: &str) -> Result<(), AllocError>
    ensures { OnOk result (string_bytes text.new ≡ string_bytes text.old ++ word last.now) }
{
    text.push_str(" ")?;
    text.push_str(last)
}

/// Writes a decimal number.
pub fn push_decimal(text: &mut String, number: u64) -> Result<(), AllocError>
    ensures { OnOk result (string_bytes text.new ≡ string_bytes text.old ++ decimal number) }
{
    let mut buffer = Buffer::new();
    text.push_str(buffer.format(number))
}

/// Writes a space and a decimal number.
pub fn put_decimal(text: &mut String, number: u64) -> Result<(), AllocError>
    ensures { OnOk result (string_bytes text.new ≡ string_bytes text.old ++ word (decimal number)) }
{
    let mut buffer = Buffer::new();
    put_word(text, buffer.format(number))
}

/// Writes a number in hexadecimal digits.
pub fn put_hex(text: &mut String, number: u128) -> Result<(), AllocError>
    ensures { OnOk result (string_bytes text.new ≡ string_bytes text.old ++ hex number) }
{
    let digits = HexText::of(number);
    text.push_str(str::from_utf8(digits.bytes()).unwrap())
}

/// Writes a space and a token in hexadecimal digits.
pub fn put_token(text: &mut String, token: &Token) -> Result<(), AllocError>
    ensures { OnOk result (string_bytes text.new ≡ string_bytes text.old ++ word (token_word token.now)) }
{
    let digits = TokenText::of(token);
    put_word(text, str::from_utf8(digits.bytes()).unwrap())
}

fn put_few(text: &mut String, bytes: &[u8]) -> Result<(), AllocError>
    requires { length bytes.now ≤ 128 }
    ensures { OnOk result (string_bytes text.new ≡ string_bytes text.old ++ encode_lower bytes.now) }
{
    let mut room = [0; 2 * FEW];
    let digits = &mut room[..2 * bytes.len()];
    encode(bytes, digits);
    text.push_str(str::from_utf8(digits).unwrap())
}

fn put_bytes(text: &mut String, bytes: &[u8]) -> Result<(), AllocError>
    ensures { OnOk result (string_bytes text.new ≡ string_bytes text.old ++ encode_lower bytes.now) }
{
    let mut rest = bytes;
    while rest.len() > FEW {
        put_few(text, &rest[..FEW])?;
        rest = &rest[FEW..];
    }
    put_few(text, rest)
}

/// Writes the digits of a payload, and a dot for none.
pub fn put_payload(text: &mut String, payload: &Blob) -> Result<(), AllocError>
    ensures { OnOk result (string_bytes text.new ≡ string_bytes text.old ++ payload_word payload.now) }
{
    let bytes = payload.bytes();
    if bytes.is_empty() {
        text.push_str(".")
    } else {
        put_bytes(text, bytes)
    }
}
