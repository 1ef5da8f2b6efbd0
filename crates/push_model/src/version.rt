//! The versions of messages: how they are named in texts.
ghost use Rattle.std.specs.Prelude.{◌≡◌, ◌∷◌, []};
ghost use Rattle.std.specs.Int.{w64, to_be_bytes};
ghost use Rattle.hex.specs.Hex.{encode_lower};
ghost use Rattle.push_model.specs.Versions.{version_text, spelled_as, version_of};

use crate::ids::MsgId;
use hex::FromHex;
use std::{fmt, str};

// The two digits of a shard.
fn shard_digits(shard: u8) -> [u8; 2]
    ensures { result ≡ encode_lower (shard ∷ []) }
{
    let mut digits = [0; 2];
    let written = hex::encode_to_slice(&[shard][..], &mut digits);
    prove!(written.is_ok());
    digits
}

// The sixteen digits of a number.
fn number_digits(number: u64) -> [u8; 16]
    ensures { result ≡ encode_lower (to_be_bytes w64 number) }
{
    let mut digits = [0; 16];
    let written = hex::encode_to_slice(&number.to_be_bytes()[..], &mut digits);
    prove!(written.is_ok());
    digits
}

/// The version of a message: two lower-case hexadecimal digits of its shard, `-`, and sixteen of its number.
pub fn version_text(id: MsgId) -> [u8; 19]
    ensures { result ≡ version_text id }
{
    let shard = shard_digits(id.shard);
    let number = number_digits(id.number);
    let mut text = [b'-'; 19];
    text[..2].copy_from_slice(&shard);
    text[3..].copy_from_slice(&number);
    text
}

// The message, where the text is its version.
fn spelled_as(id: MsgId, text: &[u8]) -> Option<MsgId>
    ensures { result ≡ spelled_as id text.now }
{
    if version_text(id).as_slice() == text {
        Some(id)
    } else {
        None
    }
}

/// The message whose version the text is. `None` comes exactly where it is the version of none: upper-case digits, other
/// lengths and other separators are refused. It takes no memory.
pub fn read_version(text: &[u8]) -> Option<MsgId>
    ensures { result ≡ version_of text.now }
{
    if text.len() != 19 {
        return None;
    }
    let Ok(shard) = <[u8; 1] as FromHex>::from_hex(&text[..2]) else {
        return None;
    };
    let Ok(number) = <[u8; 8] as FromHex>::from_hex(&text[3..]) else {
        return None;
    };
    let id = MsgId {
        shard: shard[0],
        number: u64::from_be_bytes(number),
    };
    spelled_as(id, text)
}

/// Prints the version.
impl fmt::Display for MsgId {
    ghost use Rattle.std.specs.Prelude.{Some};
    ghost use Rattle.push_model.specs.Versions.{version_text};

    ghost output = { λ id. Some (version_text id) };

    fn fmt<W: fmt::Write>(&self, f: &mut fmt::Formatter<W>) -> fmt::Result {
        let text = version_text(*self);
        match str::from_utf8(&text) {
            Ok(version) => write!(f, "{version}"),
            Err(_) => Err(fmt::Error),
        }
    }
}
