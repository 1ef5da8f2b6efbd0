//! The values of words. A word is a value's only where it is the value's one spelling.
ghost use Rattle.std.specs.Prelude.{◌≡◌, ◌+◌, ◌^◌, ◌<◌, ◌≤◌, ◌++◌, IfSome, IfOk, OnErr, length, replicate};
ghost use Rattle.schedule_text.specs.Reading.{Reads, padded, numeral_value, decimal_value, token_value, topic_value, urgency_value, payload_value, decoded, ArePayloadDigits};

use crate::digits;
use push_model::{Blob, Token, Topic, Urgency};
use std::alloc::{AllocError, Global};

/// The number of 1 to 32 hexadecimal digits.
pub fn hex_value(word: &[u8]) -> Option<u128>
    ensures { result ≡ numeral_value 16 (2 ^ 128) word.now }
{
    if word.len() > 32 || !digits::are_numeral(word) {
        return None;
    }
    Some(digits::number_of(word))
}

/// The decimal number up to `high`, which has at most 20 digits.
fn numeral_value(high: u64, word: &[u8]) -> Option<u64>
    ensures value { result ≡ numeral_value 10 (high + 1) word.now }
    ensures within { IfSome result (λ n. n ≤ high) }
{
    if word.len() > 20 || !digits::are_decimal(word) {
        return None;
    }
    let number = digits::decimal_of(word);
    if number <= u128::from(high) {
        Some(number as u64)
    } else {
        None
    }
}

/// The decimal number from `low` to `high`.
#[tactic(auto, unfolding(crate::specs::Reading::decimal_value))]
pub fn decimal_value(low: u64, high: u64, word: &[u8]) -> Option<u64>
    ensures value { result ≡ decimal_value low high word.now }
    ensures low { IfSome result (λ n. low ≤ n) }
    ensures high { IfSome result (λ n. n ≤ high) }
{
    let number = numeral_value(high, word)?;
    if low <= number { Some(number) } else { None }
}

/// The word's digits with zeros in front.
fn padded(word: &[u8]) -> [u8; 48]
    requires { length word.now ≤ 48 }
    ensures { result ≡ padded word.now }
{
    let mut digits = [b'0'; 48];
    digits[48 - word.len()..].copy_from_slice(word);
    digits
}

/// The token of 1 to 48 hexadecimal digits.
pub fn token_value(word: &[u8]) -> Option<Token>
    ensures { result ≡ token_value word.now }
{
    if word.len() > 48 || !digits::are_numeral(word) {
        return None;
    }
    let mut bytes = [0; 24];
    digits::decode(&padded(word)[..], &mut bytes);
    Some(Token(bytes))
}

/// The topic, or none for a dot. It takes no memory.
#[tactic(auto, unfolding(crate::specs::Reading::topic_value))]
pub fn topic_value(word: &[u8]) -> Option<Option<Topic>>
    ensures { result ≡ topic_value word.now }
{
    if word == b".".as_slice() {
        return Some(None);
    }
    match Topic::new(word) {
        Some(topic) => Some(Some(topic)),
        None => None,
    }
}

/// One of the four urgencies.
#[tactic(auto, unfolding(crate::specs::Reading::urgency_value))]
pub fn urgency_value(word: &[u8]) -> Option<Urgency>
    ensures { result ≡ urgency_value word.now }
{
    if word == b"very-low".as_slice() {
        Some(Urgency::VeryLow)
    } else if word == b"low".as_slice() {
        Some(Urgency::Low)
    } else if word == b"normal".as_slice() {
        Some(Urgency::Normal)
    } else if word == b"high".as_slice() {
        Some(Urgency::High)
    } else {
        None
    }
}

/// The digits of a payload of 1 to 4,096 bytes, or no digits for a dot.
pub fn payload_value(word: &[u8]) -> Option<&[u8]>
    ensures value { Reads (λ d. decoded d.now) result (payload_value word.now) }
    ensures digits { IfSome result (λ d. ArePayloadDigits d.now) }
{
    if word == b".".as_slice() {
        return Some(&[]);
    }
    if word.len() < 2 || word.len() > 8192 || word.len() % 2 != 0 {
        return None;
    }
    if digits::are_digits(word) {
        Some(word)
    } else {
        None
    }
}

/// The bytes of the digits of a payload. Only these bytes take memory.
pub fn payload_of(alloc: Global, digits: &[u8]) -> Result<Blob, AllocError>
    requires { ArePayloadDigits digits.now }
    ensures value { IfOk result (λ p. p ≡ decoded digits.now) }
    ensures short { IfOk result (λ p. length p ≤ 4096) }
    ensures wanted { OnErr result (0 < length (decoded digits.now)) }
{
    if digits.is_empty() {
        return Ok(Blob::from_vec(Vec::new(alloc)));
    }
    let mut bytes = vec![in alloc; 0; digits.len() / 2]?;
    digits::decode(digits, &mut bytes);
    Ok(Blob::from_vec(bytes))
}
