//! The values of the lines that say what a push request asks for.
ghost use Rattle.std.specs.Prelude.{◌≡◌, codes};
ghost use Rattle.std.specs.List.{list_all};
ghost use Rattle.http_wire.specs.Heads.{values_of};
ghost use Rattle.push_model.specs.AskValue.{is_printable};
ghost use Rattle.push_headers.specs.Terms.{coding_by, coding_of, is_parameter, topic_by, ttl_by, urgency_by, urgency_of};

use crate::check::HeadFault;
use http_bytes::read_number;
use http_wire::{Head, Lone};
use push_model::{Coding, Topic, Urgency};

// The most seconds for which a message is kept.
const MOST: u64 = 2_592_000;

/// The ttl that the head asks for, capped (RFC 8030, section 5.2).
pub fn ttl_of(head: &Head) -> Result<u32, HeadFault>
    ensures { result ≡ ttl_by (values_of (codes "ttl") head.now.lines) }
{
    match head.find(b"ttl") {
        Lone::Absent => Err(HeadFault::MissingTtl),
        Lone::One(value) => match read_number(value, MOST) {
            Some(seconds) => Ok(seconds as u32),
            None => Err(HeadFault::BadTtl),
        },
        Lone::Several => Err(HeadFault::BadTtl),
    }
}

/// The topic that the head names (RFC 8030, section 5.4).
pub fn topic_of(head: &Head) -> Result<Option<Topic>, HeadFault>
    ensures { result ≡ topic_by (values_of (codes "topic") head.now.lines) }
{
    match head.find(b"topic") {
        Lone::Absent => Ok(None),
        Lone::One(value) => match Topic::new(value) {
            Some(topic) => Ok(Some(topic)),
            None => Err(HeadFault::BadTopic),
        },
        Lone::Several => Err(HeadFault::BadTopic),
    }
}

fn urgency_word(word: &[u8]) -> Option<Urgency>
    ensures { result ≡ urgency_of word.now }
{
    if word.eq_ignore_ascii_case(b"very-low") {
        Some(Urgency::VeryLow)
    } else if word.eq_ignore_ascii_case(b"low") {
        Some(Urgency::Low)
    } else if word.eq_ignore_ascii_case(b"normal") {
        Some(Urgency::Normal)
    } else if word.eq_ignore_ascii_case(b"high") {
        Some(Urgency::High)
    } else {
        None
    }
}

/// How urgent the message is (RFC 8030, section 5.3).
pub fn urgency_of(head: &Head) -> Result<Urgency, HeadFault>
    ensures { result ≡ urgency_by (values_of (codes "urgency") head.now.lines) }
{
    match head.find(b"urgency") {
        Lone::Absent => Ok(Urgency::Normal),
        Lone::One(value) => urgency_word(value).ok_or(HeadFault::BadUrgency),
        Lone::Several => Err(HeadFault::BadUrgency),
    }
}

fn coding_word(word: &[u8]) -> Option<Coding>
    ensures { result ≡ coding_of word.now }
{
    if word.eq_ignore_ascii_case(b"aes128gcm") {
        Some(Coding::Aes128gcm)
    } else if word.eq_ignore_ascii_case(b"aesgcm") {
        Some(Coding::Aesgcm)
    } else {
        None
    }
}

/// How the body is encoded (RFC 8291, RFC 8188); an empty one is bare.
pub fn coding_of(head: &Head) -> Result<Coding, HeadFault>
    ensures { result ≡ coding_by head.now.body_empty (values_of (codes "content-encoding") head.now.lines) }
{
    if head.body_empty() {
        return Ok(Coding::Bare);
    }
    match head.find(b"content-encoding") {
        Lone::Absent => Err(HeadFault::BadEncoding),
        Lone::One(value) => coding_word(value).ok_or(HeadFault::BadEncoding),
        Lone::Several => Err(HeadFault::BadEncoding),
    }
}

fn is_printable_text(text: &[u8]) -> bool
    ensures { result ≡ list_all is_printable text.now }
{
    text.iter().all(|b| 32 <= *b && *b <= 126)
}

/// Whether the lines of that name, which is in lower case, are none or a good one.
pub fn is_parameter(head: &Head, name: &[u8]) -> bool
    ensures { result ≡ is_parameter (values_of name.now head.now.lines) }
{
    match head.find(name) {
        Lone::Absent => true,
        Lone::One(value) => value.len() <= 1024 && is_printable_text(value),
        Lone::Several => false,
    }
}
