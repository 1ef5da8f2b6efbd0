//! Checking a head.
ghost use Rattle.std.specs.Prelude.{◌≡◌};
ghost use Rattle.push_headers.specs.Terms.{terms_of};

use crate::values::{coding_of, is_parameter, topic_of, ttl_of, urgency_of};
use http_wire::Head;
use push_model::Terms;
use thiserror::Error;

/// Why a head is refused, in the order in which it is tried.
#[derive(Clone, Copy, Debug, PartialEq, Eq, Error)]
pub enum HeadFault {
    /// There is no line TTL.
    #[error("TTL header missing")]
    MissingTtl,
    /// There are two lines TTL, or the value is no number of digits.
    #[error("TTL header invalid")]
    BadTtl,
    /// There are two lines Topic, or the value is no topic.
    #[error("Topic header invalid")]
    BadTopic,
    /// There are two lines Urgency, or the value is none of the four words.
    #[error("Urgency header invalid")]
    BadUrgency,
    /// The body is not empty, and there is no Content-Encoding, or there are two, or its value is neither of the two codings. Or
    /// there are two lines Encryption or two lines Crypto-Key, or the value of one has more than 1,024 bytes or a byte outside
    /// 0x20 to 0x7E.
    #[error("Content-Encoding header invalid")]
    BadEncoding,
}

/// What the head asks for, or the first of its faults in the order of `HeadFault` (RFC 8030, section 5). It takes no memory.
///
/// The ttl is the number or 2,592,000 seconds, whichever is less. The urgency is normal where none is named. With an empty body
/// Content-Encoding is passed over and the coding is bare. The words of urgencies and codings are compared without regard to case.
pub fn check_head(head: &Head) -> Result<Terms, HeadFault>
    ensures { result ≡ terms_of head.now }
{
    let ttl = ttl_of(head)?;
    let topic = topic_of(head)?;
    let urgency = urgency_of(head)?;
    let coding = coding_of(head)?;
    if !is_parameter(head, b"encryption") || !is_parameter(head, b"crypto-key") {
        return Err(HeadFault::BadEncoding);
    }
    Ok(Terms {
        ttl,
        topic,
        urgency,
        coding,
    })
}
