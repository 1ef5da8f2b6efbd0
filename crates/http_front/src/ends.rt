//! How a connection ends.
ghost use Rattle.std.specs.Prelude.{◌≡◌};
ghost use Rattle.http_front.specs.Exchanges.{end_after, request_end};

use crate::closing::is_last;
use crate::ops::Ops;
use http_bytes::WireFault;
use http_wire::{Body, Request};
use thiserror::Error;

// The most requests of a connection.
const REQUESTS: u32 = 1000;

/// How a connection ends. Where several of the ends after an answer hold, it is the first in the order `LongBody`, `Asked`,
/// `Limit`, `OpsSpent`.
#[derive(Clone, Copy, Debug, PartialEq, Eq, Error)]
pub enum HttpEnd {
    /// Reading a request, or writing an answer, broke off.
    #[error("{0}")]
    Fault(WireFault),
    /// The last request asked for it, or was one of HTTP/1.0 (RFC 9112, section 9.3).
    #[error("the sender asked for the end")]
    Asked,
    /// 1,000 requests were answered.
    #[error("1000 requests were answered")]
    Limit,
    /// The body of the last request has more than 4,096 bytes, and was not read.
    #[error("body over 4096 bytes")]
    LongBody,
    /// No number of a flight is left.
    #[error("the numbers of flights are spent")]
    OpsSpent,
}

/// The end that a request itself brings.
pub fn request_end(request: &Request) -> Option<HttpEnd>
    ensures { result ≡ request_end request.now }
{
    match &request.body {
        Body::TooLong => Some(HttpEnd::LongBody),
        Body::Bytes(_) => {
            if is_last(&request.head) {
                Some(HttpEnd::Asked)
            } else {
                None
            }
        }
    }
}

/// The end that comes after so many requests, the last of which brings that one, if any.
pub fn end_after(wish: Option<HttpEnd>, count: u32, ops: &Ops) -> Option<HttpEnd>
    ensures { result ≡ end_after wish count ops.now.k }
{
    match wish {
        Some(end) => Some(end),
        None => {
            if count >= REQUESTS {
                Some(HttpEnd::Limit)
            } else if ops.are_spent() {
                Some(HttpEnd::OpsSpent)
            } else {
                None
            }
        }
    }
}
