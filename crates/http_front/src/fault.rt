//! What is wrong with a request.

use push_headers::HeadFault;
use thiserror::Error;

/// Why a request is refused before its message is routed: the first fault, in the order in which they stand here.
#[derive(Clone, Copy, Debug, PartialEq, Eq, Error)]
pub enum Fault {
    /// The path isn't `/wpush/v1/` and one part behind it.
    #[error("unknown path")]
    UnknownPath,
    /// The method isn't POST (RFC 8030, section 5).
    #[error("method not allowed")]
    WrongMethod,
    /// The body has more than 4,096 bytes.
    #[error("body over 4096 bytes")]
    LongBody,
    /// The head is refused.
    #[error("{0}")]
    Head(HeadFault),
    /// The part behind `/wpush/v1/` is no token's text.
    #[error("malformed token")]
    BadToken,
}
