//! Why reading a request, or writing a reply, broke off.

use thiserror::Error;

/// Why a request was not read, or a reply not written. The connection is used no more.
#[derive(Clone, Copy, Debug, PartialEq, Eq, Error)]
pub enum WireFault {
    /// The input ended with no byte of a next request.
    #[error("the input ended")]
    Ended,
    /// The bytes are no request, whatever follows.
    #[error("the request is malformed")]
    BadHead,
    /// 65,536 bytes came with no end of the head.
    #[error("the head has over 65536 bytes")]
    HeadTooLong,
    /// The input ended within a request.
    #[error("the input ended within a request")]
    Truncated,
    /// 1,000 reads or writes in a row had nothing to do.
    #[error("the wire had nothing to do for too long")]
    Idle,
    /// The wire failed at a read.
    #[error("a read failed")]
    ReadFault,
    /// The wire failed at a write.
    #[error("a write failed")]
    WriteFault,
    /// Memory ran out.
    #[error("out of memory")]
    NoMemory,
}
