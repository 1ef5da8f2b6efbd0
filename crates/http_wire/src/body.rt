//! The body of a request.
ghost use Rattle.std.specs.Prelude.{◌≡◌};
ghost use Rattle.http_wire.specs.Requests.{is_empty_body};

use push_model::Blob;

/// The most bytes of a body.
pub const BODY: usize = 4096;

/// The body of a request.
#[derive(Debug, Drop)]
pub enum Body {
    /// Its bytes, at most 4,096.
    Bytes(Blob),
    /// It has more than 4,096 bytes, and was not read.
    TooLong,
}

impl Body {
    /// Whether there is no byte in it.
    pub fn is_empty(&self) -> bool
        ensures { result ≡ is_empty_body self.now }
    {
        match self {
            Body::Bytes(bytes) => bytes.bytes().is_empty(),
            Body::TooLong => false,
        }
    }
}
