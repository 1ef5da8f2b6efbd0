//! The forms of the parts of a body.
ghost use Rattle.std.specs.Prelude.{◌≡◌};
ghost use Rattle.http_bytes.specs.Forms.{IsDataBad, IsDataFound, IsDataOpen, IsLineBad, IsLineFound, IsLineOpen, IsPieceFound, IsPieceOpen};

use crate::wait::{Form, Look};
use httparse::{Status, parse_chunk_size};

/// The line before a chunk (RFC 9112, section 7.1). What is found is its length, and the chunk's size.
#[derive(Drop)]
pub struct LineForm;

impl Form for LineForm {
    type Found = (usize, u64);

    ghost sought = { λ _. 0 };

    ghost is_found = { λ _ r bytes. IsLineFound r.0 r.1 bytes };

    ghost is_open = { λ _ bytes. IsLineOpen bytes };

    ghost is_bad = { λ _ bytes. IsLineBad bytes };

    fn look(&mut self, bytes: &[u8]) -> Look<(usize, u64)> {
        match parse_chunk_size(bytes) {
            Ok(Status::Complete(found)) => Look::Whole(found),
            Ok(Status::Partial) => Look::Part,
            Err(_) => Look::Bad,
        }
    }

    fn may_end(&self, bytes: &[u8]) -> bool {
        bytes.contains(&b'\n')
    }
}

/// A chunk's data (RFC 9112, section 7.1): so many bytes, and the CR LF behind them.
#[derive(Drop)]
pub struct ChunkForm {
    /// How many bytes there are before the CR LF.
    pub size: usize,
}

impl Form for ChunkForm {
    type Found = ();

    ghost sought = { λ s. s.size };

    ghost is_found = { λ s _ bytes. IsDataFound s.size bytes };

    ghost is_open = { λ s bytes. IsDataOpen s.size bytes };

    ghost is_bad = { λ s bytes. IsDataBad s.size bytes };

    fn look(&mut self, bytes: &[u8]) -> Look<()> {
        if bytes.len() < self.size {
            return Look::Part;
        }
        match &bytes[self.size..] {
            [] | [b'\r'] => Look::Part,
            [b'\r', b'\n', ..] => Look::Whole(()),
            _ => Look::Bad,
        }
    }

    fn may_end(&self, bytes: &[u8]) -> bool {
        !bytes.is_empty()
    }
}

/// So many bytes.
#[derive(Drop)]
pub struct PieceForm {
    /// How many.
    pub size: usize,
}

impl Form for PieceForm {
    type Found = ();

    ghost sought = { λ s. s.size };

    ghost is_found = { λ s _ bytes. IsPieceFound s.size bytes };

    ghost is_open = { λ s bytes. IsPieceOpen s.size bytes };

    ghost is_bad = { λ _ _. ⊥ };

    fn look(&mut self, bytes: &[u8]) -> Look<()> {
        if bytes.len() < self.size {
            Look::Part
        } else {
            Look::Whole(())
        }
    }

    fn may_end(&self, bytes: &[u8]) -> bool {
        !bytes.is_empty()
    }
}
