//! A sender in memory.
ghost use Rattle.std.specs.Prelude.{None};

use push_outside::{Got, Put, Wire};

/// The wire of a sender who sends one request again and again, each once the last was answered. It tells neither what is left nor
/// what was written, and counts the answers 201.
#[derive(Drop)]
pub struct Sender<'a> {
    request: &'a [u8],
    // What is still to be given of the request that was begun.
    rest: &'a [u8],
    // The requests that are not begun.
    requests: u64,
    // The most bytes of one read.
    most: usize,
    /// How many answers 201 were written.
    pub created: u64,
}

impl<'a> Sender<'a> {
    /// A sender of so many such requests, of which a read gives at most so many bytes.
    pub fn new(request: &'a [u8], requests: u64, most: usize) -> Sender<'a> {
        Sender {
            request,
            rest: &request[..0],
            requests,
            most,
            created: 0,
        }
    }
}

impl<'a> Wire for Sender<'a> {
    ghost left = { λ _. None };

    ghost written = { λ _. None };

    ghost faults = { λ _. 0 };

    ghost lulls = { λ _. 0 };

    /// A read gives bytes of one request.
    fn read(&mut self, room: &mut [u8]) -> Got {
        if self.rest.is_empty() && self.requests > 0 {
            self.requests -= 1;
            self.rest = self.request;
        }
        let count = self.rest.len().min(room.len()).min(self.most);
        if count == 0 {
            return Got::End;
        }
        room[..count].copy_from_slice(&self.rest[..count]);
        self.rest = &self.rest[count..];
        Got::Bytes(count)
    }

    /// Takes the whole piece. An answer's first bytes, and no others, begin as a status line does.
    fn write(&mut self, piece: &[u8]) -> Put {
        if piece.starts_with(b"HTTP/1.1 201 ") {
            self.created = self.created.saturating_add(1);
        }
        Put::Wrote(piece.len())
    }

    /// Does nothing.
    fn rest(&mut self) {}

    /// Does nothing.
    fn hurry(&mut self) {}

    /// Always `false`.
    fn is_quiet(&self) -> bool {
        false
    }
}
