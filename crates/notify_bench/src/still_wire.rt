//! The wire of a client that is idle.
ghost use Rattle.std.specs.Prelude.{None, ◌≤◌, length};

use push_outside::{Got, Put, Wire};

/// What the client asks for. The key is the one of RFC 6455, section 1.3.
const REQUEST: &[u8] =
    b"GET / HTTP/1.1\r\nHost: localhost:8081\r\nUpgrade: websocket\r\nConnection: keep-alive, Upgrade\r\nSec-WebSocket-Version: 13\r\nSec-WebSocket-Key: dGhlIHNhbXBsZSBub25jZQ==\r\n\r\n";
/// A frame in which the client says hello. Its mask is zero, so that the text stands in it as it is.
const HELLO: &[u8] = b"\x81\x97\x00\x00\x00\x00{\"messageType\":\"hello\"}";

/// A wire whose client asks for a WebSocket, says hello, and is still from then on. What is written is let go.
#[derive(Drop)]
pub struct StillWire {
    /// How many pieces were given.
    given: u8,
    lulls: u64,
}

// The piece of that number of what the client sends.
fn piece(number: u8) -> &'static [u8] {
    match number {
        0 => REQUEST,
        1 => HELLO,
        _ => &[],
    }
}

// Puts the piece into the room, or what fits, and answers how much that is.
fn give(piece: &[u8], room: &mut [u8]) -> usize
    ensures { result ≤ length room.new }
{
    let count = piece.len().min(room.len());
    room[..count].copy_from_slice(&piece[..count]);
    count
}

impl StillWire {
    /// A wire that gave nothing yet.
    pub fn new() -> StillWire {
        StillWire { given: 0, lulls: 0 }
    }
}

impl Wire for StillWire {
    ghost left = { λ _. None };

    ghost written = { λ _. None };

    ghost faults = { λ _. 0 };

    ghost lulls = { λ w. w.lulls };

    fn read(&mut self, room: &mut [u8]) -> Got {
        let count = give(piece(self.given), room);
        if count == 0 {
            self.lulls = self.lulls.saturating_add(1);
            return Got::NotYet;
        }
        self.lulls = 0;
        self.given = self.given.saturating_add(1);
        Got::Bytes(count)
    }

    fn write(&mut self, piece: &[u8]) -> Put {
        self.lulls = 0;
        Put::Wrote(piece.len())
    }

    fn rest(&mut self) {}

    fn hurry(&mut self) {}

    fn is_quiet(&self) -> bool {
        self.given > 1
    }
}
