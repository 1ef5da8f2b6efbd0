//! Wires that give what a client sends, piece by piece, and show what it is sent.
ghost use Rattle.std.specs.Prelude.{◌≡◌, ◌≤◌, None, length};

use push_outside::{Got, Put, Wire};
use std::alloc::{AllocError, Global};
use std::cell::RefCell;
use std::collections::VecDeque;
use std::rc::Rc;
use std::test::Fail;

/// What a client was sent, byte by byte.
pub type Page = Rc<RefCell<Vec<u8>>>;

/// A wire in memory. Each read gives the next piece, and after the last one there is nothing. What it is sent stands on its page.
#[derive(Drop)]
pub struct PieceWire {
    pieces: VecDeque<Vec<u8>>,
    page: Page,
    lulls: u64,
}

impl PieceWire {
    /// A wire of these pieces.
    pub fn new(pieces: Vec<Vec<u8>>, page: Page) -> PieceWire {
        PieceWire {
            pieces: VecDeque::from(pieces),
            page,
            lulls: 0,
        }
    }
}

// Puts the front of the piece into the room, and says how many bytes that are.
fn put(piece: &[u8], room: &mut [u8]) -> usize
    ensures within { result ≤ length room.old }
    ensures size { length room.new ≡ length room.old }
{
    let count = piece.len().min(room.len());
    for i in 0..count {
        room[i] = piece[i];
    }
    count
}

impl Wire for PieceWire {
    ghost left = { λ _. None };

    ghost written = { λ _. None };

    ghost faults = { λ _. 0 };

    ghost lulls = { λ w. w.lulls };

    fn read(&mut self, room: &mut [u8]) -> Got {
        if let Some(piece) = self.pieces.pop_front() {
            let count = put(&piece, room);
            if count > 0 {
                self.lulls = 0;
                return Got::Bytes(count);
            }
        }
        self.lulls = self.lulls.saturating_add(1);
        Got::NotYet
    }

    fn write(&mut self, piece: &[u8]) -> Put {
        self.lulls = 0;
        if let Ok(mut page) = self.page.try_borrow_mut() {
            if page.extend_from_slice(piece).is_ok() {
                return Put::Wrote(piece.len());
            }
        }
        Put::NoMemory
    }

    fn rest(&mut self) {}

    fn hurry(&mut self) {}

    fn is_quiet(&self) -> bool {
        false
    }
}

/// A client's handshake.
pub const HANDSHAKE: &[u8] =
    b"GET / HTTP/1.1\r\nHost: localhost\r\nConnection: Upgrade\r\nUpgrade: websocket\r\nSec-WebSocket-Version: 13\r\nSec-WebSocket-Key: dGhlIHNhbXBsZSBub25jZQ==\r\n\r\n";

/// An empty page.
pub fn new_page(alloc: Global) -> Result<Page, Fail> {
    Ok(Rc::new(alloc, RefCell::new(Vec::new(alloc)))?)
}

// A frame's length: in seven bits, or in sixteen.
fn push_length(frame: &mut Vec<u8>, mask: u8, length: usize) -> Result<(), Fail> {
    if length < 126 {
        frame.push(mask | length as u8)?;
        return Ok(());
    }
    if length >= 65_536 {
        return Err(Fail::from("a frame of at most 65,535 bytes"));
    }
    frame.push(mask | 126)?;
    frame.push((length / 256) as u8)?;
    frame.push((length % 256) as u8)?;
    Ok(())
}

/// A client's text as one frame (RFC 6455, section 5.2), masked with zeros.
pub fn client_frame(alloc: Global, text: &str) -> Result<Vec<u8>, Fail> {
    let mut frame = vec![in alloc; 0x81]?;
    push_length(&mut frame, 0x80, text.len())?;
    frame.extend_from_slice(&[0, 0, 0, 0])?;
    frame.extend_from_slice(text.as_bytes())?;
    Ok(frame)
}

/// A server's text as one frame, which isn't masked.
pub fn server_frame(alloc: Global, text: &str) -> Result<Vec<u8>, Fail> {
    let mut frame = vec![in alloc; 0x81]?;
    push_length(&mut frame, 0, text.len())?;
    frame.extend_from_slice(text.as_bytes())?;
    Ok(frame)
}
