//! Frames in and out: what `tungstenite` says, as a chat says it.
ghost use Rattle.std.specs.Prelude.{IfSome};
ghost use Rattle.push_outside.specs.Chats.{IsShort};

use crate::stream::WireStream;
use push_model::Text;
use push_outside::{Heard, Sent, Wire};
use std::alloc::Global;
use std::io::{self, ErrorKind};
use tungstenite::{CloseCode, CloseFrame, Error, Message, NoMask, Utf8Bytes, WebSocket};

/// The longest text that is heard, in bytes.
pub const TEXT_LIMIT: usize = 16_384;
/// How many frames one take reads at most.
const FRAMES: usize = 64;

/// A server's socket on that wire.
pub type Socket<W> = WebSocket<WireStream<W>, NoMask>;

fn heard_text(alloc: Global, text: &Utf8Bytes) -> Heard
    ensures { IsShort result }
{
    if text.as_str().len() > TEXT_LIMIT {
        return Heard::TooLong;
    }
    match Text::copy(alloc, text.as_str()) {
        Ok(text) => Heard::Text(text),
        Err(_) => Heard::NoMemory,
    }
}

// What is heard where the wire failed, or had nothing.
fn heard_of_wire(cause: &io::Error) -> Heard
    ensures { IsShort result }
{
    match cause.kind() {
        ErrorKind::WouldBlock => Heard::NotYet,
        ErrorKind::OutOfMemory => Heard::NoMemory,
        _ => Heard::Failed,
    }
}

// What is heard where no message came; `ended` says that the wire's end was read.
fn heard_of_error(error: &Error, ended: bool) -> Heard
    ensures { IsShort result }
{
    match error {
        Error::ConnectionClosed | Error::AlreadyClosed => Heard::End,
        Error::Capacity(_) => Heard::TooLong,
        Error::OutOfMemory => Heard::NoMemory,
        Error::Io(cause) => heard_of_wire(cause),
        _ => { if ended { Heard::End } else { Heard::Failed } }
    }
}

/// Ends the conversation with that code, and lets go of what the client sent meanwhile, up to a bound.
pub fn close<W: Wire + Drop>(socket: &mut Socket<W>, number: u16) -> Sent {
    let frame = CloseFrame {
        code: CloseCode::from(number),
        reason: Utf8Bytes::from_static(""),
    };
    let sent = sent_of(socket.close(Some(frame)));
    socket.get_mut().drain();
    sent
}

// Tells a client that broke the protocol what it did (RFC 6455, section 7.4.1). Nothing is claimed of this.
fn tell_break<W: Wire + Drop>(socket: &mut Socket<W>, error: &Error) {
    match error {
        Error::Protocol(_) => {
            let _ = close(socket, 1002);
        }
        Error::Utf8 => {
            let _ = close(socket, 1007);
        }
        _ => {}
    }
}

// Reads one frame; a ping or a pong is nothing to a caller, and a ping's answer goes out by itself.
fn take_frame<W: Wire + Drop>(alloc: Global, socket: &mut Socket<W>) -> Option<Heard>
    ensures { IfSome result IsShort }
{
    match socket.read() {
        Ok(Message::Text(text)) => Some(heard_text(alloc, &text)),
        Ok(Message::Binary(_)) => Some(Heard::Binary),
        Ok(Message::Ping(_)) | Ok(Message::Pong(_)) => None,
        Ok(Message::Close(_)) => {
            // The answer to the client's close waits in the output.
            let _ = socket.flush();
            Some(Heard::End)
        }
        Err(error) => {
            let heard = heard_of_error(&error, socket.get_ref().has_ended());
            if let Heard::Failed = heard {
                tell_break(socket, &error);
            }
            Some(heard)
        }
    }
}

/// Reads frames, up to a bound, until one is heard.
pub fn take_next<W: Wire + Drop>(alloc: Global, socket: &mut Socket<W>) -> Heard
    ensures { IsShort result }
{
    for _ in 0..FRAMES {
        if let Some(heard) = take_frame(alloc, socket) {
            return heard;
        }
    }
    Heard::NotYet
}

// What a send that the wire did not finish came to: where it had no room now, the frame waits in the output.
fn sent_of_wire(cause: &io::Error) -> Sent {
    match cause.kind() {
        ErrorKind::WouldBlock => Sent::Done,
        ErrorKind::OutOfMemory => Sent::NoMemory,
        _ => Sent::Failed,
    }
}

fn sent_of(answer: Result<(), Error>) -> Sent {
    match answer {
        Ok(()) => Sent::Done,
        Err(Error::OutOfMemory) => Sent::NoMemory,
        Err(Error::Io(cause)) => sent_of_wire(&cause),
        Err(_) => Sent::Failed,
    }
}

/// Sends a text.
pub fn send_text<W: Wire + Drop>(alloc: Global, socket: &mut Socket<W>, text: &str) -> Sent {
    match Message::text(alloc, text) {
        Ok(message) => sent_of(socket.send(message)),
        Err(_) => Sent::NoMemory,
    }
}
