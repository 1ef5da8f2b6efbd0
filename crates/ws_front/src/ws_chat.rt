//! A chat over a WebSocket, and its handshake.
ghost use Rattle.std.specs.Prelude.{◌≡◌, None, IfOk};

use crate::frames::{Socket, TEXT_LIMIT, close, send_text, take_next};
use crate::marks::Marks;
use crate::stream::WireStream;
use push_outside::{Chat, Heard, Sent, Wire};
use std::alloc::Global;
use std::io::{self, ErrorKind};
use std::marker::Model;
use thiserror::Error;
use tungstenite::handshake::server::start;
use tungstenite::{Error as SocketError, HandshakeError, NoCallback, WebSocketConfig};

/// Why there is no chat.
#[derive(Clone, Copy, Debug, PartialEq, Eq, Error)]
pub enum HandFault {
    /// The client sent no handshake that is taken (RFC 6455, section 4.2.1), more than a handshake, or too little in too
    /// many pieces. It is answered nothing.
    #[error("the handshake is refused")]
    Refused,
    /// 1,000 reads or writes in a row had nothing.
    #[error("the client is idle")]
    Idle,
    /// The wire failed.
    #[error("the wire failed")]
    Fault,
    /// Memory ran out.
    #[error("out of memory")]
    NoMemory,
}

/// How many bytes of output may wait for a client that does not read.
const OUTPUT_LIMIT: usize = 262_144;
/// How many bytes one read asks for; each chat keeps two rooms of that size.
const READ_SIZE: usize = 4_096;
/// How many reads or writes of a handshake may have nothing, in a row.
const LULLS: u64 = 1_000;

fn limits() -> WebSocketConfig {
    WebSocketConfig::default()
        .read_buffer_size(READ_SIZE)
        .write_buffer_size(0)
        .max_write_buffer_size(OUTPUT_LIMIT)
        .max_message_size(Some(TEXT_LIMIT))
        .max_frame_size(Some(TEXT_LIMIT))
}

fn fault_of_wire(cause: &io::Error) -> HandFault {
    match cause.kind() {
        ErrorKind::OutOfMemory => HandFault::NoMemory,
        _ => HandFault::Fault,
    }
}

fn fault_of(error: &SocketError) -> HandFault {
    match error {
        SocketError::OutOfMemory => HandFault::NoMemory,
        SocketError::Io(cause) => fault_of_wire(cause),
        _ => HandFault::Refused,
    }
}

/// A chat over a WebSocket on that wire. It does not tell its items and texts.
///
/// A text of more than 16,384 bytes, in one frame or in several, is `TooLong`. Pings are answered, and nothing is heard of
/// them. A client that closes, or whose wire ends, is `End`; one that breaks the protocol is `Failed`, and is sent the
/// close code for that, if it can be. A text that the wire has no room for now is sent with a later call, and so is
/// `Done`; where 256 KiB wait so, a send is `Failed`.
///
/// Contracts see its failures, its lulls and its code.
#[derive(Drop)]
pub struct WsChat<W> {
    socket: Socket<W>,
    marks: Marks,
}

impl<W> Model for WsChat<W> {
    ghost use Rattle.ws_front.specs.declared.marks.Marks.{Marks};

    ghost Value = { Marks };

    ghost view = { λ c. c.marks };
}

impl<W: Wire + Drop> WsChat<W> {
    /// Does a server's handshake on the wire. No extension and no subprotocol is chosen. After an error the wire is dropped.
    pub fn accept(alloc: Global, wire: W) -> Result<WsChat<W>, HandFault>
        ensures fresh { IfOk result (λ chat. chat ≡ record { faults = 0; lulls = 0; code = None }) }
    {
        let mut step = start(alloc, WireStream::new(wire), NoCallback, Some(limits())).handshake();
        for _ in 0..u64::MAX {
            match step {
                Ok(mut socket) => {
                    socket.get_mut().hurry();
                    return Ok(WsChat {
                        socket,
                        marks: Marks::NONE,
                    });
                }
                Err(HandshakeError::Interrupted(mid)) => {
                    if mid.get_ref().lulls() >= LULLS {
                        return Err(HandFault::Idle);
                    }
                    step = mid.handshake();
                }
                Err(HandshakeError::Failure(error)) => return Err(fault_of(&error)),
            }
        }
        Err(HandFault::Idle)
    }

    /// The wire, for its hints.
    pub fn wire(&self) -> &W {
        self.socket.get_ref().wire()
    }
}

impl<W: Wire + Drop> Chat for WsChat<W> {
    ghost left = { λ _. None };

    ghost taken = { λ _. None };

    ghost sent = { λ _. None };

    ghost code = { λ c. c.code };

    ghost faults = { λ c. c.faults };

    ghost lulls = { λ c. c.lulls };

    fn take(&mut self, alloc: Global) -> Heard {
        let heard = take_next(alloc, &mut self.socket);
        self.marks.note_heard(&heard);
        heard
    }

    fn send(&mut self, alloc: Global, text: &str) -> Sent {
        let sent = send_text(alloc, &mut self.socket, text);
        self.marks.note_sent(sent);
        sent
    }

    fn finish(&mut self, number: u16) -> Sent {
        let sent = close(&mut self.socket, number);
        self.marks.note_finish(sent, number);
        sent
    }
}
