//! A server and a client that meet at a port of this machine. One thread plays both, by turns.

use crate::client::Client;
use push_outside::{Chat, Heard};
use push_ports::{Accepted, Listener, Ports};
use push_sockets::{SocketListener, SocketPorts, SocketWire};
use std::alloc::Global;
use std::net::{Ipv4Addr, Net, TcpListener, TcpStream};
use std::process::Abort;
use std::test::Fail;
use std::time::Clock;
use ws_front::WsChat;

/// How many free ports are tried: another process may take one meanwhile.
const PORTS: usize = 8;

/// How many times a wire or an item is asked for; each time waits for a second at most.
pub const ASKS: usize = 20;

/// Both ends of a connection whose handshake is done.
#[derive(Drop)]
pub struct Meeting<R> {
    pub listener: SocketListener<R>,
    pub chat: WsChat<SocketWire>,
    pub client: Client,
}

// A port that was free a moment ago.
fn free_port<R: Net<Listener = TcpListener, Stream = TcpStream>>(rt: &R) -> Result<u16, Fail> {
    let listener = TcpListener::bind(rt, (Ipv4Addr::LOCALHOST, 0))?;
    Ok(listener.local_addr()?.port())
}

// Listens at a free port.
fn listen<R: Net<Listener = TcpListener, Stream = TcpStream> + Clock + Copy>(
    rt: R,
    alloc: Global,
) -> Result<(SocketListener<R>, u16), Fail> {
    let mut ports = SocketPorts::new(alloc, rt, Ipv4Addr::LOCALHOST);
    for _ in 0..PORTS {
        let port = free_port(&rt)?;
        if let Some(listener) = ports.listen(port) {
            return Ok((listener, port));
        }
    }
    Err(Fail::from("a free port"))
}

// The wire of the client's request.
fn accept<R: Net + Clock + Copy>(listener: &mut SocketListener<R>) -> Result<SocketWire, Fail> {
    for _ in 0..ASKS {
        if let Accepted::Got(wire) = listener.accept() {
            return Ok(wire);
        }
    }
    Err(Fail::from("a connection"))
}

impl<R: Net<Listener = TcpListener, Stream = TcpStream> + Clock + Copy + Abort> Meeting<R> {
    /// A client connects, and is accepted.
    pub fn new(rt: R, alloc: Global) -> Result<Meeting<R>, Fail> {
        let (mut listener, port) = listen(rt, alloc)?;
        let client = Client::connect(&rt, port)?;
        let wire = accept(&mut listener)?;
        let chat = WsChat::accept(alloc, wire)?;
        assert!(rt; client.is_accepted(alloc)?);
        Ok(Meeting {
            listener,
            chat,
            client,
        })
    }

    /// What the server hears next.
    pub fn hear(&mut self, alloc: Global) -> Result<Heard, Fail> {
        for _ in 0..ASKS {
            match self.chat.take(alloc) {
                Heard::NotYet => self.listener.wait(true),
                heard => return Ok(heard),
            }
        }
        Err(Fail::from("something to hear"))
    }

    /// What the server hears next, told: the text, or the name of anything else.
    pub fn heard(&mut self, alloc: Global) -> Result<String, Fail> {
        match self.hear(alloc)? {
            Heard::Text(text) => Ok(String::from_str(alloc, text.as_str())?),
            other => Ok(format!(in alloc; "{other:?}")?),
        }
    }

    /// The server lets go of the connection, and the client reads to its end.
    pub fn part(self, rt: &impl Abort) -> Result<(), Fail> {
        let Meeting {
            listener,
            chat,
            client,
        } = self;
        drop(chat);
        assert!(rt; client.is_at_end()?);
        drop(listener);
        Ok(())
    }
}
