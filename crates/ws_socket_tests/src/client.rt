//! The client's side of a WebSocket (RFC 6455), byte by byte.

use std::alloc::Global;
use std::io::{Read, Write};
use std::net::{Ipv4Addr, Net, Shutdown, TcpStream};
use std::test::Fail;
use std::time::Duration;

/// How many seconds a read or a write waits at most.
const PATIENCE: u64 = 20;

/// How many bytes of a response are read at most.
const RESPONSE: usize = 1_024;

/// The mask of the client's frames (section 5.7).
const MASK: [u8; 4] = [0x37, 0xfa, 0x21, 0x3d];

/// The request with the key of section 1.3.
const REQUEST: &str = "GET / HTTP/1.1\r
Host: localhost\r
Upgrade: websocket\r
Connection: Upgrade\r
Sec-WebSocket-Key: dGhlIHNhbXBsZSBub25jZQ==\r
Sec-WebSocket-Version: 13\r
\r
";

/// The line by which that key is accepted, in lowercase letters up to its value.
const ACCEPTED: &str = "sec-websocket-accept: s3pPLMBiTxaQ9kYGzzhZRbK+xOo=";

/// A client at its end of a connection.
#[derive(Drop)]
pub struct Client {
    stream: TcpStream,
}

impl Client {
    /// Connects to that port of this machine, and asks for a WebSocket.
    pub fn connect<R: Net<Stream = TcpStream>>(rt: &R, port: u16) -> Result<Client, Fail> {
        let stream = TcpStream::connect(rt, (Ipv4Addr::LOCALHOST, port))?;
        let patience = Some(Duration::from_secs(PATIENCE));
        stream.set_read_timeout(patience)?;
        stream.set_write_timeout(patience)?;
        let client = Client { stream };
        client.write(REQUEST.as_bytes())?;
        Ok(client)
    }

    /// Reads the response, and tells whether it accepts.
    pub fn is_accepted(&self, alloc: Global) -> Result<bool, Fail> {
        let head = self.head(alloc)?;
        let mut lines = head.lines();
        let switches = lines
            .next()
            .is_some_and(|line| line.starts_with("HTTP/1.1 101 "));
        Ok(switches && lines.any(is_accepting))
    }

    // Reads up to the empty line.
    fn head(&self, alloc: Global) -> Result<String, Fail> {
        let mut bytes = Vec::new(alloc);
        for _ in 0..RESPONSE {
            bytes.push(self.byte()?)?;
            if bytes.ends_with(b"\r\n\r\n") {
                return Ok(String::from_utf8(bytes)?);
            }
        }
        Err(Fail::from("a response that ends"))
    }

    fn byte(&self) -> Result<u8, Fail> {
        let mut room = [0];
        (&self.stream).read_exact(&mut room)?;
        Ok(room[0])
    }

    /// Writes these bytes.
    pub fn write(&self, bytes: &[u8]) -> Result<(), Fail> {
        Ok((&self.stream).write_all(bytes)?)
    }

    /// Writes a masked frame of at most 125 bytes that begins with that byte.
    pub fn send(&self, alloc: Global, first: u8, payload: &[u8]) -> Result<(), Fail> {
        let Some(length) = short(payload) else {
            return Err(Fail::from("a payload of at most 125 bytes"));
        };
        let mut frame = vec![in alloc; first, 0x80 | length]?;
        frame.extend_from_slice(MASK.as_slice())?;
        for (byte, mask) in payload.iter().zip(MASK.iter().cycle()) {
            frame.push(byte ^ mask)?;
        }
        self.write(&frame)
    }

    /// Reads a frame of at most 65,535 bytes, which no server masks: its first byte, and its payload.
    pub fn frame(&self, alloc: Global) -> Result<(u8, Vec<u8>), Fail> {
        let first = self.byte()?;
        let length = match self.byte()? {
            126 => u16::from_be_bytes([self.byte()?, self.byte()?]),
            length => u16::from(length),
        };
        let mut payload = vec![in alloc; 0; usize::from(length)]?;
        (&self.stream).read_exact(&mut payload)?;
        Ok((first, payload))
    }

    /// The frame that is read next, in digits.
    pub fn told(&self, alloc: Global) -> Result<String, Fail> {
        let (first, payload) = self.frame(alloc)?;
        let digits = hex::encode(alloc, &payload)?;
        Ok(format!(in alloc; "{first:02x} {digits}")?)
    }

    /// The text of the frame that is read next.
    pub fn text(&self, alloc: Global) -> Result<String, Fail> {
        match self.frame(alloc)? {
            (0x81, payload) => Ok(String::from_utf8(payload)?),
            _ => Err(Fail::from("a text in one frame")),
        }
    }

    /// Ends what it writes; it still reads.
    pub fn hang_up(&self) -> Result<(), Fail> {
        Ok(self.stream.shutdown(Shutdown::Write)?)
    }

    /// Whether the connection ends here, with nothing before.
    pub fn is_at_end(&self) -> Result<bool, Fail> {
        let mut room = [0];
        Ok((&self.stream).read(&mut room)? == 0)
    }
}

// The name of a header has letters of any case, and its value hasn't.
fn is_accepting(line: &str) -> bool {
    match (line.split_once(": "), ACCEPTED.split_once(": ")) {
        (Some((name, value)), Some((wanted, accept))) => {
            name.eq_ignore_ascii_case(wanted) && value == accept
        }
        _ => false,
    }
}

// Its length, where that is at most 125.
fn short(payload: &[u8]) -> Option<u8> {
    match u8::try_from(payload.len()) {
        Ok(length) if length < 126 => Some(length),
        _ => None,
    }
}
