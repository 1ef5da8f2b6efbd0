//! A sender of messages over HTTP (RFC 8030).

use std::alloc::Global;
use std::io::{Read, Write};
use std::net::{Ipv4Addr, Net, TcpStream};
use std::test::Fail;
use std::time::Duration;

/// How many seconds a read waits at most.
const PATIENCE: u64 = 20;

/// How many bytes of a response are read at most.
const RESPONSE: usize = 1_024;

/// A sender's end of a connection.
#[derive(Drop)]
pub struct Sender {
    stream: TcpStream,
}

impl Sender {
    /// Connects to that port of this machine.
    pub fn connect<R: Net<Stream = TcpStream>>(rt: &R, port: u16) -> Result<Sender, Fail> {
        let stream = TcpStream::connect(rt, (Ipv4Addr::LOCALHOST, port))?;
        stream.set_read_timeout(Some(Duration::from_secs(PATIENCE)))?;
        Ok(Sender { stream })
    }

    /// Writes the head of a request with a body of so many bytes to that target.
    pub fn begin(&self, alloc: Global, target: &str, length: usize) -> Result<(), Fail> {
        self.write(&head_of(alloc, target, length)?)
    }

    /// Writes this text.
    pub fn write(&self, text: &str) -> Result<(), Fail> {
        Ok((&self.stream).write_all(text.as_bytes())?)
    }

    /// The first line of the next response, which has no body.
    pub fn answer(&self, alloc: Global) -> Result<String, Fail> {
        let head = String::from_utf8(self.head(alloc)?)?;
        let Some((first, _)) = head.split_once("\r\n") else {
            return Err(Fail::from("a response with a first line"));
        };
        Ok(String::from_str(alloc, first)?)
    }

    // Reads up to an empty line.
    fn head(&self, alloc: Global) -> Result<Vec<u8>, Fail> {
        let mut bytes = Vec::new(alloc);
        for _ in 0..RESPONSE {
            let mut room = [0];
            (&self.stream).read_exact(&mut room)?;
            bytes.push(room[0])?;
            if bytes.ends_with(b"\r\n\r\n") {
                return Ok(bytes);
            }
        }
        Err(Fail::from("a response that ends"))
    }
}

/// The head of a request with a body of so many bytes, for a day at most, to that target.
pub fn head_of(alloc: Global, target: &str, length: usize) -> Result<String, Fail> {
    Ok(format!(in alloc;
        "POST {target} HTTP/1.1\r\nHost: localhost\r\nTTL: 86400\r\nContent-Encoding: aes128gcm\r\nContent-Length: {length}\r\n\r\n"
    )?)
}

/// Posts the body to the target at that port, and gives the first line of the response.
pub fn post<R: Net<Stream = TcpStream>>(
    rt: &R,
    alloc: Global,
    port: u16,
    target: &str,
    body: &str,
) -> Result<String, Fail> {
    let sender = Sender::connect(rt, port)?;
    sender.begin(alloc, target, body.len())?;
    sender.write(body)?;
    sender.answer(alloc)
}
