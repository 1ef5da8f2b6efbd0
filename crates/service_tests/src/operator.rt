//! An operator, whose lines a service reads from a stream.

use std::io::{self, Write};
use std::net::{Ipv4Addr, Net, TcpListener, TcpStream};
use std::test::Fail;

/// The operator's end of a stream.
#[derive(Drop)]
pub struct Operator {
    stream: TcpStream,
}

impl Operator {
    /// An operator, and the stream from which the service reads.
    pub fn new<R: Net<Listener = TcpListener, Stream = TcpStream>>(
        rt: &R,
    ) -> Result<(Operator, TcpStream), Fail> {
        let listener = TcpListener::bind(rt, (Ipv4Addr::LOCALHOST, 0))?;
        let stream = TcpStream::connect(rt, (Ipv4Addr::LOCALHOST, listener.local_addr()?.port()))?;
        let (theirs, _) = listener.accept()?;
        Ok((Operator { stream }, theirs))
    }

    /// Gives these lines.
    pub fn say(&self, lines: &str) -> io::Result<()> {
        (&self.stream).write_all(lines.as_bytes())
    }

    /// Gives these lines after a visit, whatever it came to.
    pub fn say_after<T: Drop>(&self, visit: Result<T, Fail>, lines: &str) -> Result<T, Fail> {
        let said = self.say(lines);
        let found = visit?;
        said?;
        Ok(found)
    }
}
