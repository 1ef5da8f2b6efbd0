//! A wire as std's reader and writer.
use push_outside::{Got, Put, Wire};
use std::io;
use std::io::{ErrorKind, Read, Write};

/// How many bytes a drain reads at once.
const DRAIN_SIZE: usize = 4_096;
/// How many reads a drain makes at most.
const DRAIN_READS: usize = 64;

/// A wire that is read and written as a stream. Where the wire has nothing now, the stream would block.
#[derive(Debug, Drop)]
pub struct WireStream<W> {
    wire: W,
    // How many reads and writes in a row had nothing, up to `u64::MAX`.
    lulls: u64,
    // Whether the wire's end was read.
    ended: bool,
}

impl<W> WireStream<W> {
    /// The stream of that wire.
    pub fn new(wire: W) -> WireStream<W> {
        WireStream {
            wire,
            lulls: 0,
            ended: false,
        }
    }

    /// The wire.
    pub fn wire(&self) -> &W {
        &self.wire
    }

    /// How many reads and writes in a row had nothing, up to `u64::MAX`.
    pub fn lulls(&self) -> u64 {
        self.lulls
    }

    /// Whether the wire's end was read.
    pub fn has_ended(&self) -> bool {
        self.ended
    }

    // What a read or a write that had nothing is to std.
    fn wait(&mut self) -> io::Error {
        self.lulls = self.lulls.saturating_add(1);
        io::Error::from(ErrorKind::WouldBlock)
    }
}

impl<W: Wire> WireStream<W> {
    /// From now on the wire waits in no call.
    pub fn hurry(&mut self) {
        self.wire.hurry();
    }

    /// Reads what is there, up to a bound, and lets it go: where a connection ends with input unread, a client may lose
    /// what it was sent last.
    pub fn drain(&mut self) {
        let mut room = [0; DRAIN_SIZE];
        for _ in 0..DRAIN_READS {
            match self.wire.read(&mut room) {
                Got::Bytes(_) => {}
                Got::End | Got::NotYet | Got::Failed => return,
            }
        }
    }
}

impl<W: Wire> Read for WireStream<W> {
    fn read(&mut self, room: &mut [u8]) -> io::Result<usize> {
        if room.is_empty() {
            return Ok(0);
        }
        match self.wire.read(room) {
            Got::Bytes(count) => {
                self.lulls = 0;
                Ok(count)
            }
            Got::End => {
                self.lulls = 0;
                self.ended = true;
                Ok(0)
            }
            Got::NotYet => Err(self.wait()),
            Got::Failed => {
                self.lulls = 0;
                Err(io::Error::from(ErrorKind::Other))
            }
        }
    }
}

impl<W: Wire> Write for WireStream<W> {
    fn write(&mut self, piece: &[u8]) -> io::Result<usize> {
        if piece.is_empty() {
            return Ok(0);
        }
        match self.wire.write(piece) {
            Put::Wrote(count) => {
                self.lulls = 0;
                Ok(count)
            }
            Put::NotYet => Err(self.wait()),
            Put::Failed => {
                self.lulls = 0;
                Err(io::Error::from(ErrorKind::Other))
            }
            Put::NoMemory => {
                self.lulls = 0;
                Err(io::Error::from(ErrorKind::OutOfMemory))
            }
        }
    }

    fn flush(&mut self) -> io::Result<()> {
        Ok(())
    }
}
