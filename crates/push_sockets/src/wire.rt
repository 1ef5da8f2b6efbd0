//! Wires over sockets.
ghost use Rattle.std.specs.Prelude.{◌≡◌, ◌<◌, ◌≤◌, length, None};
ghost use Rattle.push_outside.specs.Counts.{next_count};

use crate::connection::Connection;
use push_outside::{Got, Put, Wire};
use std::io::{ErrorKind, Read, Write};
use std::net::Shutdown;
use std::sync::Arc;
use std::sync::atomic::{AtomicU64, Ordering};

/// How many calls of a wire that isn't hurried may wait in vain.
const WAITS: u64 = 2_000;

/// A connection of a `SocketListener`, from one message on. It tells neither what is left nor what was written.
///
/// A read first gives the bytes that the listener read, and then reads the socket. Where nothing has come it answers `End`
/// between two messages, and the connection is parked: the listener gives it again, as another wire. In mid-message a call waits
/// for some milliseconds before it answers `NotYet`, and once the wire is hurried not at all. A wire that isn't hurried fails where
/// 2,000 of its calls have waited in vain, which takes ten seconds, so that a slow client holds up nobody for longer. A wire that is
/// dropped unparked ends its connection: what was written still arrives.
pub struct SocketWire {
    connection: Arc<Connection>,
    /// How many of the listener's wires were dropped.
    dropped: Arc<AtomicU64>,
    /// What the listener read, and how much of it was given.
    first: Vec<u8>,
    at: usize,
    /// The reader holds no byte of a next message.
    rests: bool,
    hurried: bool,
    /// How many more calls may wait in vain, unless it is hurried.
    waits: u64,
    /// The last write found no room.
    blocked: bool,
    parked: bool,
    faults: u64,
    lulls: u64,
}

impl SocketWire {
    /// A wire that gives these bytes before those of the connection.
    pub(crate) fn new(
        connection: Arc<Connection>,
        dropped: Arc<AtomicU64>,
        first: Vec<u8>,
    ) -> SocketWire {
        SocketWire {
            connection,
            dropped,
            first,
            at: 0,
            rests: false,
            hurried: false,
            waits: WAITS,
            blocked: false,
            parked: false,
            faults: 0,
            lulls: 0,
        }
    }

    // Gives bytes that the listener had read.
    fn give_first(&mut self, room: &mut [u8]) -> usize
        requires { 0 < length room.old }
        ensures count { result ≤ length room.new }
        ensures faults { self.new.faults ≡ self.old.faults }
        ensures lulls { self.new.lulls ≡ self.old.lulls }
    {
        let left = self.first.get(self.at..).unwrap_or(&[]);
        let count = left.len().min(room.len());
        room[..count].copy_from_slice(&left[..count]);
        self.at = self.at.saturating_add(count);
        if self.at >= self.first.len() {
            self.first.clear();
            self.at = 0;
        }
        count
    }

    // Parks the connection, and answers whether it did. What comes meanwhile is seen here, or its hub sees that it is parked.
    fn park(&mut self) -> bool
        ensures faults { self.new.faults ≡ self.old.faults }
        ensures lulls { self.new.lulls ≡ self.old.lulls }
    {
        self.connection.park();
        if self.connection.is_readable() && self.connection.unpark() {
            return false;
        }
        self.parked = true;
        true
    }

    // Takes one of the waits that are left, and answers whether there was one.
    fn may_wait(&mut self) -> bool
        ensures faults { self.new.faults ≡ self.old.faults }
        ensures lulls { self.new.lulls ≡ self.old.lulls }
    {
        if self.hurried {
            return true;
        }
        let has_waits = self.waits > 0;
        self.waits = self.waits.saturating_sub(1);
        has_waits
    }

    // Counts an answer that says that nothing can be done now.
    fn lull(&mut self)
        ensures faults { self.new.faults ≡ self.old.faults }
        ensures lulls { self.new.lulls ≡ next_count self.old.lulls }
    {
        self.lulls = self.lulls.saturating_add(1);
    }

    // Counts a failure.
    fn fault(&mut self)
        ensures never_falls { self.old.faults ≤ self.new.faults }
        ensures faults { self.new.faults ≡ next_count self.old.faults }
        ensures lulls { self.new.lulls ≡ 0 }
    {
        self.faults = self.faults.saturating_add(1);
        self.lulls = 0;
    }
}

impl Wire for SocketWire {
    ghost left = { λ _. None };

    ghost written = { λ _. None };

    ghost faults = { λ w. w.faults };

    ghost lulls = { λ w. w.lulls };

    fn read(&mut self, room: &mut [u8]) -> Got {
        let count = self.give_first(room);
        if count > 0 {
            self.lulls = 0;
            self.rests = false;
            return Got::Bytes(count);
        }
        if !self.connection.is_readable() {
            if self.rests && self.park() {
                self.lulls = 0;
                return Got::End;
            }
            if self.hurried {
                self.lull();
                return Got::NotYet;
            }
        }
        match (&self.connection.stream).read(room) {
            Ok(0) => {
                self.lulls = 0;
                Got::End
            }
            Ok(count) => {
                if count < room.len() {
                    self.connection.set_readable(false);
                }
                self.lulls = 0;
                self.rests = false;
                Got::Bytes(count)
            }
            Err(error) if error.kind() == ErrorKind::WouldBlock && self.may_wait() => {
                self.connection.set_readable(false);
                self.lull();
                Got::NotYet
            }
            Err(_) => {
                self.fault();
                Got::Failed
            }
        }
    }

    fn write(&mut self, piece: &[u8]) -> Put {
        self.connection.set_writable(false);
        match (&self.connection.stream).write(piece) {
            Ok(0) => {
                self.fault();
                Put::Failed
            }
            Ok(count) => {
                self.lulls = 0;
                self.blocked = false;
                Put::Wrote(count)
            }
            Err(error) if error.kind() == ErrorKind::WouldBlock && self.may_wait() => {
                self.blocked = true;
                self.lull();
                Put::NotYet
            }
            Err(_) => {
                self.fault();
                Put::Failed
            }
        }
    }

    fn rest(&mut self) {
        self.rests = true;
    }

    fn hurry(&mut self) {
        if !self.hurried {
            self.hurried = true;
            let _ = self.connection.stream.set_nonblocking(true);
        }
    }

    fn is_quiet(&self) -> bool {
        self.first.is_empty()
            && !self.connection.is_readable()
            && !(self.blocked && self.connection.is_writable())
    }
}

impl Drop for SocketWire {
    fn drop(self) {
        if !self.parked {
            let _ = self.connection.stream.shutdown(Shutdown::Write);
            self.connection.set_gone();
        }
        self.dropped.fetch_add(1, Ordering::SeqCst);
        let SocketWire {
            connection: _,
            dropped: _,
            first: _,
            at: _,
            rests: _,
            hurried: _,
            waits: _,
            blocked: _,
            parked: _,
            faults: _,
            lulls: _,
        } = self;
    }
}
