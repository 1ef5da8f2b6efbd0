//! Connections.

use std::net::TcpStream;
use std::sync::atomic::{AtomicBool, Ordering};

/// A connection, and what is known of it. A hub and at most one wire that is in use share it.
#[derive(Drop)]
pub(crate) struct Connection {
    pub(crate) stream: TcpStream,
    /// Something came since the last read that gave less than its room.
    readable: AtomicBool,
    /// There may be room since the last write.
    writable: AtomicBool,
    /// No wire has it: it waits for its next message.
    parked: AtomicBool,
    /// Its wire was dropped, and the connection is to end.
    gone: AtomicBool,
}

impl Connection {
    /// A connection that no wire has yet.
    pub(crate) fn new(stream: TcpStream) -> Connection {
        Connection {
            stream,
            readable: AtomicBool::new(false),
            writable: AtomicBool::new(true),
            parked: AtomicBool::new(true),
            gone: AtomicBool::new(false),
        }
    }

    pub(crate) fn is_readable(&self) -> bool {
        self.readable.load(Ordering::SeqCst)
    }

    pub(crate) fn set_readable(&self, is_readable: bool) {
        self.readable.store(is_readable, Ordering::SeqCst);
    }

    pub(crate) fn is_writable(&self) -> bool {
        self.writable.load(Ordering::SeqCst)
    }

    pub(crate) fn set_writable(&self, is_writable: bool) {
        self.writable.store(is_writable, Ordering::SeqCst);
    }

    pub(crate) fn is_parked(&self) -> bool {
        self.parked.load(Ordering::SeqCst)
    }

    pub(crate) fn park(&self) {
        self.parked.store(true, Ordering::SeqCst);
    }

    /// Takes it for a wire, and answers whether it was parked.
    pub(crate) fn unpark(&self) -> bool {
        self.parked.swap(false, Ordering::SeqCst)
    }

    pub(crate) fn is_gone(&self) -> bool {
        self.gone.load(Ordering::SeqCst)
    }

    pub(crate) fn set_gone(&self) {
        self.gone.store(true, Ordering::SeqCst);
    }
}
