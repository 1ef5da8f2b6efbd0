//! What a hub keeps of a connection.

use crate::connection::Connection;
use crate::incoming::Incoming;
use std::alloc::Global;
use std::io::{ErrorKind, Read};
use std::sync::Arc;

/// How many bytes are read at a time.
const PIECE: usize = 4096;
/// How many reads are made at a time: enough for as many bytes as are waited for.
const READS: u64 = 8;
/// How many milliseconds a connection may take for its first message.
const FIRST_MESSAGE: u64 = 10_000;
/// How many milliseconds a parked connection may take for its next message.
const NEXT_MESSAGE: u64 = 75_000;
/// How many milliseconds a connection that is to end may take for it.
const ENDING: u64 = 2_000;

/// Who has a connection.
#[derive(Clone, Copy, Debug, PartialEq, Eq)]
pub(crate) enum Stage {
    /// The hub: no wire had it yet, and its first message isn't whole.
    Fresh,
    /// The hub: it is parked between two messages.
    Parked,
    /// A wire.
    Held,
    /// The hub: its wire was dropped, and what still comes is forgotten.
    Ending,
}

/// What an event was for.
#[derive(Clone, Copy, Debug)]
pub(crate) enum Came {
    /// Something for the wire of this number.
    News(u64),
    /// Something to read of a connection that no wire has.
    Arrival,
    /// Something to forget.
    Leftover,
    /// Nothing that somebody waits for.
    Nothing,
}

/// What a look at a connection found.
#[derive(Clone, Copy, Debug, PartialEq, Eq)]
pub(crate) enum Found {
    /// Bytes to go on with, or an end or a failure that a wire shall meet.
    Whole,
    /// Nothing more now.
    Pending,
}

/// A connection that a hub knows.
#[derive(Drop)]
pub(crate) struct Slot {
    connection: Arc<Connection>,
    incoming: Incoming,
    /// The number of the wire that has it, or had it last; 0 where none had.
    number: u64,
    /// Tells connections apart that had the same place after each other.
    serial: u64,
    stage: Stage,
    /// Since when it is at this stage, in milliseconds.
    since: u64,
    /// It stands in the hub's queue of arrivals.
    queued: bool,
    /// It stands in the hub's list of connections that wires have.
    listed: bool,
}

impl Slot {
    /// A connection that was just accepted.
    pub(crate) fn new(alloc: Global, connection: Arc<Connection>, serial: u64, now: u64) -> Slot {
        Slot {
            connection,
            incoming: Incoming::new(alloc),
            number: 0,
            serial,
            stage: Stage::Fresh,
            since: now,
            queued: false,
            listed: false,
        }
    }

    fn enter(&mut self, stage: Stage, now: u64) {
        self.stage = stage;
        self.since = now;
    }

    // How many milliseconds it is at this stage.
    fn age(&self, now: u64) -> u64 {
        now.saturating_sub(self.since)
    }

    /// Whether this is that connection, and its first message isn't whole.
    pub(crate) fn is_fresh(&self, serial: u64) -> bool {
        self.serial == serial && self.stage == Stage::Fresh
    }

    /// Notes an event, and says what it was for.
    pub(crate) fn note(&mut self, readable: bool, writable: bool) -> Came {
        if writable {
            self.connection.set_writable(true);
        }
        if readable {
            self.connection.set_readable(true);
        }
        if self.connection.is_parked() {
            return self.note_arrival(readable);
        }
        match self.stage {
            Stage::Held => Came::News(self.number),
            Stage::Ending => Came::Leftover,
            Stage::Fresh | Stage::Parked => Came::Nothing,
        }
    }

    fn note_arrival(&mut self, readable: bool) -> Came {
        if !readable || self.queued {
            return Came::Nothing;
        }
        self.queued = true;
        Came::Arrival
    }

    /// Takes it out of the hub's queue of arrivals.
    pub(crate) fn leave_queue(&mut self) {
        self.queued = false;
    }

    /// Puts it into the hub's list of what wires have, and answers whether it wasn't there.
    pub(crate) fn enter_list(&mut self) -> bool {
        let was_listed = self.listed;
        self.listed = true;
        !was_listed
    }

    /// The connection and what was read of it, for the wire of this number, where it is parked and a wire can go on from there.
    pub(crate) fn offer(
        &mut self,
        alloc: Global,
        number: u64,
        now: u64,
    ) -> Option<(Arc<Connection>, Vec<u8>)> {
        let connection = Arc::try_clone(&self.connection).ok()?;
        if !self.connection.unpark() {
            return None;
        }
        if self.read_message() == Found::Pending {
            if self.stage == Stage::Held {
                self.enter(Stage::Parked, now);
            }
            self.connection.park();
            return None;
        }
        self.number = number;
        self.enter(Stage::Held, now);
        Some((connection, self.incoming.take(alloc)))
    }

    // Reads what is there of a message.
    fn read_message(&mut self) -> Found {
        let mut room = [0u8; PIECE];
        for _ in 0..READS {
            match (&self.connection.stream).read(&mut room) {
                Ok(0) => return Found::Whole,
                Ok(count) => {
                    if count < PIECE {
                        self.connection.set_readable(false);
                    }
                    if self.incoming.push(&room[..count]).is_err() || self.incoming.is_whole() {
                        return Found::Whole;
                    }
                    if count < PIECE {
                        return Found::Pending;
                    }
                }
                Err(error) if error.kind() == ErrorKind::WouldBlock => {
                    self.connection.set_readable(false);
                    return Found::Pending;
                }
                Err(_) => return Found::Whole,
            }
        }
        Found::Whole
    }

    /// Sees whether its wire was dropped, and says at which stage it is now.
    pub(crate) fn review(&mut self, now: u64) -> Stage {
        if self.stage == Stage::Held {
            if self.connection.is_gone() {
                let _ = self.connection.stream.set_nonblocking(true);
                self.enter(Stage::Ending, now);
            } else if self.connection.is_parked() {
                self.enter(Stage::Parked, now);
            }
        }
        if self.stage != Stage::Held {
            self.listed = false;
        }
        self.stage
    }

    /// Reads and forgets what has come, and answers whether the connection has ended. It reads a bounded number of times.
    pub(crate) fn forget(&mut self) -> bool {
        let mut room = [0u8; PIECE];
        for _ in 0..READS {
            match (&self.connection.stream).read(&mut room) {
                Ok(0) => return true,
                Ok(_) => {}
                Err(error) => return error.kind() != ErrorKind::WouldBlock,
            }
        }
        false
    }

    /// Whether it is to be closed now, since it took too long or has ended.
    pub(crate) fn is_over(&mut self, now: u64) -> bool {
        match self.review(now) {
            Stage::Fresh => self.age(now) >= FIRST_MESSAGE,
            Stage::Parked => self.age(now) >= NEXT_MESSAGE,
            Stage::Held => false,
            Stage::Ending => self.age(now) >= ENDING || self.forget(),
        }
    }
}
