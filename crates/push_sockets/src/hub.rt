//! A set of readiness over one port and its connections.

mod opening;

use crate::connection::Connection;
use crate::slot::{Came, Slot, Stage};
use mio::unix::SourceFd;
use mio::{Events, Interest, Poll, Token};
use std::alloc::Global;
use std::collections::VecDeque;
use std::io;
use std::io::ErrorKind;
use std::net::{Net, TcpListener, TcpStream};
use std::os::fd::AsRawFd;
use std::sync::Arc;
use std::sync::atomic::{AtomicU64, Ordering};
use std::time::{Clock, Duration, Instant};

/// The token of the listening socket.
const PORT: usize = 0;
/// The token of the bell.
const BELL: usize = 1;
/// The token of the first connection.
const FIRST: usize = 2;
/// How many events are taken at a time.
const EVENTS: usize = 256;
/// How many connections are accepted at a time.
const ACCEPTS: u64 = 64;
/// How many arrivals are looked at for one wire.
const ARRIVALS: u64 = 256;
/// How many connections may have come after one whose first message isn't whole.
const LINE: usize = 1024;
/// How many pieces of news are kept.
const NEWS: usize = 4096;
/// How many milliseconds a read or a write waits, unless its wire is hurried.
const PATIENCE: u64 = 5;
/// How many milliseconds lie between two looks at the age of every connection.
const SWEEP: u64 = 1000;

/// A listening socket, its connections, and what has come in on them.
#[derive(Drop)]
pub(crate) struct Hub<R> {
    alloc: Global,
    clock: R,
    start: Instant,
    /// The milliseconds since the start, as last read.
    now: u64,
    /// When every connection was last looked at.
    swept: u64,
    poll: Poll,
    events: Events,
    port: TcpListener,
    /// The port may have more to accept.
    open: bool,
    /// The last accepting stopped though there may have been more.
    cut_short: bool,
    slots: Vec<Option<Slot>>,
    /// The empty places among the slots.
    free: Vec<usize>,
    /// How many connections were accepted so far.
    serial: u64,
    /// The places and serial numbers of the last connections that were accepted, in order.
    line: VecDeque<(usize, u64)>,
    /// The places of parked connections that something came on.
    arrivals: VecDeque<usize>,
    /// The places of connections that wires have.
    held: VecDeque<usize>,
    /// The places of connections that are to end, and on which something may have come.
    leftovers: VecDeque<usize>,
    /// The numbers of the wires that something came for, once someone asked for them.
    news: VecDeque<u64>,
    is_asked: bool,
    /// How many wires were dropped, and how many of these were noticed.
    dropped: Arc<AtomicU64>,
    noticed: u64,
    /// How many connections this hub has, and its twin.
    count: Arc<AtomicU64>,
    other: Option<Arc<AtomicU64>>,
}

impl<R: Net + Clock + Copy> Hub<R> {
    /// The count of wires that were dropped, for a wire.
    pub(crate) fn dropped(&self) -> Option<Arc<AtomicU64>> {
        Arc::try_clone(&self.dropped).ok()
    }

    /// Whether an accept would most likely find something that is here already.
    pub(crate) fn has_more(&self) -> bool {
        self.cut_short || !self.arrivals.is_empty()
    }

    /// The next number of a wire that something came for.
    pub(crate) fn next_news(&mut self) -> Option<u64> {
        self.is_asked = true;
        self.news.pop_front()
    }

    /// Looks for what came in, for at most this long, and answers whether anything did.
    pub(crate) fn look(&mut self, longest: Duration) -> bool {
        if self.poll.poll(&mut self.events, Some(longest)).is_err() {
            return false;
        }
        for event in &self.events {
            let Token(token) = event.token();
            if token == PORT {
                self.open = true;
                continue;
            }
            let Some(place) = token.checked_sub(FIRST) else {
                continue;
            };
            let Some(Some(slot)) = self.slots.get_mut(place) else {
                continue;
            };
            let readable = event.is_readable() || event.is_read_closed() || event.is_error();
            match slot.note(readable, event.is_writable()) {
                Came::News(number) => {
                    if self.is_asked && self.news.len() < NEWS {
                        let _ = self.news.push_back(number);
                    }
                }
                Came::Arrival => {
                    let _ = self.arrivals.push_back(place);
                }
                Came::Leftover => {
                    let _ = self.leftovers.push_back(place);
                }
                Came::Nothing => {}
            }
        }
        !self.events.is_empty()
    }

    /// Goes on with the connections whose wires were dropped, and closes those that took too long.
    pub(crate) fn tend(&mut self) {
        if let Ok(passed) = self.start.elapsed(&self.clock) {
            self.now = millis_of(passed);
        }
        self.notice_dropped();
        self.forget_leftovers();
        if self.now.saturating_sub(self.swept) >= SWEEP {
            self.swept = self.now;
            self.sweep();
        }
    }

    // Finds the connections whose wires were dropped since the last time.
    fn notice_dropped(&mut self) {
        let dropped = self.dropped.load(Ordering::SeqCst);
        if dropped == self.noticed {
            return;
        }
        self.noticed = dropped;
        for _ in 0..self.held.len() {
            let Some(place) = self.held.pop_front() else {
                return;
            };
            match self.review(place) {
                Some(Stage::Held) => {
                    let _ = self.held.push_back(place);
                }
                Some(Stage::Ending) => {
                    let _ = self.leftovers.push_back(place);
                }
                Some(Stage::Fresh | Stage::Parked) | None => {}
            }
        }
    }

    fn review(&mut self, place: usize) -> Option<Stage> {
        match self.slots.get_mut(place) {
            Some(Some(slot)) => Some(slot.review(self.now)),
            _ => None,
        }
    }

    // Reads and forgets what came on connections that are to end.
    fn forget_leftovers(&mut self) {
        for _ in 0..self.leftovers.len() {
            let Some(place) = self.leftovers.pop_front() else {
                return;
            };
            if self.has_ended(place) {
                self.close(place);
            }
        }
    }

    // Whether the connection at this place was to end and has ended.
    fn has_ended(&mut self, place: usize) -> bool {
        match self.slots.get_mut(place) {
            Some(Some(slot)) => slot.review(self.now) == Stage::Ending && slot.forget(),
            _ => false,
        }
    }

    fn close(&mut self, place: usize) {
        if let Some(slot) = self.slots.get_mut(place) {
            *slot = None;
            self.count.fetch_sub(1, Ordering::SeqCst);
            let _ = self.free.push(place);
        }
    }

    // Closes every connection that took too long or has ended.
    fn sweep(&mut self) {
        for place in 0..self.slots.len() {
            if self.is_over(place) {
                self.close(place);
            }
        }
    }

    fn is_over(&mut self, place: usize) -> bool {
        match self.slots.get_mut(place) {
            Some(Some(slot)) => slot.is_over(self.now),
            _ => false,
        }
    }

    // Whether the twin, if there is one, has fewer connections.
    fn has_more_than_twin(&self) -> bool {
        match &self.other {
            Some(other) => other.load(Ordering::SeqCst) < self.count.load(Ordering::SeqCst),
            None => false,
        }
    }

    /// Accepts what waits at the port, so many at a time; where it is polite, only while the twin has no fewer. An error of the
    /// port is answered, and the next call tries again.
    pub(crate) fn take_in(&mut self, polite: bool) -> io::Result<()> {
        self.cut_short = false;
        for _ in 0..ACCEPTS {
            if !self.open || polite && self.has_more_than_twin() {
                return Ok(());
            }
            match self.port.accept() {
                Ok((stream, _)) => self.add(stream)?,
                Err(error) if error.kind() == ErrorKind::WouldBlock => self.open = false,
                Err(error) => {
                    self.make_room();
                    return Err(error);
                }
            }
        }
        self.cut_short = true;
        Ok(())
    }

    fn add(&mut self, stream: TcpStream) -> io::Result<()> {
        let patience = Some(Duration::from_millis(PATIENCE));
        stream.set_nonblocking(false)?;
        stream.set_nodelay(true)?;
        stream.set_read_timeout(patience)?;
        stream.set_write_timeout(patience)?;
        let connection = Arc::new(self.alloc, Connection::new(stream))?;
        let place = self.free_place()?;
        if let Err(error) = self.register(&connection, place) {
            let _ = self.free.push(place);
            return Err(error);
        }
        self.serial = self.serial.wrapping_add(1);
        let slot = Slot::new(self.alloc, connection, self.serial, self.now);
        if let Some(room) = self.slots.get_mut(place) {
            *room = Some(slot);
        }
        self.count.fetch_add(1, Ordering::SeqCst);
        self.shorten_line(LINE);
        self.line.push_back((place, self.serial))?;
        Ok(())
    }

    fn free_place(&mut self) -> io::Result<usize> {
        if let Some(place) = self.free.pop() {
            return Ok(place);
        }
        let place = self.slots.len();
        self.slots.push(None)?;
        Ok(place)
    }

    fn register(&self, connection: &Connection, place: usize) -> io::Result<()> {
        let Some(token) = place.checked_add(FIRST) else {
            return Err(io::Error::from(ErrorKind::OutOfMemory));
        };
        let fd = connection.stream.as_raw_fd();
        let both = Interest::READABLE | Interest::WRITABLE;
        self.poll
            .registry()
            .register(&mut SourceFd(&fd), Token(token), both)
    }

    // Closes half of those that say nothing, where descriptors may be wanting.
    fn make_room(&mut self) {
        let half = self.line.len() / 2;
        self.shorten_line(half);
    }

    // Leaves at most so many in the line, and closes those of the others whose first message isn't whole.
    fn shorten_line(&mut self, longest: usize) {
        for _ in 0..self.line.len() {
            if self.line.len() <= longest {
                return;
            }
            if let Some((place, serial)) = self.line.pop_front() {
                self.close_fresh(place, serial);
            }
        }
    }

    fn close_fresh(&mut self, place: usize, serial: u64) {
        let is_fresh = match self.slots.get(place) {
            Some(Some(slot)) => slot.is_fresh(serial),
            _ => false,
        };
        if is_fresh {
            self.close(place);
        }
    }

    /// The next parked connection whose message is whole, or that ended or failed, with what was read of it, for the wire of this
    /// number.
    pub(crate) fn next(&mut self, number: u64) -> Option<(Arc<Connection>, Vec<u8>)> {
        for _ in 0..ARRIVALS {
            let place = self.arrivals.pop_front()?;
            let found = self.offer(place, number);
            if found.is_some() {
                return found;
            }
        }
        None
    }

    fn offer(&mut self, place: usize, number: u64) -> Option<(Arc<Connection>, Vec<u8>)> {
        let Some(Some(slot)) = self.slots.get_mut(place) else {
            return None;
        };
        slot.leave_queue();
        let found = slot.offer(self.alloc, number, self.now)?;
        if slot.enter_list() {
            let _ = self.held.push_back(place);
        }
        Some(found)
    }
}

fn millis_of(passed: Duration) -> u64 {
    let seconds = passed.as_secs();
    let millis = u64::from(passed.subsec_millis());
    seconds.saturating_mul(1000).saturating_add(millis)
}
