//! How hubs are made.

use super::{BELL, EVENTS, Hub, PORT};
use crate::bell::SocketBell;
use mio::unix::SourceFd;
use mio::{Events, Interest, Poll, Token};
use std::alloc::Global;
use std::collections::VecDeque;
use std::io;
use std::net::{Net, SocketAddr, TcpListener};
use std::os::fd::AsRawFd;
use std::sync::Arc;
use std::sync::atomic::AtomicU64;
use std::time::{Clock, Instant};

impl<R: Net + Clock + Copy> Hub<R> {
    /// Listens at this address.
    pub(crate) fn bind(
        alloc: Global,
        machine: R,
        address: SocketAddr,
    ) -> io::Result<(Hub<R>, SocketBell)> {
        // (mio's listener has the system's longest queue of connections, std's has 128)
        let port = TcpListener::from(mio::net::TcpListener::bind(&machine, address)?);
        Hub::over(alloc, machine, port, None)
    }

    /// A second hub over the same port, with connections of its own.
    pub(crate) fn twin(&mut self) -> io::Result<(Hub<R>, SocketBell)> {
        let port = self.port.try_clone()?;
        let ours = Arc::try_clone(&self.count)?;
        let (hub, bell) = Hub::over(self.alloc, self.clock, port, Some(ours))?;
        self.other = Some(Arc::try_clone(&hub.count)?);
        Ok((hub, bell))
    }

    fn over(
        alloc: Global,
        machine: R,
        port: TcpListener,
        other: Option<Arc<AtomicU64>>,
    ) -> io::Result<(Hub<R>, SocketBell)> {
        let poll = Poll::new(&machine)?;
        let fd = port.as_raw_fd();
        poll.registry()
            .register(&mut SourceFd(&fd), Token(PORT), Interest::READABLE)?;
        let bell = SocketBell::new(alloc, poll.registry(), Token(BELL))?;
        let hub = Hub {
            alloc,
            clock: machine,
            start: Instant::now(&machine)?,
            now: 0,
            swept: 0,
            poll,
            events: Events::with_capacity(alloc, EVENTS)?,
            port,
            open: true,
            cut_short: false,
            slots: Vec::new(alloc),
            free: Vec::new(alloc),
            serial: 0,
            line: VecDeque::new(alloc),
            arrivals: VecDeque::new(alloc),
            held: VecDeque::new(alloc),
            leftovers: VecDeque::new(alloc),
            news: VecDeque::new(alloc),
            is_asked: false,
            dropped: Arc::new(alloc, AtomicU64::new(0))?,
            noticed: 0,
            count: Arc::new(alloc, AtomicU64::new(0))?,
            other,
        };
        Ok((hub, bell))
    }
}
