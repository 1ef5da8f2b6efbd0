//! Listeners over sockets.
ghost use Rattle.std.specs.Prelude.{◌≡◌, IfOk};

use crate::bell::SocketBell;
use crate::hub::Hub;
use crate::wire::SocketWire;
use push_model::NoMemory;
use push_ports::{Accepted, Bell, Listener};
use std::alloc::Global;
use std::io;
use std::net::{Net, SocketAddr};
use std::time::{Clock, Duration};

/// How many milliseconds an idle wait is at most, should a ring or a readiness be lost.
const SLEEP: u64 = 1000;
/// How many milliseconds an accept waits where nobody calls `wait`.
const ACCEPT: u64 = 50;
/// In busy rounds the hub looks at readiness once in so many.
const BUSY: u64 = 4;

/// A listener at a port of this machine.
///
/// Until its first `wait` an accept waits for at most 50 milliseconds; from then on it doesn't wait, and `wait` does, for at most
/// a second. A connection whose first message isn't whole is closed after 10 seconds, or once 1,024 others came after it, and a
/// parked one after 75 seconds.
#[derive(Drop)]
pub struct SocketListener<R> {
    hub: Hub<R>,
    bell: SocketBell,
    /// Someone waits by `wait`, so an accept doesn't.
    hurried: bool,
    /// There was an accept since the last wait.
    accepts: bool,
    /// At how many rings the last wait ended.
    seen: u64,
    /// How many waits there were since the last look at readiness.
    busy: u64,
    faults: u64,
    lulls: u64,
    given: u64,
}

impl<R: Net + Clock + Copy> SocketListener<R> {
    /// Listens at this address.
    pub(crate) fn bind(
        alloc: Global,
        machine: R,
        address: SocketAddr,
    ) -> io::Result<SocketListener<R>>
        ensures given { IfOk result (λ listener. listener.given ≡ 0) }
        ensures lulls { IfOk result (λ listener. listener.lulls ≡ 0) }
    {
        let (hub, bell) = Hub::bind(alloc, machine, address)?;
        Ok(SocketListener::over(hub, bell))
    }

    fn over(hub: Hub<R>, bell: SocketBell) -> SocketListener<R>
        ensures given { result.given ≡ 0 }
        ensures lulls { result.lulls ≡ 0 }
    {
        SocketListener {
            hub,
            bell,
            hurried: false,
            accepts: false,
            seen: 0,
            busy: 0,
            faults: 0,
            lulls: 0,
            given: 0,
        }
    }

    // The wire of the next message that is here.
    fn next_wire(&mut self) -> Option<SocketWire>
        ensures faults { self.new.faults ≡ self.old.faults }
        ensures lulls { self.new.lulls ≡ self.old.lulls }
        ensures given { self.new.given ≡ self.old.given }
    {
        let dropped = self.hub.dropped()?;
        let (connection, first) = self.hub.next(self.given.saturating_add(1))?;
        Some(SocketWire::new(connection, dropped, first))
    }

    // Takes in what came, and answers whether the port is in order.
    fn take_in(&mut self, polite: bool) -> bool
        ensures faults { self.new.faults ≡ self.old.faults }
        ensures lulls { self.new.lulls ≡ self.old.lulls }
        ensures given { self.new.given ≡ self.old.given }
    {
        self.hub.tend();
        self.hub.take_in(polite).is_ok()
    }

    // Waits for a next message, where nobody else waits, and gives its wire.
    fn wait_for_wire(&mut self) -> Option<SocketWire>
        ensures faults { self.new.faults ≡ self.old.faults }
        ensures lulls { self.new.lulls ≡ self.old.lulls }
        ensures given { self.new.given ≡ self.old.given }
    {
        if self.hurried {
            return None;
        }
        let has_woken = self.hub.look(Duration::from_millis(ACCEPT));
        // (a twin that didn't take in what came here is busy)
        let _ = self.take_in(has_woken);
        self.next_wire()
    }
}

impl<R: Net + Clock + Copy> Listener for SocketListener<R> {
    type W = SocketWire;

    type B = SocketBell;

    ghost faults = { λ l. l.faults };

    ghost lulls = { λ l. l.lulls };

    ghost given = { λ l. l.given };

    fn accept(&mut self) -> Accepted<SocketWire> {
        self.accepts = true;
        let is_sound = self.take_in(!self.hurried);
        let mut found = self.next_wire();
        if found.is_none() && is_sound {
            found = self.wait_for_wire();
        }
        match found {
            Some(wire) => {
                self.lulls = 0;
                self.given = self.given.saturating_add(1);
                Accepted::Got(wire)
            }
            None if is_sound => {
                self.lulls = self.lulls.saturating_add(1);
                Accepted::NotYet
            }
            None => {
                self.faults = self.faults.saturating_add(1);
                self.lulls = 0;
                Accepted::Failed
            }
        }
    }

    fn bell(&self) -> Result<SocketBell, NoMemory> {
        self.bell.again()
    }

    fn twin(&mut self) -> Option<SocketListener<R>> {
        let (hub, bell) = self.hub.twin().ok()?;
        Some(SocketListener::over(hub, bell))
    }

    fn next_news(&mut self) -> Option<u64> {
        self.hub.next_news()
    }

    fn wait(&mut self, idle: bool) {
        self.hurried = true;
        self.hub.tend();
        let has_more = self.accepts && self.hub.has_more();
        self.accepts = false;
        if idle && !has_more && self.bell.lie_down(self.seen) {
            let _ = self.hub.look(Duration::from_millis(SLEEP));
            self.bell.get_up();
            self.busy = 0;
        } else {
            self.busy = self.busy.saturating_add(1);
            if self.busy >= BUSY {
                let _ = self.hub.look(Duration::ZERO);
                self.busy = 0;
            }
        }
        self.seen = self.bell.rings();
    }
}
