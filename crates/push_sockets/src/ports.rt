//! The ports of this machine.

use crate::listener::SocketListener;
use push_ports::Ports;
use std::alloc::Global;
use std::net::{Ipv4Addr, Net, SocketAddr};
use std::time::Clock;

/// The ports of one address of this machine. A listen fails where the port can't be listened at, as where another process does
/// so, and where there is no memory.
#[derive(Drop)]
pub struct SocketPorts<R> {
    alloc: Global,
    machine: R,
    address: Ipv4Addr,
    faults: u64,
    given: u64,
}

impl<R: Net + Clock + Copy> SocketPorts<R> {
    /// The ports of this address, before the first listen.
    pub fn new(alloc: Global, machine: R, address: Ipv4Addr) -> SocketPorts<R> {
        SocketPorts {
            alloc,
            machine,
            address,
            faults: 0,
            given: 0,
        }
    }
}

impl<R: Net + Clock + Copy> Ports for SocketPorts<R> {
    type L = SocketListener<R>;

    ghost faults = { λ p. p.faults };

    ghost given = { λ p. p.given };

    fn listen(&mut self, port: u16) -> Option<SocketListener<R>> {
        let address = SocketAddr::from((self.address, port));
        match SocketListener::bind(self.alloc, self.machine, address) {
            Ok(listener) => {
                self.given = self.given.saturating_add(1);
                Some(listener)
            }
            Err(_) => {
                self.faults = self.faults.saturating_add(1);
                None
            }
        }
    }
}
