//! Ports and listeners in memory.
ghost use Rattle.std.specs.Prelude.{◌≡◌, ℕ, IfSome, IsNone, drop, map};
ghost use Rattle.push_ports.specs.Accepts.{AcceptFails, given_after, lulls_after_accept};
ghost use Rattle.push_ports.specs.Offers.{NoneFails, count_after};
ghost use Rattle.push_ports.specs.ListForms.{accepted_of, first_lot, listener_after, new_listener, opened_of, ports_after};

use crate::bell::NoBell;
use crate::listener::{Accepted, Listener, Ports};
use push_model::NoMemory;
use push_outside::Wire;
use std::alloc::Global;
use std::collections::VecDeque;
use std::marker::Model;

/// A listener in memory, which gives its wires in turn and never fails.
///
/// Contracts see the wires that it has not given yet, how many it gave and how many accepts in a row found none, both up to
/// 2^64 - 1.
#[derive(Drop)]
pub struct ListListener<W> {
    wires: VecDeque<W>,
    given: u64,
    lulls: u64,
}

impl<W> Model for ListListener<W> {
    ghost use Rattle.push_ports.specs.FormValues.{ListListenerValue};

    ghost Value = { ListListenerValue W };

    ghost view = { λ s. record { left = s.wires.items; given = s.given; lulls = s.lulls } };
}

impl<W> ListListener<W> {
    /// A listener of these wires, before its first accept.
    pub fn new(wires: Vec<W>) -> ListListener<W>
        ensures { result ≡ new_listener wires.items }
    {
        ListListener {
            wires: VecDeque::from(wires),
            given: 0,
            lulls: 0,
        }
    }
}

impl<W: Wire + Drop> Listener for ListListener<W> {
    type W = W;

    type B = NoBell;

    ghost faults = { λ _. 0 };

    ghost lulls = { λ s. s.lulls };

    ghost given = { λ s. s.given };

    /// Gives the first of the wires that are left, or answers `NotYet` where none is.
    fn accept(&mut self) -> Accepted<W>
        ensures cause { AcceptFails result 0 0 }
        ensures lulls { self.new.lulls ≡ lulls_after_accept result self.old.lulls }
        ensures given { self.new.given ≡ given_after result self.old.given }
        ensures answer { result ≡ accepted_of self.old.left }
        ensures after { self.new ≡ listener_after self.old }
    {
        match self.wires.pop_front() {
            Some(wire) => {
                self.given = self.given.saturating_add(1);
                self.lulls = 0;
                Accepted::Got(wire)
            }
            None => {
                self.lulls = self.lulls.saturating_add(1);
                Accepted::NotYet
            }
        }
    }

    /// A bell that does nothing, since this listener waits for nobody.
    fn bell(&self) -> Result<NoBell, NoMemory> {
        Ok(NoBell)
    }

    /// None: a listener in memory is alone.
    fn twin(&mut self) -> Option<ListListener<W>>
        ensures fresh { IfSome result (λ twin. twin.given ≡ 0) }
        ensures calm { IfSome result (λ twin. twin.lulls ≡ 0) }
        ensures faults { ◌≡◌ {A = ℕ} 0 0 }
        ensures lulls { self.new.lulls ≡ self.old.lulls }
        ensures given { self.new.given ≡ self.old.given }
        ensures none { IsNone result }
        ensures same { self.new ≡ self.old }
    {
        None
    }

    /// None: it knows of no news.
    fn next_news(&mut self) -> Option<u64>
        ensures faults { ◌≡◌ {A = ℕ} 0 0 }
        ensures lulls { self.new.lulls ≡ self.old.lulls }
        ensures given { self.new.given ≡ self.old.given }
        ensures none { IsNone result }
        ensures same { self.new ≡ self.old }
    {
        None
    }

    /// Does nothing.
    fn wait(&mut self, _idle: bool)
        ensures faults { ◌≡◌ {A = ℕ} 0 0 }
        ensures lulls { self.new.lulls ≡ self.old.lulls }
        ensures given { self.new.given ≡ self.old.given }
        ensures same { self.new ≡ self.old }
    {}
}

/// Ports in memory, whose listens fail at the numbers that they were told.
///
/// Listens are counted from 1, up to 2^64 - 1, whatever they answer and whatever the port. Contracts see the wires of each
/// listener that is not given yet, the number of calls so far, those that fail, the number of faults so far, which is that of
/// the calls that failed, and how many listeners were given.
#[derive(Drop)]
pub struct ListPorts<W> {
    alloc: Global,
    lots: VecDeque<Vec<W>>,
    calls: u64,
    failing: Vec<u64>,
    faults: u64,
    given: u64,
}

impl<W> Model for ListPorts<W> {
    ghost use Rattle.std.specs.Prelude.{map};
    ghost use Rattle.push_ports.specs.FormValues.{ListPortsValue};

    ghost Value = { ListPortsValue W };

    ghost view = { λ s. record { left = map (λ lot. lot.items) s.lots.items; calls = s.calls; failing = s.failing.items; faults = s.faults; given = s.given } };
}

// The wires of the next listener.
fn take_lot<W>(alloc: Global, lots: &mut VecDeque<Vec<W>>) -> Vec<W>
    ensures lot { result.items ≡ first_lot (map (λ lot. lot.items) lots.old.items) }
    ensures after { lots.new.items ≡ drop 1 lots.old.items }
{
    match lots.pop_front() {
        Some(lot) => lot,
        None => Vec::new(alloc),
    }
}

impl<W> ListPorts<W> {
    /// Ports before the first listen: the first that doesn't fail gives a listener of the first of these lots of wires, and so
    /// on. A listen whose number is in `failing` fails, and takes no lot.
    pub fn new(alloc: Global, lots: Vec<Vec<W>>, failing: Vec<u64>) -> ListPorts<W>
        ensures { result ≡ record { left = map (λ lot. lot.items) lots.items; calls = 0; failing = failing.items; faults = 0; given = 0 } }
    {
        ListPorts {
            alloc,
            lots: VecDeque::from(lots),
            calls: 0,
            failing,
            faults: 0,
            given: 0,
        }
    }
}

impl<W: Wire + Drop> Ports for ListPorts<W> {
    type L = ListListener<W>;

    ghost faults = { λ s. s.faults };

    ghost given = { λ s. s.given };

    /// Counts the call. It fails as its number says; else it gives a listener of the next lot of wires, or of none where no lot
    /// is left.
    fn listen(&mut self, _port: u16) -> Option<ListListener<W>>
        ensures cause { NoneFails result self.old.faults self.new.faults }
        ensures given { self.new.given ≡ count_after result self.old.given }
        ensures fresh { IfSome result (λ listener. listener.given ≡ 0) }
        ensures calm { IfSome result (λ listener. listener.lulls ≡ 0) }
        ensures answer { result ≡ opened_of self.old }
        ensures after { self.new ≡ ports_after self.old }
    {
        self.calls = self.calls.saturating_add(1);
        if self.failing.contains(&self.calls) {
            self.faults = self.faults.saturating_add(1);
            return None;
        }
        let lot = take_lot(self.alloc, &mut self.lots);
        self.given = self.given.saturating_add(1);
        Some(ListListener::new(lot))
    }
}
