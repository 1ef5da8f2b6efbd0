//! A gate in memory.
ghost use Rattle.std.specs.Prelude.{◌≡◌, ◌+◌, ◌-◌, ◌≤◌, ◌<◌, ◌||◌, ◌++◌, ◌∷◌, [], false, IfOk, vec_len, vec_capacity};
ghost use Rattle.node_loops.specs.declared.list_gate.GateNote.{GateNote};
ghost use Rattle.node_loops.specs.declared.list_gate.GateNote.TheVariants.{Stop, Turn};
ghost use Rattle.node_loops.specs.ListGates.{gate_after, noted, stops_now};

use crate::gate::Gate;
use push_model::NoMemory;
use std::alloc::Global;
use std::marker::Model;

/// A call of a loop to its gate.
#[derive(Clone, Copy, Debug, PartialEq, Eq)]
pub enum GateNote {
    /// It asked whether to stop.
    Stop,
    /// It told of its turn of this number.
    Turn(u64),
}

/// A gate in memory, which answers true at the stop of one number and at each later one, and notes the calls.
///
/// Stops are counted from 1, up to 2^64 - 1. Contracts see how many there were, the number from which on they answer true, whether
/// one has answered true, the notes in order, and how many more it has room for. A call for which there is no room isn't noted.
#[derive(Debug, Drop)]
pub struct ListGate {
    stops: u64,
    last: u64,
    stopped: bool,
    notes: Vec<GateNote>,
    room: usize,
}

impl Model for ListGate {
    ghost use Rattle.std.specs.Prelude.{◌+◌, ◌≤◌, vec_len, vec_capacity};
    ghost use Rattle.node_loops.specs.ListGateValue.{ListGateValue};

    ghost Value = { ListGateValue };

    ghost view = { λ g. record { stops = g.stops; last = g.last; stopped = g.stopped; notes = g.notes.items; room = g.room } };

    ghost invariant = { λ g. vec_len g.notes + g.room ≤ vec_capacity g.notes };
}

impl ListGate {
    /// A gate before its first call, which answers true from its stop of the number `last` on and has room for so many notes.
    pub fn new(alloc: Global, last: u64, room: usize) -> Result<ListGate, NoMemory>
        ensures { IfOk result (λ gate. gate ≡ record { stops = 0; last = last; stopped = false; notes = []; room = room }) }
    {
        match Vec::with_capacity(alloc, room) {
            Ok(notes) => Ok(ListGate {
                stops: 0,
                last,
                stopped: false,
                notes,
                room,
            }),
            Err(_) => Err(NoMemory),
        }
    }

    /// The calls that were noted, in order.
    pub fn notes(&self) -> &[GateNote]
        ensures { result.now ≡ self.now.notes }
    {
        self.notes.as_slice()
    }

    // Notes a call, where there is room.
    fn note(&mut self, call: GateNote)
        ensures { self.new ≡ noted call self.old }
    {
        if self.room == 0 {
            return;
        }
        self.room -= 1;
        let _ = self.notes.push(call);
    }
}

impl Gate for ListGate {
    ghost stopped = { λ gate. gate.stopped };

    /// Counts the call, and answers as its number says.
    fn stop(&mut self) -> bool
        ensures stopped { self.new.stopped ≡ (self.old.stopped || result) }
        ensures answer { result ≡ stops_now self.old }
        ensures after { self.new ≡ gate_after self.old }
    {
        self.note(GateNote::Stop);
        self.stops = self.stops.saturating_add(1);
        let is_last = self.last <= self.stops;
        self.stopped = self.stopped || is_last;
        is_last
    }

    /// Notes the turn.
    fn turn(&mut self, n: u64)
        ensures stopped { self.new.stopped ≡ self.old.stopped }
        ensures after { self.new ≡ noted (Turn n) self.old }
    {
        self.note(GateNote::Turn(n));
    }
}
