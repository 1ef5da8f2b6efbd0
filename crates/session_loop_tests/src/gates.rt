//! A gate that sends a message to a session of its loop.

use node_loops::{Gate, ListGate};
use node_routes::{HereLink, Linked, NodeLink};
use push_exchange::Passes;
use push_model::{Actor, Ask, Blob, Coding, Desks, NodeId, Op, Step, Terms, Token, Urgency};
use push_ports::NoBell;
use std::alloc::Global;
use std::sync::Wait;

/// A gate that sends a message at one turn, by passes of its own, and stops its loop as another gate says.
#[derive(Drop)]
pub struct SendGate<R> {
    alloc: Global,
    passes: Passes<R, NoBell>,
    node: NodeId,
    token: Token,
    sends: u64,
    is_here: bool,
    gate: ListGate,
}

// A message without a payload, of 60 seconds.
fn bare_ask(alloc: Global) -> Ask {
    Ask {
        terms: Terms {
            ttl: 60,
            topic: None,
            urgency: Urgency::Normal,
            coding: Coding::Bare,
        },
        encryption: Blob::from_vec(Vec::new(alloc)),
        crypto_key: Blob::from_vec(Vec::new(alloc)),
        payload: Blob::from_vec(Vec::new(alloc)),
    }
}

// Sends a message to that token of the first shard, and says whether its session was there.
fn send<D: Desks>(alloc: Global, desks: &mut D, node: NodeId, token: Token) -> bool {
    if desks.count() == 0 {
        return false;
    }
    let op = Op {
        pass: desks.pass(0),
        k: 0,
    };
    let begun = desks.call(alloc, 0, Step::Begin(op, token, bare_ask(alloc)));
    let mut link = HereLink;
    let linked = link.push(alloc, desks, node, 0, op);
    let ended = desks.call(alloc, 0, Step::Heard(Actor::Flight(op)));
    begun.is_ok() && linked == Linked::Here && ended.is_ok()
}

impl<R: Wait + Copy> SendGate<R> {
    /// A gate that sends to that token at that turn.
    pub fn new(
        alloc: Global,
        passes: Passes<R, NoBell>,
        node: NodeId,
        token: Token,
        sends: u64,
        gate: ListGate,
    ) -> SendGate<R> {
        SendGate {
            alloc,
            passes,
            node,
            token,
            sends,
            is_here: false,
            gate,
        }
    }

    /// Whether the message's session was there.
    pub fn is_here(&self) -> bool {
        self.is_here
    }
}

impl<R: Wait + Copy> Gate for SendGate<R> {
    ghost stopped = { λ gate. gate.gate.stopped };

    fn stop(&mut self) -> bool {
        self.gate.stop()
    }

    fn turn(&mut self, n: u64) {
        self.gate.turn(n);
        if n == self.sends {
            self.is_here = send(self.alloc, &mut self.passes, self.node, self.token);
        }
    }
}
