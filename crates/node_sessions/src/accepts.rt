//! New wires.
ghost use Rattle.std.specs.Prelude.{◌≡◌, ◌++◌, [], ◌∷◌, IfSome, None, if◌then◌else◌};
ghost use Rattle.node_sessions.specs.Accepts.{AcceptMade};
ghost use Rattle.node_sessions.specs.Seats.{new_seat};

use crate::seats::{SESSIONS, Seat, Sessions};
use push_outside::Wire;
use push_ports::{Accepted, Listener};
use session_front::Live;
use std::alloc::Global;
use ws_front::WsChat;

// A new session on that chat. Where memory is wanted the chat is dropped.
fn seat_on<W: Drop>(alloc: Global, number: u64, chat: WsChat<W>) -> Option<Seat<W>>
    requires { chat ≡ record { faults = 0; lulls = 0; code = None } }
    ensures { IfSome result (λ seat. seat ≡ new_seat) }
{
    match Box::new(alloc, chat) {
        Ok(chat) => Some(Seat {
            live: Live::new(),
            number,
            is_wanted: true,
            chat,
        }),
        Err(_) => None,
    }
}

// A new session on that wire, once a WebSocket's handshake is done. Where it is refused the wire is dropped.
fn seat_for<W: Wire + Drop>(alloc: Global, number: u64, wire: W) -> Option<Seat<W>>
    ensures { IfSome result (λ seat. seat ≡ new_seat) }
{
    let mut wire = wire;
    wire.hurry();
    match WsChat::accept(alloc, wire) {
        Ok(chat) => seat_on(alloc, number, chat),
        Err(_) => None,
    }
}

impl<W: Wire + Drop> Sessions<W> {
    // Takes a wire, and says whether its session began.
    fn take_wire(&mut self, alloc: Global, wire: W) -> bool
        ensures { self.new ≡ (if result then self.old ++ new_seat ∷ [] else self.old) }
    {
        self.wires = self.wires.saturating_add(1);
        match seat_for(alloc, self.wires, wire) {
            Some(seat) => {
                self.wanted.add(self.wires);
                self.seats.push(seat).is_ok()
            }
            None => false,
        }
    }
}

/// Takes one wire of the listener, where fewer than 256 sessions are there and it gives one now. Its session begins behind the
/// others; or the wire is dropped, where its handshake is refused or there is no memory for its session. It says whether it took a
/// wire.
pub fn take_one<L: Listener>(alloc: Global, listener: &mut L, sessions: &mut Sessions<L::W>) -> bool
    ensures { AcceptMade (L.given listener.old) (L.given listener.new) sessions.old sessions.new }
{
    if sessions.len() >= SESSIONS {
        return false;
    }
    match listener.accept() {
        Accepted::Got(wire) => {
            let _began = sessions.take_wire(alloc, wire);
            true
        }
        Accepted::NotYet | Accepted::Failed => false,
    }
}
