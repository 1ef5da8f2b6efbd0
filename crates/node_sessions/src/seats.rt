//! The sessions of a loop.
ghost use Rattle.std.specs.Prelude.{◌≡◌, [], length};

use crate::wanted::Wanted;
use session_front::Live;
use std::alloc::Global;
use std::marker::Model;
use ws_front::WsChat;

/// How many sessions a loop holds at most.
pub const SESSIONS: usize = 256;

/// One session of a loop. Contracts see how far it has come, and the counts of its chat.
///
/// What a round looks at stands together; the chat, which only a pump needs, stands apart.
#[derive(Drop)]
pub struct Seat<W> {
    /// How far the session has come.
    pub(crate) live: Live,
    /// The number of its wire, from 1 in the order in which they were given.
    pub(crate) number: u64,
    /// Whether it was noted that the next round is to pump it.
    pub(crate) is_wanted: bool,
    /// Its chat.
    pub(crate) chat: Box<WsChat<W>>,
}

impl<W> Model for Seat<W> {
    ghost use Rattle.node_sessions.specs.Seats.{SeatView};

    ghost Value = { SeatView };

    ghost view = { λ seat. record { marks = seat.chat.value; live = seat.live } };
}

/// The sessions of a loop, in the order in which their wires were given. Contracts see the list of them.
#[derive(Drop)]
pub struct Sessions<W> {
    pub(crate) seats: Vec<Seat<W>>,
    /// Which of them the next round is to pump.
    pub(crate) wanted: Wanted,
    /// How many wires were given so far, up to 2^64 - 1.
    pub(crate) wires: u64,
}

impl<W> Model for Sessions<W> {
    ghost use Rattle.std.specs.Prelude.{List};
    ghost use Rattle.node_sessions.specs.Seats.{SeatView};

    ghost Value = { List SeatView };

    ghost view = { λ sessions. sessions.seats.items };
}

impl<W> Sessions<W> {
    /// None, before the first wire. It takes no memory.
    pub fn new(alloc: Global) -> Sessions<W>
        ensures { result ≡ [] }
    {
        Sessions {
            seats: Vec::new(alloc),
            wanted: Wanted::new(alloc),
            wires: 0,
        }
    }

    /// How many there are.
    pub fn len(&self) -> usize
        ensures { result ≡ length self.now }
    {
        self.seats.len()
    }
}
