//! The end of the sessions where the node stops.
ghost use Rattle.std.specs.Prelude.{Some};
ghost use Rattle.session_front.specs.Pumps.{Finishes, Shuts};
ghost use Rattle.node_sessions.specs.Seats.{web_chat};
ghost use Rattle.node_sessions.specs.Closes.{SeatClosed, SeatsClosed, going_away};

use crate::seats::{Seat, Sessions};
use node_routes::NodeLink;
use push_model::{Desks, SessionId};
use push_outside::{Chat, Wire};
use session_drive::shut;
use std::alloc::Global;
use ws_front::WsChat;

/// The code that tells a client that the server goes away (RFC 6455, section 7.4.1).
const GOING_AWAY: u16 = 1_001;

fn shut_attached<D: Desks, K: NodeLink<D>>(
    alloc: Global,
    desks: &mut D,
    link: &mut K,
    s: Option<SessionId>,
)
    ensures { Shuts s (D.view desks.old) (D.view desks.new) (K.faults link.old) (K.faults link.new) }
{
    match s {
        Some(s) => {
            let _saved = shut(alloc, desks, link, s);
        }
        None => {}
    }
}

fn finish<W: Wire + Drop>(chat: &mut WsChat<W>)
    ensures { Finishes (Some going_away) (web_chat chat.old) (web_chat chat.new) }
{
    let _sent = chat.finish(GOING_AWAY);
}

// Shuts the session, if it is attached, and tells its client that the server goes away. Then its wire is dropped.
fn close<D: Desks, K: NodeLink<D>, W: Wire + Drop>(
    alloc: Global,
    desks: &mut D,
    link: &mut K,
    seat: Seat<W>,
)
    ensures { SeatClosed seat (D.view desks.old) (D.view desks.new) (K.faults link.old) (K.faults link.new) }
{
    let mut seat = seat;
    shut_attached(alloc, desks, link, seat.live.s);
    finish(&mut seat.chat);
}

/// Closes each session, the last first.
pub fn close_all<D: Desks, K: NodeLink<D>, W: Wire + Drop>(
    alloc: Global,
    desks: &mut D,
    link: &mut K,
    sessions: Sessions<W>,
)
    ensures { SeatsClosed sessions (D.view desks.old) (D.view desks.new) (K.faults link.old) (K.faults link.new) }
{
    let Sessions {
        mut seats,
        wanted: _,
        wires: _,
    } = sessions;
    for count in 0..seats.len() {
        match seats.pop() {
            Some(seat) => close(alloc, desks, link, seat),
            None => return,
        }
    }
}
