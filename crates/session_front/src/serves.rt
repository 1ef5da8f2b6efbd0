//! A run of pumps.
ghost use Rattle.std.specs.Prelude.{◌≡◌};
ghost use Rattle.session_drive.specs.Runs.{sides};
ghost use Rattle.session_front.specs.Served.{ServedBy, ended, pause};

use crate::live::{Live, Place, Pumped, SessionServed};
use crate::pumps::pump;
use node_routes::NodeLink;
use push_model::Desks;
use push_outside::{Chat, Clock, Draw};
use session_drive::SessionEnd;
use std::alloc::Global;

fn ended(pumped: Pumped) -> Option<SessionEnd>
    ensures { result ≡ ended pumped }
{
    match pumped {
        Pumped::Done(end) => Some(end),
        Pumped::Moved | Pumped::Idle => None,
    }
}

/// Serves a session by pumps, up to so many. `Paused` comes exactly where that many were made and none was the end; then
/// `live` is as the last pump left it, and another call goes on.
pub fn serve_session<D: Desks, H: Chat, L: NodeLink<D>, C: Clock, G: Draw>(
    alloc: Global,
    desks: &mut D,
    chat: &mut H,
    link: &mut L,
    clock: &C,
    draw: &mut G,
    place: &Place,
    live: &mut Live,
    turns: u64,
) -> SessionServed
    ensures { ServedBy place.now (C.moment clock.now) turns result (pause live.old (sides D.view H.left H.taken H.sent H.code H.faults desks.old chat.old) (G.given draw.old) (L.faults link.old)) (pause live.new (sides D.view H.left H.taken H.sent H.code H.faults desks.new chat.new) (G.given draw.new) (L.faults link.new)) }
{
    for count in 0..turns {
        let pumped = pump(alloc, desks, chat, link, clock, draw, place, live);
        match ended(pumped) {
            Some(end) => return SessionServed::Done(end),
            None => {}
        }
    }
    SessionServed::Paused
}
