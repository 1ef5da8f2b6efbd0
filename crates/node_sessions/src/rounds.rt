//! One round of the loop.
ghost use Rattle.std.specs.Prelude.{◌≡◌};
ghost use Rattle.node_sessions.specs.Pumps.{served};
ghost use Rattle.node_sessions.specs.Loops.{RoundMade};

use crate::accepts::take_one;
use crate::mail::read_all;
use crate::pumps::pump_wanted;
use crate::seats::Sessions;
use node_routes::NodeLink;
use push_model::Desks;
use push_outside::{Clock, Draw};
use push_ports::Listener;
use session_front::Place;
use std::alloc::Global;

/// How many pieces of news one round hears at most.
const NEWS: u32 = 1_024;

// Hears for which sessions something came in, and says whether that is all the news.
fn hear_news<L: Listener>(listener: &mut L, sessions: &mut Sessions<L::W>) -> bool
    ensures given { L.given listener.new ≡ L.given listener.old }
    ensures same { sessions.new ≡ sessions.old }
{
    for count in 0..NEWS {
        match listener.next_news() {
            Some(number) => sessions.want(number),
            None => return true,
        }
    }
    false
}

/// One round: takes one wire, where there is room and one is given; hears the news and the mail of the node; and pumps the sessions
/// that are new, have news, are due or moved in the last round, or all. It says whether the loop is idle: no wire was taken, and no
/// session moved in its last pump.
pub fn round<D: Desks, L: Listener, K: NodeLink<D>, C: Clock, G: Draw>(
    alloc: Global,
    desks: &mut D,
    listener: &mut L,
    link: &mut K,
    clock: &C,
    draw: &mut G,
    place: &Place,
    sessions: &mut Sessions<L::W>,
    all: bool,
) -> bool
    ensures { RoundMade place.now (C.moment clock.now) (L.given listener.old) (L.given listener.new) (served D.view K.faults G.given desks.old link.old draw.old sessions.old) (served D.view K.faults G.given desks.new link.new draw.new sessions.new) }
{
    let took = take_one(alloc, listener, sessions);
    let is_all = hear_news(listener, sessions);
    read_all(desks, place.node, sessions);
    let is_calm = pump_wanted(alloc, desks, link, clock, draw, place, sessions, all);
    !took && is_all && is_calm
}
