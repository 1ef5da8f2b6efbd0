//! The pumps of a loop's sessions.
ghost use Rattle.std.specs.Prelude.{◌≡◌, ◌<◌, ℕ, length};
ghost use Rattle.session_front.specs.Pumps.{PumpMade};
ghost use Rattle.node_sessions.specs.Seats.{seat_sides};
ghost use Rattle.node_sessions.specs.Pumps.{PumpsMade, SeatPumped, is_over, served};

use crate::seats::{Seat, Sessions};
use node_routes::NodeLink;
use push_model::Desks;
use push_outside::{Clock, Draw, Wire};
use session_front::{Place, Pumped, pump};
use std::alloc::Global;

/// How often a session is pumped in one round at most, while it moves.
const PUMPS: u32 = 4;

fn is_over(pumped: Pumped) -> bool
    ensures { result ≡ is_over pumped }
{
    matches!(pumped, Pumped::Done(_))
}

fn pump_seat<D: Desks, K: NodeLink<D>, C: Clock, G: Draw, W: Wire + Drop>(
    alloc: Global,
    desks: &mut D,
    link: &mut K,
    clock: &C,
    draw: &mut G,
    place: &Place,
    seat: &mut Seat<W>,
) -> Pumped
    ensures { PumpMade place.now seat.old.live seat.new.live (C.moment clock.now) result (seat_sides (D.view desks.old) seat.old) (seat_sides (D.view desks.new) seat.new) (G.given draw.old) (G.given draw.new) (K.faults link.old) (K.faults link.new) }
{
    let chat = &mut *seat.chat;
    let pumped = pump(alloc, desks, chat, link, clock, draw, place, &mut seat.live);
    seat.is_wanted = matches!(pumped, Pumped::Moved);
    pumped
}

// One pump of the session at that place. Once it is over it leaves its place, and its wire is dropped.
fn pump_at<D: Desks, K: NodeLink<D>, C: Clock, G: Draw, W: Wire + Drop>(
    alloc: Global,
    desks: &mut D,
    link: &mut K,
    clock: &C,
    draw: &mut G,
    place: &Place,
    sessions: &mut Sessions<W>,
    i: usize,
) -> Pumped
    requires { i < length sessions.old }
    ensures { SeatPumped place.now (C.moment clock.now) i result (served D.view K.faults G.given desks.old link.old draw.old sessions.old) (served D.view K.faults G.given desks.new link.new draw.new sessions.new) }
{
    let seat = &mut sessions.seats[i];
    let pumped = pump_seat(alloc, desks, link, clock, draw, place, seat);
    if is_over(pumped) {
        let _over = sessions.seats.remove(i);
        return pumped;
    }
    pumped
}

// Pumps the session at that place while it moves, four times at most, and says what the last pump did. Where that moved the session,
// it is noted to be pumped again.
fn pump_some<D: Desks, K: NodeLink<D>, C: Clock, G: Draw, W: Wire + Drop>(
    alloc: Global,
    desks: &mut D,
    link: &mut K,
    clock: &C,
    draw: &mut G,
    place: &Place,
    sessions: &mut Sessions<W>,
    i: usize,
) -> Pumped
    requires { i < length sessions.old }
    ensures { (n : ℕ) × PumpsMade place.now (C.moment clock.now) n (served D.view K.faults G.given desks.old link.old draw.old sessions.old) (served D.view K.faults G.given desks.new link.new draw.new sessions.new) }
{
    for count in 0..PUMPS {
        match pump_at(alloc, desks, link, clock, draw, place, sessions, i) {
            Pumped::Moved => {}
            Pumped::Idle => return Pumped::Idle,
            Pumped::Done(end) => return Pumped::Done(end),
        }
    }
    sessions.want_again(i);
    Pumped::Moved
}

// Pumps all sessions in order, each while it moves, four times at most. It says whether none moved in its last pump.
fn pump_all<D: Desks, K: NodeLink<D>, C: Clock, G: Draw, W: Wire + Drop>(
    alloc: Global,
    desks: &mut D,
    link: &mut K,
    clock: &C,
    draw: &mut G,
    place: &Place,
    sessions: &mut Sessions<W>,
) -> bool
    ensures { (n : ℕ) × PumpsMade place.now (C.moment clock.now) n (served D.view K.faults G.given desks.old link.old draw.old sessions.old) (served D.view K.faults G.given desks.new link.new draw.new sessions.new) }
{
    let mut is_calm = true;
    let mut i = 0;
    sessions.wanted.clear();
    for count in 0..sessions.len() {
        if i >= sessions.len() {
            return is_calm;
        }
        match pump_some(alloc, desks, link, clock, draw, place, sessions, i) {
            Pumped::Moved => {
                is_calm = false;
                i += 1;
            }
            Pumped::Idle => i += 1,
            Pumped::Done(_) => {}
        }
    }
    is_calm
}

// Pumps the first session that is noted to be pumped, while it moves, four times at most. It says whether it didn't move in its last
// pump; if it did it is noted again, behind the others.
fn pump_next<D: Desks, K: NodeLink<D>, C: Clock, G: Draw, W: Wire + Drop>(
    alloc: Global,
    desks: &mut D,
    link: &mut K,
    clock: &C,
    draw: &mut G,
    place: &Place,
    sessions: &mut Sessions<W>,
) -> bool
    ensures { (n : ℕ) × PumpsMade place.now (C.moment clock.now) n (served D.view K.faults G.given desks.old link.old draw.old sessions.old) (served D.view K.faults G.given desks.new link.new draw.new sessions.new) }
{
    let Some(i) = sessions.next_wanted() else {
        return true;
    };
    let pumped = pump_some(alloc, desks, link, clock, draw, place, sessions, i);
    !matches!(pumped, Pumped::Moved)
}

/// Pumps the sessions that are wanted, in the order in which they came to be so, or all in their order; each while it moves, four
/// times at most. It says whether none moved in its last pump; those that did are wanted again.
pub fn pump_wanted<D: Desks, K: NodeLink<D>, C: Clock, G: Draw, W: Wire + Drop>(
    alloc: Global,
    desks: &mut D,
    link: &mut K,
    clock: &C,
    draw: &mut G,
    place: &Place,
    sessions: &mut Sessions<W>,
    all: bool,
) -> bool
    ensures { (n : ℕ) × PumpsMade place.now (C.moment clock.now) n (served D.view K.faults G.given desks.old link.old draw.old sessions.old) (served D.view K.faults G.given desks.new link.new draw.new sessions.new) }
{
    if all || sessions.wanted.lacks_some() {
        return pump_all(alloc, desks, link, clock, draw, place, sessions);
    }
    let mut is_calm = true;
    for count in 0..sessions.wanted.len() {
        let is_still = pump_next(alloc, desks, link, clock, draw, place, sessions);
        is_calm = is_calm && is_still;
    }
    is_calm
}
