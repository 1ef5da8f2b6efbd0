//! A seat's turn: it draws a ticket, waits until that is served, takes the object out, and puts it back.
ghost use Rattle.std.specs.Prelude.{◌≡◌, ℕ, ◌%◌, ◌<◌, ◌∷◌, [], length, Some, None, MatchBool};
ghost use Rattle.turn_board.specs.declared.view.Place.TheVariants.{Free, Waits};
ghost use Rattle.turn_board.specs.Numbers.{word_size};
ghost use Rattle.turn_board.specs.Views.{at_place};
ghost use Rattle.turn_board.specs.Plays.{Begins};
ghost use Rattle.turn_board.specs.Seats.{IsSameSeat, IsSeatOf, IsWaiting, waited, HasTurn, Holding};

use crate::object::Object;
use crate::plays::{DrawTicket, EndTurn, Look, Stay};
use crate::rule::{BoardSeat, BoardTable, PARKED, SERVING, TICKET};
use crate::view::Home;
use std::sync::Wait;

/// How often a caller looks before it parks. So many looks take somewhat less time than to sleep and be woken.
const LOOKS: u32 = 2_000;

/// Draws a ticket.
pub fn draw_ticket<T: Object>(table: &BoardTable<T>, seat: &mut BoardSeat<T>) -> u64
    requires table { IsSeatOf table.now.shared.table_id seat.old }
    requires free { (seat.old.me.0.place ≡ Free) × (0 < length seat.old.me.0.numbers) }
    ensures same { IsSameSeat seat.old seat.new }
    ensures ticket { (k : ℕ) × (k % word_size ≡ result) × (seat.new.me ≡ (at_place seat.old.me.0 (Waits k), seat.old.me.1)) }
{
    table.shared.fetch_add::<DrawTicket>(seat, TICKET, 1)
}

// Whether the ticket is served.
fn look<T: Object>(table: &BoardTable<T>, seat: &mut BoardSeat<T>, ticket: u64) -> bool
    requires table { IsSeatOf table.now.shared.table_id seat.old }
    requires waits { IsWaiting ticket seat.old.me }
    ensures same { IsSameSeat seat.old seat.new }
    ensures look { MatchBool result (Begins T.run T.proper (waited seat.old.me.0.place) seat.old.me seat.new.me) (seat.new.me ≡ seat.old.me) }
{
    ticket == table.shared.load::<Look<T>>(seat, SERVING)
}

// Whether the ticket is served within a few looks.
fn look_on<T: Object>(table: &BoardTable<T>, seat: &mut BoardSeat<T>, ticket: u64) -> bool
    requires table { IsSeatOf table.now.shared.table_id seat.old }
    requires waits { IsWaiting ticket seat.old.me }
    ensures same { IsSameSeat seat.old seat.new }
    ensures look { MatchBool result (Begins T.run T.proper (waited seat.old.me.0.place) seat.old.me seat.new.me) (seat.new.me ≡ seat.old.me) }
{
    for _ in 0..LOOKS {
        if look(table, seat, ticket) {
            return true;
        }
    }
    false
}

// Sleeps until another turn ends. A caller that ends its turn after this one was counted wakes it; where one ended
// before, the word has changed, and there is no sleep.
fn park<T: Object, R: Wait>(rt: &R, table: &BoardTable<T>, seat: &mut BoardSeat<T>, ticket: u64)
    requires table { IsSeatOf table.now.shared.table_id seat.old }
    ensures same { IsSameSeat seat.old seat.new }
    ensures view { seat.new.me ≡ seat.old.me }
{
    table.shared.fetch_add::<Stay>(seat, PARKED, 1);
    let serving = table.shared.peek(SERVING);
    if serving != ticket {
        let low = serving % (1 << 32);
        table.shared.park(rt, SERVING, low as u32);
    }
    table.shared.fetch_sub::<Stay>(seat, PARKED, 1);
}

// Takes the object out of the slot.
fn take<T: Object>(table: &BoardTable<T>, seat: &mut BoardSeat<T>) -> Home<T>
    requires table { IsSeatOf table.now.shared.table_id seat.old }
    requires turn { (home : _) × (seat.old.me.1 ≡ (0, Some home) ∷ []) }
    ensures same { IsSameSeat seat.old seat.new }
    ensures home { (seat.old.me.1 ≡ (0, Some result) ∷ []) × (seat.new.me ≡ (seat.old.me.0, (0, None) ∷ [])) }
{
    match table.shared.exchange(seat, 0, None) {
        Some(home) => home,
        None => unreachable!(),
    }
}

/// Waits for the turn of the ticket, and takes the object out.
pub fn begin_turn<T: Object, R: Wait>(
    rt: &R,
    table: &BoardTable<T>,
    seat: &mut BoardSeat<T>,
    ticket: u64,
) -> Home<T>
    requires table { IsSeatOf table.now.shared.table_id seat.old }
    requires waits { IsWaiting ticket seat.old.me }
    ensures same { IsSameSeat seat.old seat.new }
    ensures turn { HasTurn T.run T.proper seat.old.me result seat.new.me }
{
    for _ in rt.forever() {
        if look_on(table, seat, ticket) {
            return take(table, seat);
        }
        park(rt, table, seat, ticket);
    }
    unreachable!()
}

/// Puts the object back, ends the turn, and wakes those who parked.
pub fn end_turn<T: Object>(table: &BoardTable<T>, seat: &mut BoardSeat<T>, home: Home<T>)
    requires table { IsSeatOf table.now.shared.table_id seat.old }
    requires holding { Holding T.run T.proper seat.old.me home }
    ensures same { IsSameSeat seat.old seat.new }
    ensures view { seat.new.me ≡ (at_place seat.old.me.0 Free, []) }
{
    let taken = table.shared.exchange(seat, 0, Some(home));
    let None = taken else { unreachable!() };
    table.shared.fetch_add::<EndTurn>(seat, SERVING, 1);
    if table.shared.peek(PARKED) > 0 {
        table.shared.wake_all(SERVING);
    }
}
