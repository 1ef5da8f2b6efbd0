//! Seats come and go: a number is drawn for a new one, seats are cut and joined, and the numbers are counted.
ghost use Rattle.std.specs.Prelude.{◌≡◌, ◌<◌, ◌≤◌, ◌++◌, false, [], ◌∷◌, length, MatchBool};
ghost use Rattle.turn_board.specs.declared.view.Place.TheVariants.{Free};
ghost use Rattle.turn_board.specs.Numbers.{most_seats, has};
ghost use Rattle.turn_board.specs.Views.{AllParts, SignsNothing, number_count, with_spare, with_count, without_parts, kept_half, given_half, joined};
ghost use Rattle.turn_board.specs.Plays.{IsSoundSeat};
ghost use Rattle.turn_board.specs.Seats.{IsSameSeat, IsSeatOf};

use crate::object::Object;
use crate::plays::{Compare, Count, DrawNumber, Halves};
use crate::rule::{BoardSeat, BoardTable, SEATS};
use std::sync::Wait;

/// The most numbers that are drawn.
const MOST: u64 = 1 << 63;

// Draws the number, if it is the next one.
fn try_number<T: Object>(table: &BoardTable<T>, seat: &mut BoardSeat<T>, n: u64) -> bool
    requires table { IsSeatOf table.now.shared.table_id seat.old }
    requires free { (seat.old.me.0.place ≡ Free) × (length seat.old.me.0.spare ≡ 0) × (0 < length seat.old.me.0.numbers) }
    requires room { n < most_seats }
    ensures same { IsSameSeat seat.old seat.new }
    ensures number { MatchBool result ((seat.new.me ≡ (with_spare seat.old.me.0 n, seat.old.me.1)) × SignsNothing n seat.old.me.0 × (has seat.old.me.0.numbers n ≡ false)) (seat.new.me ≡ seat.old.me) }
{
    let found = table
        .shared
        .compare_exchange::<DrawNumber>(seat, SEATS, n, n + 1);
    found == n
}

/// Draws a number for a new seat. After 2^63 numbers it waits for ever.
pub fn draw_number<T: Object, R: Wait>(
    rt: &R,
    table: &BoardTable<T>,
    seat: &mut BoardSeat<T>,
) -> u64
    requires table { IsSeatOf table.now.shared.table_id seat.old }
    requires free { (seat.old.me.0.place ≡ Free) × (length seat.old.me.0.spare ≡ 0) × (0 < length seat.old.me.0.numbers) }
    ensures same { IsSameSeat seat.old seat.new }
    ensures view { seat.new.me ≡ (with_spare seat.old.me.0 result, seat.old.me.1) }
    ensures none { SignsNothing result seat.old.me.0 }
    ensures new { has seat.old.me.0.numbers result ≡ false }
{
    for _ in rt.forever() {
        let n = table.shared.peek(SEATS);
        if n < MOST && try_number(table, seat, n) {
            return n;
        }
    }
    unreachable!()
}

/// Hands the number that was drawn to a new seat.
pub fn split<T: Object>(table: &BoardTable<T>, seat: &mut BoardSeat<T>) -> BoardSeat<T>
    requires table { IsSeatOf table.now.shared.table_id seat.old }
    requires free { seat.old.me.0.place ≡ Free }
    ensures same { IsSameSeat seat.old seat.new }
    ensures view { seat.new.me ≡ (kept_half seat.old.me.0, seat.old.me.1) }
    ensures given { (result.table_id ≡ seat.old.table_id) × (result.me ≡ (given_half seat.old.me.0, [])) }
{
    table.shared.split_seat::<Halves>(seat)
}

/// Takes in what another seat has seen, and its numbers.
pub fn join<T: Object>(table: &BoardTable<T>, seat: &mut BoardSeat<T>, other: BoardSeat<T>)
    requires table { IsSeatOf table.now.shared.table_id seat.old × (other.table_id ≡ table.now.shared.table_id) }
    requires free { (seat.old.me.0.place ≡ Free) × (length seat.old.me.0.spare ≡ 0) }
    requires other { (other.me.0.place ≡ Free) × (length other.me.0.spare ≡ 0) × (other.me.1 ≡ []) }
    ensures same { IsSameSeat seat.old seat.new }
    ensures view { seat.new.me ≡ (without_parts (joined seat.old.me.0 other.me.0), seat.old.me.1) }
    ensures parts { AllParts (joined seat.old.me.0 other.me.0).seen (joined seat.old.me.0 other.me.0).mail (joined seat.old.me.0 other.me.0).parts }
    ensures sound { IsSoundSeat T.run T.proper seat.new.me }
    ensures few { length (seat.old.me.0.numbers ++ other.me.0.numbers) ≤ most_seats }
{
    table.shared.join_seat::<Halves>(seat, other);
    table.shared.load::<Compare<T>>(seat, 0);
}

/// How many numbers were drawn.
pub fn count<T: Object>(table: &BoardTable<T>, seat: &mut BoardSeat<T>) -> u64
    requires table { IsSeatOf table.now.shared.table_id seat.old }
    requires free { seat.old.me.0.place ≡ Free }
    ensures same { IsSameSeat seat.old seat.new }
    ensures view { (seat.new.me ≡ (with_count seat.old.me.0 result, seat.old.me.1)) × (number_count seat.old.me.0 ≤ result) }
{
    table.shared.load::<Count>(seat, SEATS)
}
