//! Boards, and the passes with which callers use them.
ghost use Rattle.std.specs.Prelude.{◌≡◌, ◌≤◌, length};
ghost use Rattle.turn_board.specs.Numbers.{most_seats};
ghost use Rattle.turn_board.specs.Plays.{IsSoundSeat};
ghost use Rattle.turn_board.specs.Seats.{IsResting};

use crate::object::Object;
use crate::rule::{BoardSeat, BoardTable};

/// An object on which callers take turns. It can be shared by an `Arc`; each caller has a pass of its own.
#[derive(Drop)]
pub struct Board<T: Object> {
    pub(crate) table: BoardTable<T>,
    ghost sized: { (table.shared.table_id.words ≡ 13) × (table.shared.table_id.slots ≡ 1) },
}

/// What one caller knows of a board: a beginning of its history, which of the entries are its own, and what was done to
/// each slot's mail. It can go to another thread.
#[derive(Drop)]
pub struct Pass<T: Object> {
    pub(crate) seat: BoardSeat<T>,
    pub(crate) number: u64,
    pub(crate) joined: u64,
    ghost resting: { IsResting number seat.me },
    ghost sound: { ∥ IsSoundSeat T.run T.proper seat.me ∥₁ },
    ghost counted: { (joined ≡ length seat.me.0.numbers) × (joined ≤ most_seats) },
}
