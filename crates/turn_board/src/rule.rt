//! The table on which a board stands, and its rule.

use crate::object::Object;
use crate::view::{Home, View};
use atomic_table::{Seat, Table, TableRule};
use std::alloc::Global;
use std::marker::PhantomData;
use std::snapshot::Snapshot;

/// The next ticket, modulo 2^64.
pub const TICKET: usize = 0;

/// The ticket that is served, modulo 2^64. Callers park on this word.
pub const SERVING: usize = 1;

/// How many entries the history has.
pub const ENTRIES: usize = 2;

/// How many numbers were drawn.
pub const SEATS: usize = 3;

/// How many callers are parked, or about to be.
pub const PARKED: usize = 4;

/// The first of the eight words of mail.
pub const MAIL: usize = 5;

/// What holds between any two steps on a board.
pub struct BoardRule<T> {
    of: PhantomData<T>,
}

impl<T: Object> TableRule<Option<Home<T>>, View<T, T::Step, T::Reply>, Snapshot<T>>
    for BoardRule<T> {
    ghost use Rattle.turn_board.specs.Rule.{IsBoard};
    ghost use Rattle.turn_board.specs.Views.{opening_view};

    ghost holds = { λ key s. IsBoard T.run T.proper key.value s };

    ghost first = { λ key. opening_view key.value };
}

/// A seat of a board's table.
pub type BoardSeat<T> = Seat<Option<Home<T>>, View<T, <T as Object>::Step, <T as Object>::Reply>>;

/// A board's table: its words, and the slot that has the object.
pub type BoardTable<T> = Table<
    Option<Home<T>>,
    View<T, <T as Object>::Step, <T as Object>::Reply>,
    Snapshot<T>,
    BoardRule<T>,
    Global,
>;
