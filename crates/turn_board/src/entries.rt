//! A step of the object in a seat's turn, and its entry in the history.
ghost use Rattle.std.specs.Prelude.{◌≡◌, ℕ, ◌+◌, ◌<◌, true, [], ◌∷◌, length, Some, IfOk, OnErr};
ghost use Rattle.push_model.specs.Histories.{entry, world_after};
ghost use Rattle.turn_board.specs.declared.view.Place.TheVariants.{Serves};
ghost use Rattle.turn_board.specs.Numbers.{word_size, has};
ghost use Rattle.turn_board.specs.Views.{with_entries};
ghost use Rattle.turn_board.specs.Seats.{IsSameSeat, IsSeatOf, Holding};

use crate::object::Object;
use crate::plays::{Added, Adds};
use crate::rule::{BoardSeat, BoardTable, ENTRIES};
use crate::view::Home;
use push_model::NoMemory;
use std::alloc::Global;
use std::marker::Brand;
use std::snapshot::Snapshot;
use std::sync::Wait;

// Counts the entry that `E` names. The last three parameters are there for the contract.
fn add_as<T: Object, E: Added<T::Step, T::Reply>>(
    table: &BoardTable<T>,
    seat: &mut BoardSeat<T>,
    by: u64,
    step: &Snapshot<T::Step>,
    reply: &T::Reply,
)
    requires table { IsSeatOf table.now.shared.table_id seat.old }
    requires serves { (k : ℕ) × (seat.old.me.0.place ≡ Serves k) }
    requires reply { (w : _) × (seat.old.me.0.first ≡ Some w) × (reply.now ≡ (T.run (world_after T.run w seat.old.me.0.known) step.now.value).1) }
    requires by { (T.proper by step.now.value ≡ true) × (has seat.old.me.0.numbers by ≡ true) }
    requires spare { length seat.old.me.0.spare ≡ 0 }
    requires room { length seat.old.me.0.known + 1 < word_size }
    requires entry { E.added ≡ entry by step.now.value reply.now ∷ [] }
    ensures same { IsSameSeat seat.old seat.new }
    ensures view { seat.new.me ≡ (with_entries seat.old.me.0 (entry by step.now.value reply.now ∷ []), seat.old.me.1) }
{
    let _ = by;
    let _ = step;
    let _ = reply;
    table.shared.fetch_add::<Adds<E>>(seat, ENTRIES, 1);
}

// Counts an entry.
fn add_entry<T: Object>(
    table: &BoardTable<T>,
    seat: &mut BoardSeat<T>,
    by: u64,
    step: &Snapshot<T::Step>,
    reply: &T::Reply,
)
    requires table { IsSeatOf table.now.shared.table_id seat.old }
    requires serves { (k : ℕ) × (seat.old.me.0.place ≡ Serves k) }
    requires reply { (w : _) × (seat.old.me.0.first ≡ Some w) × (reply.now ≡ (T.run (world_after T.run w seat.old.me.0.known) step.now.value).1) }
    requires by { (T.proper by step.now.value ≡ true) × (has seat.old.me.0.numbers by ≡ true) }
    requires spare { length seat.old.me.0.spare ≡ 0 }
    requires room { length seat.old.me.0.known + 1 < word_size }
    ensures same { IsSameSeat seat.old seat.new }
    ensures view { seat.new.me ≡ (with_entries seat.old.me.0 (entry by step.now.value reply.now ∷ []), seat.old.me.1) }
{
    add_as::<T, Brand>(table, seat, by, step, reply);
}

/// Waits for ever where the history has 2^64 - 1 entries.
pub fn with_room<T, R: Wait>(rt: &R, home: Home<T>) -> Home<T>
    ensures { (result ≡ home) × (home.entries + 1 < word_size) }
{
    if home.entries < u64::MAX {
        return home;
    }
    for _ in rt.forever() {}
    unreachable!()
}

/// Makes the step, and counts the entry where memory sufficed.
pub fn act<T: Object>(
    table: &BoardTable<T>,
    seat: &mut BoardSeat<T>,
    by: u64,
    alloc: Global,
    home: &mut Home<T>,
    step: T::Step,
) -> Result<T::Reply, NoMemory>
    requires table { IsSeatOf table.now.shared.table_id seat.old }
    requires holding { Holding T.run T.proper seat.old.me home.old }
    requires by { (T.proper by step ≡ true) × (has seat.old.me.0.numbers by ≡ true) }
    requires spare { length seat.old.me.0.spare ≡ 0 }
    requires room { home.old.entries + 1 < word_size }
    ensures same { IsSameSeat seat.old seat.new }
    ensures holding { Holding T.run T.proper seat.new.me home.new }
    ensures ok { IfOk result (λ r. seat.new.me ≡ (with_entries seat.old.me.0 (entry by step r ∷ []), seat.old.me.1)) }
    ensures reply { IfOk result (λ r. T.run home.old.object step ≡ (home.new.object, r)) }
    ensures err { OnErr result ((seat.new.me ≡ seat.old.me) × (T.takes_memory step ≡ true)) }
{
    let said = Snapshot::of(&step);
    let answer = home.object.step(alloc, step);
    if let Ok(reply) = &answer {
        add_entry(table, seat, by, &said, reply);
        home.entries += 1;
    }
    answer
}
