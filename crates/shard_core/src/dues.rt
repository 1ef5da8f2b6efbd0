//! When rows are due, and what goes then.
ghost use Rattle.std.specs.Prelude.{◌≡◌, max, min, IfSome};
ghost use Rattle.std.specs.Map.{lookup};
ghost use Rattle.std.specs.Ordering.{nat_cmp};
ghost use Rattle.std.specs.BTreeMap.{is_at};
ghost use Rattle.push_model.specs.ClockSteps.{ticked};
ghost use Rattle.push_model.specs.Worlds.{each};
ghost use Rattle.shard_core.specs.Dues.{NoneDue, NoneDueIn};

use push_model::{Moment, Uaid};
use std::collections::BTreeMap;
use user_cell::UserCell;

/// The moment that no row waits for: the clock stays below 2^62.
pub(crate) const NEVER: u64 = u64::MAX;

/// The later of the two moments.
pub(crate) fn later(a: Moment, b: Moment) -> Moment
    ensures { result ≡ max a b }
{
    if a.seconds() < b.seconds() { b } else { a }
}

/// The earlier of the two moments, in seconds.
pub(crate) fn earlier(a: u64, b: u64) -> u64
    ensures { result ≡ min a b }
{
    if a < b { a } else { b }
}

// the soonest moment in seconds at which a row of the cell is due
fn soonest(cell: &UserCell) -> u64
    ensures { NoneDue result cell.now }
{
    match cell.soonest() {
        Some(moment) => moment,
        None => NEVER,
    }
}

/// The soonest moment in seconds at which a row of that user is due.
pub(crate) fn soonest_at(cells: &BTreeMap<u128, UserCell>, uaid: Uaid) -> u64
    ensures { IfSome (lookup (is_at (nat_cmp uaid.0)) cells.now.entries) (NoneDue result) }
{
    match cells.get(&uaid.0) {
        Some(cell) => soonest(cell),
        None => NEVER,
    }
}

/// The soonest moment in seconds at which any row is due. It goes over all the cells.
pub(crate) fn soonest_of(cells: &BTreeMap<u128, UserCell>) -> u64
    ensures { NoneDueIn result cells.now.entries }
{
    let mut next = NEVER;
    for cell in cells.values() {
        next = earlier(next, soonest(cell));
    }
    next
}

/// Takes the rows that are expired at that moment out of all the cells.
pub(crate) fn tick_cells(cells: &mut BTreeMap<u128, UserCell>, now: Moment)
    ensures { cells.new.entries ≡ each (ticked now) cells.old.entries }
{
    cells.retain(|_, cell| {
        cell.tick(now);
        true
    });
}
