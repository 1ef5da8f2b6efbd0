//! Searches and counts over the cells of a shard.
ghost use Rattle.std.specs.Prelude.{◌≡◌, ◌++◌, sum_by, IfOk, OnOk};
ghost use Rattle.std.specs.Map.{values_of};
ghost use Rattle.push_model.specs.NodeSteps.{killed, held_on, orphaned_on};
ghost use Rattle.push_model.specs.ShardSteps.{is_orphaned, is_idle, route_of};
ghost use Rattle.push_model.specs.Tallies.{capped};
ghost use Rattle.push_model.specs.Worlds.{each};
ghost use Rattle.shard_core.specs.Counting.{counted, counts_of};
ghost use Rattle.shard_core.specs.Listing.{first_listed};

use push_model::{Counts, Moment, NoMemory, NodeId, Users};
use std::alloc::Global;
use std::collections::BTreeMap;
use user_cell::UserCell;

/// The numbers of a report over all the cells.
pub fn count_cells(cells: &BTreeMap<u128, UserCell>) -> Counts
    ensures { result ≡ counts_of (values_of cells.now.entries) }
{
    let mut counts = Counts {
        users: 0,
        stored: 0,
        held: 0,
        flights: 0,
        unsent: 0,
        orphans: 0,
        waiting: 0,
    };
    for cell in cells.values() {
        count_cell(&mut counts, cell);
    }
    counts
}

/// Takes what is on the node out of all the cells.
pub fn kill_cells(cells: &mut BTreeMap<u128, UserCell>, node: NodeId)
    ensures { cells.new.entries ≡ each (killed node) cells.old.entries }
{
    cells.retain(|_, cell| {
        cell.kill(node);
        true
    });
}

/// How many messages are held on the node; from 2^64 - 1 on it says that.
pub fn held_on(cells: &BTreeMap<u128, UserCell>, node: NodeId) -> u64
    ensures { result ≡ capped (sum_by (held_on node) (values_of cells.now.entries)) }
{
    let mut held: u64 = 0;
    for cell in cells.values() {
        held = held.saturating_add(cell.held_on(node));
    }
    held
}

/// How many rows would become orphans with the node; from 2^64 - 1 on it says that.
pub fn orphaned_on(cells: &BTreeMap<u128, UserCell>, node: NodeId) -> u64
    ensures { result ≡ capped (sum_by (orphaned_on node) (values_of cells.now.entries)) }
{
    let mut orphaned: u64 = 0;
    for cell in cells.values() {
        orphaned = orphaned.saturating_add(cell.orphaned_on(node));
    }
    orphaned
}

/// The most users that a list names.
const LISTED: usize = 100;

/// The first users of whom a row is an orphan and a session is routed.
pub fn orphaned_users(alloc: Global, cells: &BTreeMap<u128, UserCell>) -> Result<Users, NoMemory>
    ensures { IfOk result (λ users. users ≡ first_listed is_orphaned (values_of cells.now.entries)) }
{
    let mut users = Users::new(alloc);
    for cell in cells.values() {
        if users.len() < LISTED && cell.is_orphaned() {
            list(&mut users, cell)?;
        }
    }
    Ok(users)
}

/// The first users that have no session, and were there so long ago that they may be dropped.
pub fn idle_users(
    alloc: Global,
    cells: &BTreeMap<u128, UserCell>,
    now: Moment,
) -> Result<Users, NoMemory>
    ensures { IfOk result (λ users. users ≡ first_listed (is_idle now) (values_of cells.now.entries)) }
{
    let mut users = Users::new(alloc);
    for cell in cells.values() {
        if users.len() < LISTED && cell.is_idle(now) {
            list(&mut users, cell)?;
        }
    }
    Ok(users)
}

// Adds the cell's user, if there is one.
fn list(users: &mut Users, cell: &UserCell) -> Result<(), NoMemory>
    ensures ok { OnOk result (users.new ≡ users.old ++ route_of cell.now.uaid cell.now.user) }
{
    match cell.route() {
        Some((node, at)) => users.push(cell.uaid(), node, at),
        None => Ok(()),
    }
}

// Adds the numbers of one cell.
fn count_cell(counts: &mut Counts, cell: &UserCell)
    ensures { counts.new ≡ counted counts.old cell.now }
{
    if cell.has_user() {
        counts.users = counts.users.saturating_add(1);
    }
    counts.stored = counts.stored.saturating_add(cell.stored());
    counts.held = counts.held.saturating_add(cell.held());
    counts.flights = counts.flights.saturating_add(cell.flights());
    counts.unsent = counts.unsent.saturating_add(cell.unsent());
    counts.orphans = counts.orphans.saturating_add(cell.orphans());
    counts.waiting = counts.waiting.saturating_add(cell.waiting());
}
