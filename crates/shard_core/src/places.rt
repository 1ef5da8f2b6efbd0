//! A step on the cell of one user, among the cells of a shard.
ghost use Rattle.std.specs.Prelude.{◌≡◌, true, None, find, IfOk, OnErr};
ghost use Rattle.std.specs.Map.{lookup};
ghost use Rattle.std.specs.Ordering.{nat_cmp};
ghost use Rattle.std.specs.BTreeMap.{is_at};
ghost use Rattle.push_model.specs.Kinds.{takes_memory};
ghost use Rattle.push_model.specs.FlightSteps.{begin};
ghost use Rattle.push_model.specs.Worlds.{cell_at, has_flight_in};
ghost use Rattle.push_model.specs.Steps.{action, IsOnCell, OnUser, Costs};
ghost use Rattle.shard_core.specs.Made.{StepsTo};
ghost use Rattle.shard_core.specs.Owners.{has_flight, flight_owner, IsComplete, IsSound};
ghost use Rattle.shard_core.specs.Shards.{HasUser};

use crate::flight_owners::{FlightOwners, forget_flight};
use push_model::{Message, Moment, NoMemory, Op, Reply, Step, Token, Uaid};
use std::alloc::Global;
use std::collections::BTreeMap;
use user_cell::UserCell;

/// Makes the step on the cell of that user at that moment. The cell is made where it wasn't there, and goes where it has
/// no user and no flight any more.
pub(crate) fn step_at(
    cells: &mut BTreeMap<u128, UserCell>,
    alloc: Global,
    moment: Moment,
    uaid: Uaid,
    asked: &Step,
) -> Result<Reply, NoMemory>
    requires { IsOnCell (action moment asked.now) }
    ensures ok { IfOk result (λ reply. StepsTo (action moment asked.now) uaid cells.old.entries cells.new.entries reply) }
    ensures err { OnErr result ((cells.new.entries ≡ cells.old.entries) × (takes_memory asked.now ≡ true) × Costs (action moment asked.now) (cell_at cells.old.entries uaid)) }
{
    let Some(cell) = cells.get_mut(&uaid.0) else {
        return step_new(cells, alloc, moment, uaid, asked);
    };
    let reply = cell.step(alloc, moment, asked)?;
    if cell.is_there() {
        return Ok(reply);
    }
    cells.remove(&uaid.0);
    Ok(reply)
}

// the same where there is no such cell
fn step_new(
    cells: &mut BTreeMap<u128, UserCell>,
    alloc: Global,
    moment: Moment,
    uaid: Uaid,
    asked: &Step,
) -> Result<Reply, NoMemory>
    requires kind { IsOnCell (action moment asked.now) }
    requires absent { lookup (is_at (nat_cmp uaid.0)) cells.old.entries ≡ None }
    ensures ok { IfOk result (λ reply. StepsTo (action moment asked.now) uaid cells.old.entries cells.new.entries reply) }
    ensures err { OnErr result ((cells.new.entries ≡ cells.old.entries) × (takes_memory asked.now ≡ true) × Costs (action moment asked.now) (cell_at cells.old.entries uaid)) }
{
    let mut cell = UserCell::new(alloc, uaid);
    let reply = cell.step(alloc, moment, asked)?;
    if !cell.is_there() {
        return Ok(reply);
    }
    if cells.insert(uaid.0, cell).is_err() {
        return Err(NoMemory);
    }
    Ok(reply)
}

/// Begins the message's flight, which no cell has yet, in the cell of that user, who is there. The index learns whose the
/// flight is.
pub(crate) fn begin_owned(
    cells: &mut BTreeMap<u128, UserCell>,
    owners: &mut FlightOwners,
    alloc: Global,
    uaid: Uaid,
    op: Op,
    token: Token,
    message: Message,
) -> Result<Reply, NoMemory>
    requires there { HasUser (lookup (is_at (nat_cmp uaid.0)) cells.old.entries) }
    requires free { find (has_flight_in op) cells.old.entries ≡ None }
    requires complete { IsComplete has_flight (flight_owner owners.old.entries) cells.old.entries }
    ensures ok { IfOk result (λ reply. StepsTo (OnUser uaid (begin op token message)) uaid cells.old.entries cells.new.entries reply) }
    ensures err { OnErr result ((cells.new.entries ≡ cells.old.entries) × Costs (OnUser uaid (begin op token message)) (cell_at cells.old.entries uaid)) }
    ensures complete { IsComplete has_flight (flight_owner owners.new.entries) cells.new.entries }
    ensures sound { IsSound has_flight (flight_owner owners.old.entries) cells.old.entries → IsSound has_flight (flight_owner owners.new.entries) cells.new.entries }
{
    if owners.insert((op.pass, op.k), uaid.0).is_err() {
        return Err(NoMemory);
    }
    let reply = begin_at(cells, alloc, uaid, op, token, message);
    forget_flight(cells, owners, op);
    reply
}

// the same beside the index
fn begin_at(
    cells: &mut BTreeMap<u128, UserCell>,
    alloc: Global,
    uaid: Uaid,
    op: Op,
    token: Token,
    message: Message,
) -> Result<Reply, NoMemory>
    requires { HasUser (lookup (is_at (nat_cmp uaid.0)) cells.old.entries) }
    ensures ok { IfOk result (λ reply. StepsTo (OnUser uaid (begin op token message)) uaid cells.old.entries cells.new.entries reply) }
    ensures err { OnErr result ((cells.new.entries ≡ cells.old.entries) × Costs (OnUser uaid (begin op token message)) (cell_at cells.old.entries uaid)) }
{
    let Some(cell) = cells.get_mut(&uaid.0) else {
        unreachable!();
    };
    cell.begin(alloc, op, token, message)
}
