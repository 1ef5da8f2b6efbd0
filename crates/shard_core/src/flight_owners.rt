//! Whose each flight is: an index that is asked in place of all the cells.
ghost use Rattle.std.specs.Prelude.{◌≡◌, ◌⊎◌, Some, None, if◌then◌else◌};
ghost use Rattle.std.specs.Option.{option_copied};
ghost use Rattle.push_model.specs.declared.ids.Op.{Op as OpValue};
ghost use Rattle.push_model.specs.Names.{is_same_op};
ghost use Rattle.push_model.specs.Steps.{action};
ghost use Rattle.shard_core.specs.Owners.{has_flight, flight_owner, flight_of, ended, owned, if_held, IsComplete, IsSound, NamesHolder};

use push_model::{Actor, Op, Reply, Step};
use std::collections::BTreeMap;
use user_cell::UserCell;

/// For each flight, by its pass and its number there, the number of the user whose it is.
pub(crate) type FlightOwners = BTreeMap<(u64, u64), u128>;

/// The cell that has the flight, if the index names it.
pub(crate) fn flight_cell<'a>(
    cells: &'a BTreeMap<u128, UserCell>,
    owners: &FlightOwners,
    op: Op,
) -> Option<&'a UserCell>
    ensures { option_copied result ≡ owned (has_flight op) (flight_owner owners.now.entries op) cells.now.entries }
{
    let owner = owners.get(&(op.pass, op.k))?;
    let cell = cells.get(owner)?;
    if cell.has_flight(op) {
        Some(cell)
    } else {
        None
    }
}

/// Takes the flight out of the index, unless the cell that it names has it. It takes no memory.
pub(crate) fn forget_flight(cells: &BTreeMap<u128, UserCell>, owners: &mut FlightOwners, op: Op)
    requires { IsComplete has_flight (flight_owner owners.old.entries) cells.now.entries }
    ensures complete { IsComplete has_flight (flight_owner owners.new.entries) cells.now.entries }
    ensures ended { owned (has_flight op) (flight_owner owners.new.entries op) cells.now.entries ≡ None → flight_owner owners.new.entries op ≡ None }
    ensures rest { (k : OpValue) → flight_owner owners.new.entries k ≡ (if is_same_op k op then if_held (has_flight op) (flight_owner owners.old.entries op) cells.now.entries else flight_owner owners.old.entries k) }
{
    if flight_cell(cells, owners, op).is_none() {
        owners.remove(&(op.pass, op.k));
    }
}

// the flight whose step it is
fn flight_of(asked: &Step) -> Option<Op>
    ensures { result ≡ flight_of (action 0 asked.now) }
{
    match asked {
        Step::Direct(op)
        | Step::Store(op)
        | Step::GiveUp(op)
        | Step::Reread(Actor::Flight(op))
        | Step::Nudge(Actor::Flight(op))
        | Step::Heard(Actor::Flight(op))
        | Step::Lost(Actor::Flight(op))
        | Step::Clear(Actor::Flight(op)) => Some(*op),
        _ => None,
    }
}

// the flight that ended with the step
fn ended(asked: &Step, reply: &Reply) -> Option<Op>
    ensures { result ≡ ended asked.now reply.now }
{
    match reply {
        Reply::End(_) => flight_of(asked),
        _ => None,
    }
}

/// Takes the flight that ended with the step, if the reply says that one did, out of the index. It takes no memory.
pub(crate) fn forget_ended(
    cells: &BTreeMap<u128, UserCell>,
    owners: &mut FlightOwners,
    asked: &Step,
    reply: &Reply,
)
    requires { IsComplete has_flight (flight_owner owners.old.entries) cells.now.entries }
    ensures complete { IsComplete has_flight (flight_owner owners.new.entries) cells.now.entries }
    ensures sound { ((k : OpValue) → (ended asked.now reply.now ≡ Some k) ⊎ NamesHolder has_flight (flight_owner owners.old.entries) cells.now.entries k) → IsSound has_flight (flight_owner owners.new.entries) cells.now.entries }
{
    if let Some(op) = ended(asked, reply) {
        forget_flight(cells, owners, op);
    }
}
