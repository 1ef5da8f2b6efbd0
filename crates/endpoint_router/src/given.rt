//! A message that is to be given to the session that its user is routed to.
ghost use Rattle.std.specs.Prelude.{◌≤◌, ◌==◌, ◌||◌};
ghost use Rattle.push_outside.specs.Counts.{Rose};
ghost use Rattle.push_model.specs.declared.step.Actor.TheVariants.{Flight as OfFlight};
ghost use Rattle.push_model.specs.declared.step.Step.TheVariants.{Heard, Lost as IsLost};
ghost use Rattle.endpoint_router.specs.Routes.{AtDirect, Next, TakenOrStored};
ghost use Rattle.endpoint_router.specs.Flights.{InDirect, InGiving, InTold, IsFlying};
ghost use Rattle.endpoint_router.specs.Went.{Went};

use crate::answer::Answer;
use crate::calls::make_free;
use crate::replies::ends;
use crate::routing::Routing;
use crate::stored::{at_store, give_up};
use node_routes::{Linked, NodeLink};
use push_model::{Actor, Desks, NoMemory, NodeId, Step};
use std::alloc::Global;

// At Told, where the link was heard.
fn push_heard<D: Desks, L: NodeLink<D>>(
    alloc: Global,
    desks: &mut D,
    link: &mut L,
    x: Routing,
    here: bool,
) -> Result<Answer, NoMemory>
    requires { IsFlying (D.view desks.old) x (InTold here) }
    ensures went { Went (D.view desks.old) (D.view desks.new) x.shard (Rose (L.faults link.old) (L.faults link.new)) (Next x.shard (Heard (OfFlight x.op)) (TakenOrStored result x (here || (x.ttl == 0)))) }
    ensures faults { L.faults link.old ≤ L.faults link.new }
{
    let reply = make_free(alloc, desks, x.shard, Step::Heard(Actor::Flight(x.op)));
    if ends(&reply) {
        return Ok(Answer::Created(x.id, x.ttl));
    }
    at_store(alloc, desks, link, x)
}

// At Direct or Told, where the link was lost.
fn push_lost<D: Desks, L: NodeLink<D>>(
    alloc: Global,
    desks: &mut D,
    link: &mut L,
    x: Routing,
) -> Result<Answer, NoMemory>
    requires { IsFlying (D.view desks.old) x InGiving }
    ensures went { Went (D.view desks.old) (D.view desks.new) x.shard (Unit {0}) (Next x.shard (IsLost (OfFlight x.op)) (TakenOrStored result x (x.ttl == 0))) }
    ensures faults { L.faults link.old ≤ L.faults link.new }
{
    let reply = make_free(alloc, desks, x.shard, Step::Lost(Actor::Flight(x.op)));
    if ends(&reply) {
        return Ok(Answer::Created(x.id, x.ttl));
    }
    at_store(alloc, desks, link, x)
}

/// At Direct: the link asks the session's node to take the message.
pub fn at_direct<D: Desks, L: NodeLink<D>>(
    alloc: Global,
    desks: &mut D,
    link: &mut L,
    x: Routing,
    node: NodeId,
) -> Result<Answer, NoMemory>
    requires { IsFlying (D.view desks.old) x InDirect }
    ensures went { Went (D.view desks.old) (D.view desks.new) x.shard (Rose (L.faults link.old) (L.faults link.new)) (AtDirect result x) }
    ensures faults { L.faults link.old ≤ L.faults link.new }
{
    match link.push(alloc, desks, node, x.shard, x.op) {
        Linked::Here => push_heard(alloc, desks, link, x, true),
        Linked::NotHere => push_heard(alloc, desks, link, x, false),
        Linked::Lost => push_lost(alloc, desks, link, x),
        Linked::NoMemory => give_up(alloc, desks, x),
    }
}
