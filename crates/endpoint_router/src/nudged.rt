//! A stored message, from Reread on: the session that the route row names is told of it.
ghost use Rattle.std.specs.Prelude.{◌≤◌, Ok, false};
ghost use Rattle.push_outside.specs.Counts.{Rose};
ghost use Rattle.push_model.specs.declared.step.Actor.TheVariants.{Flight as OfFlight};
ghost use Rattle.push_model.specs.declared.step.Step.TheVariants.{Heard, Lost as IsLost};
ghost use Rattle.endpoint_router.specs.Routes.{AtClear, AtNudge, AtReread, Next, TakenOrCleared};
ghost use Rattle.endpoint_router.specs.Flights.{InClear, InNudge, InNudging, InReread, InToldNudge, IsFlying};
ghost use Rattle.endpoint_router.specs.Went.{Went};

use crate::answer::Answer;
use crate::calls::make_free;
use crate::replies::{ends, named_node};
use crate::routing::Routing;
use node_routes::{Linked, NodeLink};
use push_model::{Actor, Desks, NodeId, Step};
use std::alloc::Global;

// At Clear: the route row loses the session that wasn't told.
fn at_clear<D: Desks>(alloc: Global, desks: &mut D, x: Routing) -> Answer
    requires { IsFlying (D.view desks.old) x InClear }
    ensures { Went (D.view desks.old) (D.view desks.new) x.shard ⊥ (AtClear (Ok result) x) }
{
    let _ = make_free(alloc, desks, x.shard, Step::Clear(Actor::Flight(x.op)));
    Answer::Created(x.id, x.ttl)
}

// At ToldNudge, where the link was heard.
fn nudge_heard<D: Desks>(alloc: Global, desks: &mut D, x: Routing, here: bool) -> Answer
    requires { IsFlying (D.view desks.old) x (InToldNudge here) }
    ensures { Went (D.view desks.old) (D.view desks.new) x.shard ⊥ (Next x.shard (Heard (OfFlight x.op)) (TakenOrCleared (Ok result) x here)) }
{
    let reply = make_free(alloc, desks, x.shard, Step::Heard(Actor::Flight(x.op)));
    if ends(&reply) {
        return Answer::Created(x.id, x.ttl);
    }
    at_clear(alloc, desks, x)
}

// At Nudge or ToldNudge, where the link was lost.
fn nudge_lost<D: Desks>(alloc: Global, desks: &mut D, x: Routing) -> Answer
    requires { IsFlying (D.view desks.old) x InNudging }
    ensures { Went (D.view desks.old) (D.view desks.new) x.shard (Unit {0}) (Next x.shard (IsLost (OfFlight x.op)) (TakenOrCleared (Ok result) x false)) }
{
    let _ = make_free(alloc, desks, x.shard, Step::Lost(Actor::Flight(x.op)));
    at_clear(alloc, desks, x)
}

// At Nudge: the link asks the session's node to tell it. The step takes no memory, so the link wants none.
fn at_nudge<D: Desks, L: NodeLink<D>>(
    alloc: Global,
    desks: &mut D,
    link: &mut L,
    x: Routing,
    node: NodeId,
) -> Answer
    requires { IsFlying (D.view desks.old) x InNudge }
    ensures went { Went (D.view desks.old) (D.view desks.new) x.shard (Rose (L.faults link.old) (L.faults link.new)) (AtNudge (Ok result) x) }
    ensures faults { L.faults link.old ≤ L.faults link.new }
{
    match link.nudge(alloc, desks, node, x.shard, Actor::Flight(x.op)) {
        Linked::Here => nudge_heard(alloc, desks, x, true),
        Linked::NotHere => nudge_heard(alloc, desks, x, false),
        Linked::Lost => nudge_lost(alloc, desks, x),
        Linked::NoMemory => Answer::Created(x.id, x.ttl),
    }
}

/// At Reread: the route row is read again, and the session that it names is told. What is stored stays stored, so no memory
/// is wanted any more.
pub fn at_reread<D: Desks, L: NodeLink<D>>(
    alloc: Global,
    desks: &mut D,
    link: &mut L,
    x: Routing,
) -> Answer
    requires { IsFlying (D.view desks.old) x InReread }
    ensures went { Went (D.view desks.old) (D.view desks.new) x.shard (Rose (L.faults link.old) (L.faults link.new)) (AtReread (Ok result) x) }
    ensures faults { L.faults link.old ≤ L.faults link.new }
{
    let reply = make_free(alloc, desks, x.shard, Step::Reread(Actor::Flight(x.op)));
    match named_node(&reply) {
        Some(node) => at_nudge(alloc, desks, link, x, node),
        None => Answer::Created(x.id, x.ttl),
    }
}
