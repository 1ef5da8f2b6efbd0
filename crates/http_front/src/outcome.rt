//! What a request comes to.
ghost use Rattle.std.specs.Prelude.{◌≡◌, ◌+◌, ◌<◌, ◌≤◌, ◌/◌, ◌^◌, ℕ};
ghost use Rattle.push_model.specs.DeskViews.{IsHonest};
ghost use Rattle.push_outside.specs.Moments.{IsMomentOf};
ghost use Rattle.http_front.specs.Comings.{Comes, Routes};
ghost use Rattle.http_front.specs.Faults.{IsSound};
ghost use Rattle.http_front.specs.OpNumbers.{IsAbove};

use crate::fault::Fault;
use crate::judging::{Judged, judge};
use crate::ops::Ops;
use endpoint_router::{Answer, route, shard_of};
use http_wire::Request;
use node_routes::NodeLink;
use push_model::{Ask, Desks, Moment, NoMemory, Token};
use push_outside::Clock;
use push_paths::Paths;
use std::alloc::Global;

/// What a request comes to.
#[derive(Clone, Copy, Debug)]
pub enum Outcome {
    /// It has that fault, and nothing was made.
    Faulty(Fault),
    /// There was no memory to read what it asks for, and nothing was made.
    Unread,
    /// Its message was routed, with that answer.
    Routed(Result<Answer, NoMemory>),
}

// The second at which the clock stands.
fn second<C: Clock>(clock: &C) -> Moment
    ensures { (millis : ℕ) × IsMomentOf (C.moment clock.now) millis × (result ≡ millis / 1000) }
{
    match Moment::new(clock.millis() / 1000) {
        Some(moment) => moment,
        None => Moment::zero(),
    }
}

// Routes the message that a request asks for, as a new flight.
fn route_asked<D: Desks, L: NodeLink<D>, C: Clock>(
    alloc: Global,
    desks: &mut D,
    link: &mut L,
    clock: &C,
    ops: &mut Ops,
    token: Token,
    ask: Ask,
) -> Result<Answer, NoMemory>
    requires honest { IsHonest (D.view desks.old) }
    requires above { IsAbove (D.view desks.old) ops.old.k }
    requires room { ops.old.k < 2 ^ 63 }
    ensures routes { Routes (C.moment clock.now) ops.old.k token ask result (D.view desks.old) (D.view desks.new) (L.faults link.old) (L.faults link.new) }
    ensures number { ops.new.k ≡ ops.old.k + 1 }
    ensures faults { L.faults link.old ≤ L.faults link.new }
    ensures honest { IsHonest (D.view desks.new) }
    ensures above { IsAbove (D.view desks.new) ops.new.k }
{
    let shard = shard_of(&token, desks.count());
    let op = ops.next(desks.pass(shard));
    let now = second(clock);
    route(alloc, desks, link, op, now, token, ask)
}

/// What a request that was read comes to: its message is routed, or it has a fault, or there is no memory to read it.
pub fn outcome_of<D: Desks, L: NodeLink<D>, C: Clock>(
    alloc: Global,
    desks: &mut D,
    link: &mut L,
    clock: &C,
    ops: &mut Ops,
    paths: &Paths,
    request: Request,
) -> Outcome
    requires sound { IsSound request }
    requires honest { IsHonest (D.view desks.old) }
    requires above { IsAbove (D.view desks.old) ops.old.k }
    requires room { ops.old.k < 2 ^ 63 }
    ensures comes { Comes (C.moment clock.now) ops.old.k ops.new.k request result (D.view desks.old) (D.view desks.new) (L.faults link.old) (L.faults link.new) }
    ensures faults { L.faults link.old ≤ L.faults link.new }
    ensures honest { IsHonest (D.view desks.new) }
    ensures above { IsAbove (D.view desks.new) ops.new.k }
{
    match judge(alloc, paths, request) {
        Ok(Judged::Asked(token, ask)) => {
            Outcome::Routed(route_asked(alloc, desks, link, clock, ops, token, ask))
        }
        Ok(Judged::Faulty(fault)) => Outcome::Faulty(fault),
        Err(_) => Outcome::Unread,
    }
}
