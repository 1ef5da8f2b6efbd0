//! A message that is to be stored.
ghost use Rattle.std.specs.Prelude.{◌≤◌};
ghost use Rattle.push_outside.specs.Counts.{Rose};
ghost use Rattle.push_model.specs.declared.step.Step.TheVariants.{GiveUp};
ghost use Rattle.endpoint_router.specs.Routes.{AtStore, GivenUp, Next};
ghost use Rattle.endpoint_router.specs.Flights.{InStore, InUnstored, IsFlying};
ghost use Rattle.endpoint_router.specs.Went.{Went};

use crate::answer::Answer;
use crate::calls::{make, make_free};
use crate::nudged::at_reread;
use crate::replies::{answer_to, end_code};
use crate::routing::Routing;
use node_routes::NodeLink;
use push_model::{Desks, NoMemory, Step};
use std::alloc::Global;

/// Ends a flight whose message isn't stored, for want of memory.
pub fn give_up<D: Desks>(alloc: Global, desks: &mut D, x: Routing) -> Result<Answer, NoMemory>
    requires { IsFlying (D.view desks.old) x InUnstored }
    ensures { Went (D.view desks.old) (D.view desks.new) x.shard ⊥ (Next x.shard (GiveUp x.op) (GivenUp result x)) }
{
    let _ = make_free(alloc, desks, x.shard, Step::GiveUp(x.op));
    Err(NoMemory)
}

/// At Store: the message is made a row of its user's, and the user's session is told.
pub fn at_store<D: Desks, L: NodeLink<D>>(
    alloc: Global,
    desks: &mut D,
    link: &mut L,
    x: Routing,
) -> Result<Answer, NoMemory>
    requires { IsFlying (D.view desks.old) x InStore }
    ensures went { Went (D.view desks.old) (D.view desks.new) x.shard (Rose (L.faults link.old) (L.faults link.new)) (AtStore result x) }
    ensures faults { L.faults link.old ≤ L.faults link.new }
{
    match make(alloc, desks, x.shard, Step::Store(x.op)) {
        Ok(reply) => match end_code(&reply) {
            Some(code) => Ok(answer_to(x.id, x.ttl, code)),
            None => Ok(at_reread(alloc, desks, link, x)),
        },
        Err(_) => give_up(alloc, desks, x),
    }
}
