//! The route of one message.
ghost use Rattle.std.specs.Prelude.{◌≤◌, ◌≡◌, ℕ, true};
ghost use Rattle.push_outside.specs.Counts.{Rose};
ghost use Rattle.push_model.specs.Worlds.{start};
ghost use Rattle.push_model.specs.Accounting.{IsAccounted};
ghost use Rattle.push_model.specs.Caring.{is_cared};
ghost use Rattle.push_model.specs.DeskViews.{IsHonest, world_at};
ghost use Rattle.endpoint_router.specs.Shards.{shard_of};
ghost use Rattle.endpoint_router.specs.Routes.{AfterBegin, IsRoute};
ghost use Rattle.endpoint_router.specs.Flights.{HasBegun, IsFresh};
ghost use Rattle.endpoint_router.specs.Went.{Went};

use crate::answer::Answer;
use crate::calls::{make, make_free};
use crate::given::at_direct;
use crate::replies::{Begins, beginning};
use crate::routing::Routing;
use crate::shards::shard_at;
use crate::stored::at_store;
use node_routes::NodeLink;
use push_model::{Ask, Desks, Moment, NoMemory, Op, Reply, Step, Token};
use std::alloc::Global;

// The flight has begun, or not, as the reply says.
fn begun<D: Desks, L: NodeLink<D>>(
    alloc: Global,
    desks: &mut D,
    link: &mut L,
    shard: u8,
    op: Op,
    ttl: u32,
    reply: &Reply,
) -> Result<Answer, NoMemory>
    requires { HasBegun (D.view desks.old) shard op ttl reply.now }
    ensures went { Went (D.view desks.old) (D.view desks.new) shard (Rose (L.faults link.old) (L.faults link.new)) (AfterBegin shard op ttl result reply.now) }
    ensures faults { L.faults link.old ≤ L.faults link.new }
{
    match beginning(ttl, reply) {
        Begins::Ends(answer) => Ok(answer),
        Begins::Gives(id, node) => at_direct(
            alloc,
            desks,
            link,
            Routing { shard, op, id, ttl },
            node,
        ),
        Begins::Stores(id) => at_store(alloc, desks, link, Routing { shard, op, id, ttl }),
    }
}

/// Routes one message: the clock of the token's shard goes on to the moment `now`, the flight of that name begins with what
/// was asked, and its steps are made until it ends. A message whose user is routed is given to the session by the link, or
/// else stored; where it is stored the session is told of it.
///
/// `Created` comes exactly where the flight ended with 201, with the id of its own Begin's reply and the ttl that was asked
/// (RFC 8030, section 5.2); `Gone` exactly where Begin replied `NoToken` or Store ended the flight with 410; `Full` exactly
/// where Store ended it with 503; `IdsSpent` exactly where Begin replied so. `NoMemory` comes only before the message is
/// stored, and then its flight isn't there any more. At most 9 entries are made, all on the token's shard, and `Lost` only
/// where the link's faults rose. Other passes may make steps between.
pub fn route<D: Desks, L: NodeLink<D>>(
    alloc: Global,
    desks: &mut D,
    link: &mut L,
    op: Op,
    now: Moment,
    token: Token,
    ask: Ask,
) -> Result<Answer, NoMemory>
    requires honest { IsHonest (D.view desks.old) }
    requires fresh { IsFresh (D.view desks.old) (shard_of token (D.view desks.old).size) op }
    ensures went { Went (D.view desks.old) (D.view desks.new) (shard_of token (D.view desks.old).size) (Rose (L.faults link.old) (L.faults link.new)) (IsRoute (shard_of token (D.view desks.old).size) op now token ask result) }
    ensures faults { L.faults link.old ≤ L.faults link.new }
    ensures honest { IsHonest (D.view desks.new) }
    ensures accounted { (number next : ℕ) → (D.view desks.new).opened (shard_of token (D.view desks.old).size) ≡ start number next → IsAccounted (start number next) ((D.view desks.new).seen (shard_of token (D.view desks.old).size)) }
    ensures cared { is_cared (world_at (D.view desks.new) (shard_of token (D.view desks.old).size)) ≡ true }
{
    let shard = shard_at(desks, &token);
    let ttl = ask.terms.ttl;
    let _ = make_free(alloc, desks, shard, Step::Tick(now));
    let reply = make(alloc, desks, shard, Step::Begin(op, token, ask))?;
    begun(alloc, desks, link, shard, op, ttl, &reply)
}
