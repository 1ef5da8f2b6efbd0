//! Nodes on the same desks.
ghost use Rattle.std.specs.Prelude.{◌≡◌, ◌<◌, [], true};
ghost use Rattle.push_model.specs.declared.step.Step.TheVariants.{Direct, Nudge};
ghost use Rattle.push_model.specs.Steps.{proper};
ghost use Rattle.push_model.specs.DeskViews.{Calls, Mails};
ghost use Rattle.node_routes.specs.Links.{LinkFails, Links};
ghost use Rattle.node_routes.specs.Posts.{LinksHere, OnlyPosts, PostEnds, posts_of};

use crate::link::{Linked, NodeLink};
use push_model::laws::calls_add_up;
use push_model::{Actor, Desks, NodeId, Op, Reply, Step};
use std::alloc::Global;

/// The link to nodes that share the caller's desks: it makes the step itself. Where the reply is `Here` it then posts the
/// user's bit to that node on that shard, so that the node looks at the session. It is never lost.
#[derive(Clone, Copy, Debug)]
pub struct HereLink;

// Posts what the reply says was found.
fn post_found<D: Desks>(desks: &mut D, shard: u8, node: NodeId, reply: &Reply)
    requires { shard < (D.view desks.old).size }
    ensures calls { Calls (D.view desks.old) (D.view desks.new) [] }
    ensures mail { Mails (D.view desks.old) (D.view desks.new) (posts_of shard node reply.now) }
    ensures last { PostEnds (D.view desks.old) (D.view desks.new) shard node reply.now }
{
    calls_add_up();
    match reply {
        Reply::Here(uaid) => desks.post(shard, node, *uaid),
        _ => {}
    }
}

/// Makes the step, and then posts the bit of the user that its reply carries.
pub fn tell<D: Desks>(alloc: Global, desks: &mut D, node: NodeId, shard: u8, asked: Step) -> Linked
    requires within { shard < (D.view desks.old).size }
    requires allowed { proper ((D.view desks.old).number shard) asked ≡ true }
    ensures { LinksHere (D.view desks.old) (D.view desks.new) shard node asked result }
{
    match desks.call(alloc, shard, asked) {
        Ok(reply) => {
            post_found(desks, shard, node, &reply);
            Linked::of(&reply)
        }
        Err(_) => Linked::NoMemory,
    }
}

impl<D: Desks> NodeLink<D> for HereLink {
    ghost faults = { λ _. 0 };

    /// Makes the step Direct, and then posts the bit of the user that a reply `Here` carries.
    fn push(&mut self, alloc: Global, desks: &mut D, node: NodeId, shard: u8, op: Op) -> Linked
        requires { shard < (D.view desks.old).size }
        ensures here { LinksHere (D.view desks.old) (D.view desks.new) shard node (Direct op) result }
        ensures step { Links (D.view desks.old) (D.view desks.new) shard (Direct op) result }
        ensures mail { OnlyPosts (D.view desks.old) (D.view desks.new) shard node }
        ensures cause { LinkFails result 0 0 }
    {
        tell(alloc, desks, node, shard, Step::Direct(op))
    }

    /// Makes the step Nudge, and then posts the bit of the user that a reply `Here` carries.
    fn nudge(
        &mut self,
        alloc: Global,
        desks: &mut D,
        node: NodeId,
        shard: u8,
        actor: Actor,
    ) -> Linked
        requires { shard < (D.view desks.old).size }
        ensures here { LinksHere (D.view desks.old) (D.view desks.new) shard node (Nudge actor) result }
        ensures step { Links (D.view desks.old) (D.view desks.new) shard (Nudge actor) result }
        ensures mail { OnlyPosts (D.view desks.old) (D.view desks.new) shard node }
        ensures cause { LinkFails result 0 0 }
    {
        tell(alloc, desks, node, shard, Step::Nudge(actor))
    }
}
