//! What a node does for those that reach it by a link.
ghost use Rattle.std.specs.Prelude.{◌≡◌, ◌<◌, [], true, IsTrue};
ghost use Rattle.push_model.specs.declared.step.Step.TheVariants.{Direct};
ghost use Rattle.push_model.specs.DeskViews.{Calls, Mails};
ghost use Rattle.node_routes.specs.Links.{Links};
ghost use Rattle.node_routes.specs.Routes.{AnswersPush, AnswersNotif, is_here};

use crate::link::Linked;
use push_model::{Desks, NodeId, Op, Reply, Step, Uaid};
use std::alloc::Global;

/// Gives the message of that flight to the session that it is for: the step Direct on that shard, and no other. The answer
/// is what its reply says, and never `Lost`; at `NoMemory` no step was made. Mail stays.
pub fn node_push<D: Desks>(alloc: Global, desks: &mut D, shard: u8, op: Op) -> Linked
    requires { shard < (D.view desks.old).size }
    ensures step { AnswersPush (D.view desks.old) (D.view desks.new) shard op result }
    ensures mail { Mails (D.view desks.old) (D.view desks.new) [] }
{
    match desks.call(alloc, shard, Step::Direct(op)) {
        Ok(reply) => Linked::of(&reply),
        Err(_) => Linked::NoMemory,
    }
}

/// Tells the user's session at that node to look at the stored messages: the step Notif on that shard, and no other. It is
/// true exactly where that found the session. Mail stays, and no memory is taken.
pub fn node_notif<D: Desks>(
    alloc: Global,
    desks: &mut D,
    shard: u8,
    node: NodeId,
    uaid: Uaid,
) -> bool
    requires { shard < (D.view desks.old).size }
    ensures step { AnswersNotif (D.view desks.old) (D.view desks.new) shard node uaid result }
    ensures mail { Mails (D.view desks.old) (D.view desks.new) [] }
{
    match desks.call(alloc, shard, Step::Notif(node, uaid)) {
        Ok(reply) => is_here(&reply),
        Err(_) => false,
    }
}

// Whether the session was found.
fn is_here(reply: &Reply) -> bool
    ensures { result ≡ is_here reply.now }
{
    matches!(reply, Reply::Here(_))
}
