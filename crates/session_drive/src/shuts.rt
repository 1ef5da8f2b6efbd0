//! How a session ends.
ghost use Rattle.std.specs.Prelude.{◌≡◌, ◌<◌, [], ℕ, true, false, Ok};
ghost use Rattle.push_model.specs.Kinds.{takes_memory};
ghost use Rattle.push_model.specs.Steps.{proper};
ghost use Rattle.push_model.specs.Caring.{is_cared};
ghost use Rattle.push_model.specs.DeskViews.{world_at};
ghost use Rattle.push_model.specs.declared.step.Actor.TheVariants.{Saver};
ghost use Rattle.push_model.specs.declared.step.Step.TheVariants.{Clear};
ghost use Rattle.session_drive.specs.Shards.{shard_of};
ghost use Rattle.session_drive.specs.Runs.{Steps};
ghost use Rattle.session_drive.specs.Shuts.{ShutMade, Tells, hearing, heard_step};
ghost use Rattle.session_drive.specs.Saves.{OneStep, is_to_clear};

use crate::saves::{hand_over, make};
use crate::shards::shard_on;
use node_routes::{Linked, NodeLink};
use push_model::{Actor, Desks, NodeId, Reply, SessionId, Stage, Step};
use std::alloc::Global;

fn heard_step(s: SessionId, answer: Linked) -> Step
    ensures value { result ≡ heard_step s answer }
    ensures allowed { (n : ℕ) → proper n result ≡ true }
    ensures free { takes_memory result ≡ false }
{
    match answer {
        Linked::Lost => Step::Lost(Actor::Saver(s)),
        _ => Step::Heard(Actor::Saver(s)),
    }
}

fn is_to_clear(reply: &Reply) -> bool
    ensures { result ≡ is_to_clear reply.now }
{
    matches!(reply, Reply::Moved(Stage::Clear(_, _)))
}

// The saver hears what the link answered. It says whether the route row is to lose the session that wasn't told.
fn hear<D: Desks>(alloc: Global, desks: &mut D, shard: u8, s: SessionId, answer: Linked) -> bool
    requires { shard < (D.view desks.old).size }
    ensures step { OneStep shard (heard_step s answer) is_to_clear result (D.view desks.old) (D.view desks.new) }
    ensures cared { is_cared (world_at (D.view desks.new) shard) ≡ true }
{
    let reply = make(alloc, desks, shard, heard_step(s, answer));
    is_to_clear(&reply)
}

// What follows the link's answer.
fn hear_all<D: Desks>(alloc: Global, desks: &mut D, shard: u8, s: SessionId, answer: Linked)
    requires { shard < (D.view desks.old).size }
    ensures steps { Steps (hearing shard s answer) (Ok tt) (D.view desks.old) (D.view desks.new) }
    ensures cared { is_cared (world_at (D.view desks.new) shard) ≡ true }
{
    if hear(alloc, desks, shard, s, answer) {
        let _reply = make(alloc, desks, shard, Step::Clear(Actor::Saver(s)));
    }
}

// Tells the session at that node by the link.
fn tell<D: Desks, L: NodeLink<D>>(
    alloc: Global,
    desks: &mut D,
    link: &mut L,
    shard: u8,
    s: SessionId,
    node: NodeId,
)
    requires { shard < (D.view desks.old).size }
    ensures tells { Tells shard s node (D.view desks.old) (D.view desks.new) (L.faults link.old) (L.faults link.new) }
    ensures cared { is_cared (world_at (D.view desks.new) shard) ≡ true }
{
    let answer = link.nudge(alloc, desks, node, shard, Actor::Saver(s));
    hear_all(alloc, desks, shard, s, answer);
}

// Ends the session on its shard.
fn shut_on<D: Desks, L: NodeLink<D>>(
    alloc: Global,
    desks: &mut D,
    link: &mut L,
    shard: u8,
    s: SessionId,
) -> u32
    requires { shard < (D.view desks.old).size }
    ensures made { ShutMade shard s result (D.view desks.old) (D.view desks.new) (L.faults link.old) (L.faults link.new) }
    ensures cared { is_cared (world_at (D.view desks.new) shard) ≡ true }
{
    let handover = hand_over(alloc, desks, shard, s);
    match handover.node {
        Some(node) => tell(alloc, desks, link, shard, s, node),
        None => {}
    }
    handover.saved
}

/// Ends a session: it is closed, and its saver saves what it held. It answers how many messages were saved, up to 2^32 - 1,
/// and takes no memory.
///
/// After Close, where that replied Saving(n), it makes Release, and SaveOne until that replies AllSaved, NoSession or a
/// stage, n + 1 times at most. Where a message was saved and AllSaved replied, it makes Reread; where that named a session,
/// the link is asked for the saver's Nudge, and then it makes Heard, or Lost where the link was lost, and Clear where the
/// session wasn't told. So there are at most n + 7 entries. `Lost` is made only where the link's count of faults rose, or
/// stood at its last value. Of mail nothing is done but what the link posts. In the world that the session's shard is left
/// in each stored row that a routed session wasn't sent is covered.
pub fn shut<D: Desks, L: NodeLink<D>>(
    alloc: Global,
    desks: &mut D,
    link: &mut L,
    s: SessionId,
) -> u32
    ensures made { ShutMade (shard_of s.uaid (D.view desks.old).size) s result (D.view desks.old) (D.view desks.new) (L.faults link.old) (L.faults link.new) }
    ensures cared { is_cared (world_at (D.view desks.new) (shard_of s.uaid (D.view desks.old).size)) ≡ true }
{
    let shard = shard_on(desks, s.uaid);
    shut_on(alloc, desks, link, shard, s)
}
