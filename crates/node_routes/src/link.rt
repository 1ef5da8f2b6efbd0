//! Links to the nodes that have sessions.
ghost use Rattle.std.specs.Prelude.{◌≡◌, ◌<◌, ℕ};
ghost use Rattle.push_model.specs.declared.step.Step.TheVariants.{Direct, Nudge};
ghost use Rattle.node_routes.specs.Links.{LinkFails, Links, answer_at, answer_of};
ghost use Rattle.node_routes.specs.Posts.{OnlyPosts};

use push_model::{Actor, Desks, NodeId, Op, Reply, Stage};
use std::alloc::Global;

/// What a link answers.
#[derive(Clone, Copy, Debug, PartialEq, Eq)]
pub enum Linked {
    /// The session was found: it has the message, or was told to look.
    Here,
    /// It wasn't found.
    NotHere,
    /// Nothing was heard. The step may have been made, or not.
    Lost,
    /// There was no memory, and no step was made.
    NoMemory,
}

/// What a stage that a step met says: the session was found exactly where the stage keeps that another pass was told so.
fn answer_at(stage: &Stage) -> Linked
    ensures { result ≡ answer_at stage.now }
{
    match stage {
        Stage::Told(true) => Linked::Here,
        Stage::ToldNudge(true, _, _) => Linked::Here,
        _ => Linked::NotHere,
    }
}

impl Linked {
    /// What the reply of a Direct or a Nudge says: the session was found exactly where the reply is `Here`, or is the
    /// stage at which the actor keeps that another pass was told so.
    pub fn of(reply: &Reply) -> Linked
        ensures { result ≡ answer_of reply.now }
    {
        match reply {
            Reply::Here(_) => Linked::Here,
            Reply::Stage(stage) => answer_at(stage),
            _ => Linked::NotHere,
        }
    }
}

/// How the desks `D` reach the nodes that have sessions.
///
/// `faults` is a count of failures, up to 2^64 - 1, that never falls. The caller's shards, boards and numbers stay.
pub trait NodeLink<D: Desks> {
    ghost faults: { Self → ℕ };

    /// Asks that node to take the message of that flight for its session: the step Direct on that shard. The answer is
    /// what its reply says; the step was made, and no other. `Lost` comes only where `faults` rose, or stood at its last
    /// value, and the step was made before that, or wasn't; any other answer leaves `faults` as it was. At `NoMemory` no
    /// step was made. Of mail nothing is done but that bits may be set for that node on that shard.
    fn push(&mut self, alloc: Global, desks: &mut D, node: NodeId, shard: u8, op: Op) -> Linked
        requires { shard < (D.view desks.old).size }
        ensures step { Links (D.view desks.old) (D.view desks.new) shard (Direct op) result }
        ensures mail { OnlyPosts (D.view desks.old) (D.view desks.new) shard node }
        ensures cause { LinkFails result (faults self.old) (faults self.new) };

    /// Asks that node to tell its session to look at the stored messages: the step Nudge of that actor on that shard. All
    /// is as for `push`, but that the step takes no memory, so that `NoMemory` never comes.
    fn nudge(
        &mut self,
        alloc: Global,
        desks: &mut D,
        node: NodeId,
        shard: u8,
        actor: Actor,
    ) -> Linked
        requires { shard < (D.view desks.old).size }
        ensures step { Links (D.view desks.old) (D.view desks.new) shard (Nudge actor) result }
        ensures mail { OnlyPosts (D.view desks.old) (D.view desks.new) shard node }
        ensures cause { LinkFails result (faults self.old) (faults self.new) };
}
