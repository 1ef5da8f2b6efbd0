//! A link in memory that is lost at the calls that it was told.
ghost use Rattle.std.specs.Prelude.{◌≡◌, ◌≤◌, ◌<◌, true};
ghost use Rattle.push_model.specs.declared.step.Step.TheVariants.{Direct, Nudge};
ghost use Rattle.push_model.specs.Steps.{proper};
ghost use Rattle.node_routes.specs.Links.{LinkFails, Links};
ghost use Rattle.node_routes.specs.Posts.{OnlyPosts};
ghost use Rattle.node_routes.specs.Failing.{LinksBy, faults_after, link_after, luck_of};

use crate::here::tell;
use crate::link::{Linked, NodeLink};
use push_model::{Actor, Desks, NodeId, Op, Step};
use std::alloc::Global;
use std::marker::Model;

/// What a call does.
#[derive(Clone, Copy, Debug)]
pub enum Luck {
    /// It is lost before its step is made.
    LostBefore,
    /// It is lost once its step was made.
    LostAfter,
    /// Its usual work.
    Works,
}

/// A link to nodes that share the caller's desks, as a `HereLink` is, that is lost at the calls that it was told.
///
/// All calls are counted from 1, up to 2^64 - 1. Contracts see the number of calls so far, both lists, and the number of
/// faults so far, which is that of the calls that were lost.
#[derive(Debug, Drop)]
pub struct FailLink {
    calls: u64,
    before: Vec<u64>,
    after: Vec<u64>,
    faults: u64,
}

impl Model for FailLink {
    ghost use Rattle.node_routes.specs.Failing.{FailLinkValue};

    ghost Value = { FailLinkValue };

    ghost view = { λ s. record { calls = s.calls; before = s.before.items; after = s.after.items; faults = s.faults } };
}

impl FailLink {
    /// A link before its first call. A call whose number is in `before` is lost before its step is made, even if it is in both
    /// lists; one whose number is in `after` alone is lost once its step was made.
    pub fn new(before: Vec<u64>, after: Vec<u64>) -> FailLink
        ensures { result ≡ record { calls = 0; before = before.items; after = after.items; faults = 0 } }
    {
        FailLink {
            calls: 0,
            before,
            after,
            faults: 0,
        }
    }

    // Counts a call, and says what it does.
    fn next(&mut self) -> Luck
        ensures luck { result ≡ luck_of self.old }
        ensures after { self.new ≡ link_after self.old }
        ensures never_falls { self.old.faults ≤ self.new.faults }
        ensures faults { self.new.faults ≡ faults_after result self.old.faults }
    {
        self.calls = self.calls.saturating_add(1);
        if self.before.contains(&self.calls) {
            self.faults = self.faults.saturating_add(1);
            return Luck::LostBefore;
        }
        if self.after.contains(&self.calls) {
            self.faults = self.faults.saturating_add(1);
            return Luck::LostAfter;
        }
        Luck::Works
    }

    // Makes the step, and is lost, as the number of the call says.
    fn tell_by_luck<D: Desks>(
        &mut self,
        alloc: Global,
        desks: &mut D,
        node: NodeId,
        shard: u8,
        asked: Step,
    ) -> Linked
        requires within { shard < (D.view desks.old).size }
        requires allowed { proper ((D.view desks.old).number shard) asked ≡ true }
        ensures step { LinksBy (luck_of self.old) (D.view desks.old) (D.view desks.new) shard node asked result }
        ensures after { self.new ≡ link_after self.old }
        ensures never_falls { self.old.faults ≤ self.new.faults }
    {
        match self.next() {
            Luck::LostBefore => Linked::Lost,
            Luck::LostAfter => {
                let _ = tell(alloc, desks, node, shard, asked);
                Linked::Lost
            }
            Luck::Works => tell(alloc, desks, node, shard, asked),
        }
    }
}

impl<D: Desks> NodeLink<D> for FailLink {
    ghost faults = { λ s. s.faults };

    /// Counts the call, and makes the step Direct as a `HereLink` does, unless the call is lost before. It is lost, before or
    /// after, as its number says.
    fn push(&mut self, alloc: Global, desks: &mut D, node: NodeId, shard: u8, op: Op) -> Linked
        requires { shard < (D.view desks.old).size }
        ensures by_luck { LinksBy (luck_of self.old) (D.view desks.old) (D.view desks.new) shard node (Direct op) result }
        ensures after { self.new ≡ link_after self.old }
        ensures step { Links (D.view desks.old) (D.view desks.new) shard (Direct op) result }
        ensures mail { OnlyPosts (D.view desks.old) (D.view desks.new) shard node }
        ensures cause { LinkFails result self.old.faults self.new.faults }
    {
        self.tell_by_luck(alloc, desks, node, shard, Step::Direct(op))
    }

    /// Counts the call, and makes the step Nudge, as `push` makes its step.
    fn nudge(
        &mut self,
        alloc: Global,
        desks: &mut D,
        node: NodeId,
        shard: u8,
        actor: Actor,
    ) -> Linked
        requires { shard < (D.view desks.old).size }
        ensures by_luck { LinksBy (luck_of self.old) (D.view desks.old) (D.view desks.new) shard node (Nudge actor) result }
        ensures after { self.new ≡ link_after self.old }
        ensures step { Links (D.view desks.old) (D.view desks.new) shard (Nudge actor) result }
        ensures mail { OnlyPosts (D.view desks.old) (D.view desks.new) shard node }
        ensures cause { LinkFails result self.old.faults self.new.faults }
    {
        self.tell_by_luck(alloc, desks, node, shard, Step::Nudge(actor))
    }
}
