//! What is made on every shard.
ghost use Rattle.std.specs.Prelude.{◌≡◌, ◌<◌, ◌∷◌, [], List};
ghost use Rattle.push_model.specs.DeskViews.{IsHonest, Made, made};
ghost use Rattle.push_model.specs.declared.reply.Reply.{Reply as AnyReply};
ghost use Rattle.push_model.specs.declared.step.Step.TheVariants.{Kill, Report, Up};
ghost use Rattle.node_sweep.specs.Entries.{Does};
ghost use Rattle.node_control.specs.Works.{AreSwept, OnEach, all_counts, counts_of, held_of, kills_sum, orphans_of};

use crate::sums::{counts_plus, no_counts};
use node_sweep::sweep;
use push_model::laws::reached_worlds_go_on;
use push_model::{Counts, Desks, NodeId, Reply, Step};
use std::alloc::Global;

// ---- nodes

// Takes the node down on one shard. It gives how many messages were held there, and how many rows are new orphans.
fn kill<D: Desks>(alloc: Global, desks: &mut D, shard: u8, node: NodeId) -> (u64, u64)
    requires { shard < (D.view desks.old).size }
    ensures { (r : AnyReply) × Does (D.view desks.old) (D.view desks.new) (made shard (Kill node) r ∷ []) × (result.0 ≡ held_of r) × (result.1 ≡ orphans_of r) }
{
    match desks.call(alloc, shard, Step::Kill(node)) {
        Ok(Reply::Killed(held, orphans)) => (held, orphans),
        _ => unreachable!(),
    }
}

/// Takes the node down on every shard, and gives the sums of what was replied.
pub fn kill_all<D: Desks>(alloc: Global, desks: &mut D, node: NodeId) -> Reply
    ensures { (kills : List Made) × Does (D.view desks.old) (D.view desks.new) kills × OnEach (D.view desks.old).size (Kill node) kills × (result ≡ kills_sum kills) }
{
    let mut held = 0u64;
    let mut orphans = 0u64;
    for shard in 0..desks.count() {
        let killed = kill(alloc, desks, shard, node);
        held = held.saturating_add(killed.0);
        orphans = orphans.saturating_add(killed.1);
    }
    Reply::Killed(held, orphans)
}

// Lets the node come up again on one shard.
fn up<D: Desks>(alloc: Global, desks: &mut D, shard: u8, node: NodeId)
    requires { shard < (D.view desks.old).size }
    ensures { (r : AnyReply) × Does (D.view desks.old) (D.view desks.new) (made shard (Up node) r ∷ []) }
{
    match desks.call(alloc, shard, Step::Up(node)) {
        Ok(_) => {}
        Err(_) => unreachable!(),
    }
}

/// Lets the node come up again on every shard.
pub fn up_all<D: Desks>(alloc: Global, desks: &mut D, node: NodeId)
    ensures { (ups : List Made) × Does (D.view desks.old) (D.view desks.new) ups × OnEach (D.view desks.old).size (Up node) ups }
{
    for shard in 0..desks.count() {
        up(alloc, desks, shard, node);
    }
}

// ---- reports

// What is there on one shard.
fn report<D: Desks>(alloc: Global, desks: &mut D, shard: u8) -> Counts
    requires { shard < (D.view desks.old).size }
    ensures reported { (r : AnyReply) × Does (D.view desks.old) (D.view desks.new) (made shard Report r ∷ []) × (result ≡ counts_of r) }
    ensures none_waits { IsHonest (D.view desks.old) → result.waiting ≡ 0 }
{
    reached_worlds_go_on();
    match desks.call(alloc, shard, Step::Report) {
        Ok(Reply::Counts(counts)) => counts,
        _ => unreachable!(),
    }
}

/// What is there on all shards: the sums of what each reports.
pub fn report_all<D: Desks>(alloc: Global, desks: &mut D) -> Counts
    ensures reported { (reports : List Made) × Does (D.view desks.old) (D.view desks.new) reports × OnEach (D.view desks.old).size Report reports × (result ≡ all_counts reports) }
    ensures none_waits { IsHonest (D.view desks.old) → result.waiting ≡ 0 }
{
    let mut all = no_counts();
    for shard in 0..desks.count() {
        all = counts_plus(all, report(alloc, desks, shard));
    }
    all
}

// ---- sweeps

/// Sweeps every shard. A sweep that wants memory is left at that place.
pub fn sweep_all<D: Desks>(alloc: Global, desks: &mut D)
    ensures { (sweeps : List Made) × Does (D.view desks.old) (D.view desks.new) sweeps × AreSwept 0 (D.view desks.old).size sweeps }
{
    for shard in 0..desks.count() {
        let _ = sweep(alloc, desks, shard);
    }
}
