//! The shards of an exchange that was closed.
ghost use Rattle.std.specs.Prelude.{◌≡◌, [], length, map};
ghost use Rattle.push_model.specs.ShardSteps.{counts};
ghost use Rattle.push_exchange.specs.Sums.{all_counts, all_tallies, counts_with, tally_with};

use push_model::{Counts, Reply, Step, Tally};
use shard_core::Shard;
use std::alloc::Global;
use std::marker::Model;

/// Sixteen shards, in order of their numbers. Contracts see them as their worlds.
#[derive(Drop)]
pub struct Shards {
    shards: Vec<Shard>,
}

impl Model for Shards {
    ghost use Rattle.std.specs.Prelude.{◌≡◌, List, length};
    ghost use Rattle.push_model.specs.Worlds.{World};

    ghost Value = { List World };

    ghost view = { λ s. s.shards.items };

    ghost invariant = { λ s. length s.shards.items ≡ 16 };
}

impl Shards {
    /// These shards, of which there are sixteen.
    pub(crate) fn of(shards: Vec<Shard>) -> Shards
        requires { length shards.items ≡ 16 }
        ensures { result ≡ shards.items }
    {
        Shards { shards }
    }

    /// What is there in all shards: the sums over their worlds. It asks each shard for a report, which changes nothing.
    pub fn report(&mut self, alloc: Global) -> Counts
        ensures value { result ≡ all_counts (map counts self.old) }
        ensures stays { self.new ≡ self.old }
    {
        report_all(alloc, &mut self.shards)
    }

    /// The sums over all the steps that were made on any of the shards.
    pub fn tally(&self) -> Tally
        ensures { result ≡ all_tallies (map (λ w. w.tally) self.now) }
    {
        tally_all(&self.shards)
    }
}

fn report_all(alloc: Global, shards: &mut Vec<Shard>) -> Counts
    ensures value { result ≡ all_counts (map counts shards.old.items) }
    ensures stays { shards.new.items ≡ shards.old.items }
{
    let mut all = no_counts();
    for k in 0..shards.len() {
        all = counts_plus(all, report_of(alloc, &mut shards[k]));
    }
    all
}

// A report of one shard.
fn report_of(alloc: Global, shard: &mut Shard) -> Counts
    ensures value { result ≡ counts shard.old }
    ensures stays { shard.new ≡ shard.old }
{
    match shard.step(alloc, Step::Report) {
        Ok(Reply::Counts(counts)) => counts,
        _ => unreachable!(),
    }
}

fn tally_all(shards: &[Shard]) -> Tally
    ensures { result ≡ all_tallies (map (λ w. w.tally) shards.now) }
{
    let mut all = Tally::new();
    for shard in shards {
        all = tally_plus(all, shard.tally());
    }
    all
}

fn no_counts() -> Counts
    ensures { result ≡ all_counts [] }
{
    Counts {
        users: 0,
        stored: 0,
        held: 0,
        flights: 0,
        unsent: 0,
        orphans: 0,
        waiting: 0,
    }
}

fn counts_plus(sum: Counts, more: Counts) -> Counts
    ensures { result ≡ counts_with sum more }
{
    Counts {
        users: sum.users.saturating_add(more.users),
        stored: sum.stored.saturating_add(more.stored),
        held: sum.held.saturating_add(more.held),
        flights: sum.flights.saturating_add(more.flights),
        unsent: sum.unsent.saturating_add(more.unsent),
        orphans: sum.orphans.saturating_add(more.orphans),
        waiting: sum.waiting.saturating_add(more.waiting),
    }
}

fn tally_plus(sum: Tally, more: Tally) -> Tally
    ensures { result ≡ tally_with sum more }
{
    Tally {
        begun: sum.begun.saturating_add(more.begun),
        ok: sum.ok.saturating_add(more.ok),
        refused: sum.refused.saturating_add(more.refused),
        stored: sum.stored.saturating_add(more.stored),
        shown: sum.shown.saturating_add(more.shown),
        acked: sum.acked.saturating_add(more.acked),
        saved: sum.saved.saturating_add(more.saved),
        left: sum.left.saturating_add(more.left),
        lost: sum.lost.saturating_add(more.lost),
    }
}
