//! One shard, in a world that its own steps lead to.
ghost use Rattle.std.specs.Prelude.{◌≡◌, ◌≤◌, ◌^◌, true, IfOk, OnErr};
ghost use Rattle.push_model.specs.Kinds.{takes_memory, costs_memory};
ghost use Rattle.push_model.specs.Worlds.{start};
ghost use Rattle.push_model.specs.Steps.{step};
ghost use Rattle.push_model.specs.Reached.{IsReached};
ghost use Rattle.push_model.specs.Caring.{is_cared};
ghost use Rattle.push_model.specs.ShardSteps.{counts};

use crate::state::State;
use push_model::{NoMemory, Reply, Step, Tally};
use std::alloc::Global;
use std::marker::Model;

/// A shard. Contracts see it as its world, to which a legal history from an empty shard leads.
#[derive(Drop)]
pub struct Shard {
    state: State,
}

impl Model for Shard {
    ghost use Rattle.push_model.specs.Worlds.{World};
    ghost use Rattle.push_model.specs.Reached.{IsReached};

    ghost Value = { World };

    ghost view = { λ s. s.state };

    ghost invariant = { λ s. IsReached s.state };
}

impl Shard {
    /// The shard of that number with 1 as its first message number, the clock at 0, all nodes up and no user. It takes no
    /// memory.
    pub fn start(alloc: Global, number: u8) -> Shard
        ensures { result ≡ start number 1 }
    {
        Shard::start_at(alloc, number, 1)
    }

    /// The same with another first message number, at most 2^63. There all are spent.
    pub fn start_at(alloc: Global, number: u8, next: u64) -> Shard
        requires { next ≤ 2 ^ 63 }
        ensures { result ≡ start number next }
    {
        Shard {
            state: State::start(alloc, number, next),
        }
    }

    /// Makes the step and counts it. `NoMemory` comes only in the place of a reply that costs memory, and changes nothing.
    /// In the world that it leaves each stored row that a routed session wasn't sent is covered.
    pub fn step(&mut self, alloc: Global, asked: Step) -> Result<Reply, NoMemory>
        ensures ok { IfOk result (λ reply. step self.old asked ≡ (self.new, reply)) }
        ensures err { OnErr result ((self.new ≡ self.old) × (takes_memory asked ≡ true) × (costs_memory (step self.old asked).1 ≡ true)) }
        ensures cared { is_cared self.new ≡ true }
    {
        self.state.step(alloc, asked)
    }

    /// The sums over all the steps made so far.
    pub fn tally(&self) -> Tally
        ensures { result ≡ self.now.tally }
    {
        self.state.tally()
    }

    /// A law: a legal history from an empty shard leads to its world, whatever its steps were.
    pub fn is_reached(&self)
        ensures { IsReached self.now }
    {
        let _state = &self.state;
    }

    /// How many stored rows a routed session wasn't sent, and nothing covers; from 2^64 - 1 on it says that.
    pub fn waiting(&self) -> u64
        ensures { result ≡ (counts self.now).waiting }
    {
        self.state.counts().waiting
    }
}
