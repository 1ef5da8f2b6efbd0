//! A shard as an object on which callers take turns.
ghost use Rattle.std.specs.Prelude.{◌≡◌, IfOk};

use push_model::{NoMemory, Reply, Step};
use shard_core::Shard;
use std::alloc::Global;
use std::marker::Model;
use turn_board::Object;

/// A shard that lies on a board. Contracts see it as its world.
///
/// It lies in a box: a turn takes the object out of its slot and puts it back, which then moves a pointer.
#[derive(Drop)]
pub struct ShardObject {
    shard: Box<Shard>,
}

impl Model for ShardObject {
    ghost use Rattle.push_model.specs.Worlds.{World};

    ghost Value = { World };

    ghost view = { λ o. o.shard.value };
}

impl ShardObject {
    /// The shard, to be laid on a board. Where memory is wanted the shard is dropped.
    pub fn new(alloc: Global, shard: Shard) -> Result<ShardObject, NoMemory>
        ensures { IfOk result (λ object. object ≡ shard) }
    {
        match Box::new(alloc, shard) {
            Ok(shard) => Ok(ShardObject { shard }),
            Err(_) => Err(NoMemory),
        }
    }

    /// The shard, after it was taken off its board.
    pub fn into_shard(self) -> Shard
        ensures { result ≡ self }
    {
        let ShardObject { shard } = self;
        Box::into_inner(shard)
    }
}

impl Object for ShardObject {
    ghost use Rattle.push_model.specs.Steps.{step as shard_step, proper as is_proper};
    ghost use Rattle.push_model.specs.Kinds.{takes_memory as may_want};

    type Step = Step;

    type Reply = Reply;

    ghost run = { shard_step };

    ghost takes_memory = { may_want };

    ghost proper = { is_proper };

    fn step(&mut self, alloc: Global, step: Step) -> Result<Reply, NoMemory> {
        self.shard.step(alloc, step)
    }
}
