//! One step on desks.
ghost use Rattle.std.specs.Prelude.{◌≡◌, ◌<◌, [], true, false, IfOk, OnErr};
ghost use Rattle.push_model.specs.Kinds.{takes_memory};
ghost use Rattle.push_model.specs.Steps.{proper};
ghost use Rattle.push_model.specs.DeskViews.{Calls, Mails};
ghost use Rattle.node_routes.specs.Links.{Makes};

use push_model::{Desks, NoMemory, Reply, Step};
use std::alloc::Global;

/// Makes the step.
pub fn make<D: Desks>(
    alloc: Global,
    desks: &mut D,
    shard: u8,
    asked: Step,
) -> Result<Reply, NoMemory>
    requires within { shard < (D.view desks.old).size }
    requires allowed { proper ((D.view desks.old).number shard) asked ≡ true }
    ensures ok { IfOk result (λ reply. Makes (D.view desks.old) (D.view desks.new) shard asked reply) }
    ensures err { OnErr result (Calls (D.view desks.old) (D.view desks.new) [] × (takes_memory asked ≡ true)) }
    ensures mail { Mails (D.view desks.old) (D.view desks.new) [] }
{
    desks.call(alloc, shard, asked)
}

/// Makes the step, which takes no memory.
pub fn make_free<D: Desks>(alloc: Global, desks: &mut D, shard: u8, asked: Step) -> Reply
    requires within { shard < (D.view desks.old).size }
    requires allowed { proper ((D.view desks.old).number shard) asked ≡ true }
    requires free { takes_memory asked ≡ false }
    ensures made { Makes (D.view desks.old) (D.view desks.new) shard asked result }
    ensures mail { Mails (D.view desks.old) (D.view desks.new) [] }
{
    match make(alloc, desks, shard, asked) {
        Ok(reply) => reply,
        Err(_) => Reply::Done,
    }
}
