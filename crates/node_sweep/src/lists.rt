//! The users that a shard names.
ghost use Rattle.std.specs.Prelude.{◌≡◌, ◌<◌, ◌∷◌, [], true, OnErr, IfOk};
ghost use Rattle.push_model.specs.declared.step.Step.TheVariants.{ListIdle, ListOrphans};
ghost use Rattle.push_model.specs.declared.reply.Reply.TheVariants.{Users as UsersAre};
ghost use Rattle.push_model.specs.Caring.{is_cared};
ghost use Rattle.push_model.specs.DeskViews.{made, world_at};
ghost use Rattle.node_sweep.specs.Entries.{Does};

use push_model::{Desks, NoMemory, Reply, Step, Users};
use std::alloc::Global;

/// The first users that have an orphan row and a routed session. At `NoMemory` no step was made.
pub fn list_orphans<D: Desks>(alloc: Global, desks: &mut D, shard: u8) -> Result<Users, NoMemory>
    requires { shard < (D.view desks.old).size }
    ensures ok { IfOk result (λ users. Does (D.view desks.old) (D.view desks.new) (made shard ListOrphans (UsersAre users) ∷ [])) }
    ensures err { OnErr result (Does (D.view desks.old) (D.view desks.new) []) }
    ensures cared { is_cared (world_at (D.view desks.new) shard) ≡ true }
{
    match desks.call(alloc, shard, Step::ListOrphans) {
        Ok(Reply::Users(users)) => Ok(users),
        Ok(_) => unreachable!(),
        Err(_) => Err(NoMemory),
    }
}

/// The first users that were idle for too long. At `NoMemory` no step was made.
pub fn list_idle<D: Desks>(alloc: Global, desks: &mut D, shard: u8) -> Result<Users, NoMemory>
    requires { shard < (D.view desks.old).size }
    ensures ok { IfOk result (λ users. Does (D.view desks.old) (D.view desks.new) (made shard ListIdle (UsersAre users) ∷ [])) }
    ensures err { OnErr result (Does (D.view desks.old) (D.view desks.new) []) }
    ensures cared { is_cared (world_at (D.view desks.new) shard) ≡ true }
{
    match desks.call(alloc, shard, Step::ListIdle) {
        Ok(Reply::Users(users)) => Ok(users),
        Ok(_) => unreachable!(),
        Err(_) => Err(NoMemory),
    }
}
