//! The sweep of a shard.
ghost use Rattle.std.specs.Prelude.{◌≡◌, ◌<◌, true};
ghost use Rattle.push_model.specs.Caring.{is_cared};
ghost use Rattle.push_model.specs.DeskViews.{world_at};
ghost use Rattle.node_sweep.specs.Sweeps.{SweepMade};

use crate::drops::drop_idle;
use crate::tells::tell_orphans;
use push_model::{Desks, NoMemory};
use std::alloc::Global;

/// What a sweep did.
#[derive(Clone, Copy, Debug, PartialEq, Eq)]
pub struct Swept {
    /// How many sessions were told to look at what is stored, up to 2^32 - 1.
    pub told: u32,
    /// How many users were dropped, up to 2^32 - 1.
    pub dropped: u32,
}

/// Sweeps a shard: it tells the sessions of users that have an orphan row to look at what is stored, and drops users that were
/// idle for too long. A shard names 100 users of each kind at most, so a further sweep may find more.
///
/// It makes ListOrphans, a Notif for each user that this named with a node, ListIdle, and an Expire for each user that this named, in
/// this order, and no other step. `told` is how many of the Notifs replied Here; after each of these the user's bit is posted to
/// the node. `dropped` is how many of the Expires replied Dropped. At `NoMemory` one of the two lists wasn't given, and the steps
/// before it were made. In the world that the shard is left in each stored row that a routed session wasn't sent is covered.
pub fn sweep<D: Desks>(alloc: Global, desks: &mut D, shard: u8) -> Result<Swept, NoMemory>
    requires { shard < (D.view desks.old).size }
    ensures made { SweepMade result shard (D.view desks.old) (D.view desks.new) }
    ensures cared { is_cared (world_at (D.view desks.new) shard) ≡ true }
{
    let Ok(told) = tell_orphans(alloc, desks, shard) else {
        return Err(NoMemory);
    };
    let Ok(dropped) = drop_idle(alloc, desks, shard) else {
        return Err(NoMemory);
    };
    Ok(Swept { told, dropped })
}
