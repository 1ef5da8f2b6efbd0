//! Dropping users that were idle for too long.
ghost use Rattle.std.specs.Prelude.{◌≡◌, ◌<◌, ◌∷◌, [], ℕ, List, Option, true, OnErr, IfOk};
ghost use Rattle.push_model.specs.Caring.{is_cared};
ghost use Rattle.push_model.specs.DeskViews.{Made, world_at};
ghost use Rattle.node_sweep.specs.Entries.{Does};
ghost use Rattle.node_sweep.specs.Sweeps.{AreDropped, Drops, is_dropped};

use crate::lists::list_idle;
use push_model::{Desks, NoMemory, Reply, Step, Uaid, Users};
use std::alloc::Global;

fn is_dropped(reply: &Reply) -> bool
    ensures { result ≡ is_dropped reply.now }
{
    matches!(reply, Reply::Dropped)
}

// Drops the user, if it was idle for too long. It gives how many were dropped.
fn expire<D: Desks>(alloc: Global, desks: &mut D, shard: u8, uaid: Uaid) -> u32
    requires { shard < (D.view desks.old).size }
    ensures dropped { (node : Option ℕ) (at : ℕ) → (drops : List Made) × Does (D.view desks.old) (D.view desks.new) drops × AreDropped shard ((uaid, node, at) ∷ []) result drops }
    ensures cared { is_cared (world_at (D.view desks.new) shard) ≡ true }
{
    match desks.call(alloc, shard, Step::Expire(uaid)) {
        Ok(reply) => u32::from(is_dropped(&reply)),
        Err(_) => unreachable!(),
    }
}

// Drops those of these users that were idle for too long.
fn expire_all<D: Desks>(alloc: Global, desks: &mut D, shard: u8, users: &Users) -> u32
    requires within { shard < (D.view desks.old).size }
    requires cared { is_cared (world_at (D.view desks.old) shard) ≡ true }
    ensures dropped { (drops : List Made) × Does (D.view desks.old) (D.view desks.new) drops × AreDropped shard users.now result drops }
    ensures cared { is_cared (world_at (D.view desks.new) shard) ≡ true }
{
    let mut dropped = 0u32;
    for place in 0..users.len() {
        let user = users.at(place);
        dropped = dropped.saturating_add(expire(alloc, desks, shard, user.0));
    }
    dropped
}

/// Drops the users that were idle for too long. At `NoMemory` no step was made.
pub fn drop_idle<D: Desks>(alloc: Global, desks: &mut D, shard: u8) -> Result<u32, NoMemory>
    requires { shard < (D.view desks.old).size }
    ensures ok { IfOk result (λ dropped. (entries : List Made) × Does (D.view desks.old) (D.view desks.new) entries × Drops shard dropped entries) }
    ensures err { OnErr result (Does (D.view desks.old) (D.view desks.new) []) }
    ensures cared { is_cared (world_at (D.view desks.new) shard) ≡ true }
{
    match list_idle(alloc, desks, shard) {
        Ok(users) => Ok(expire_all(alloc, desks, shard, &users)),
        Err(_) => Err(NoMemory),
    }
}
