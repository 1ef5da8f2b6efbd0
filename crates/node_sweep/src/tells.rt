//! Telling sessions to look at what is stored.
ghost use Rattle.std.specs.Prelude.{◌≡◌, ◌<◌, ◌∷◌, [], ℕ, List, true, Some, OnErr, IfOk};
ghost use Rattle.push_model.specs.Caring.{is_cared};
ghost use Rattle.push_model.specs.DeskViews.{Made, world_at};
ghost use Rattle.node_sweep.specs.Entries.{Does};
ghost use Rattle.node_sweep.specs.Sweeps.{AreTold, Tells};

use crate::lists::list_orphans;
use node_routes::node_notif;
use push_model::{Desks, NoMemory, NodeId, Uaid, Users};
use std::alloc::Global;

// Tells the user's session at that node, and posts the user's bit to the node where it was found. It gives how many were told.
fn tell_at<D: Desks>(alloc: Global, desks: &mut D, shard: u8, node: NodeId, uaid: Uaid) -> u32
    requires { shard < (D.view desks.old).size }
    ensures told { (at : ℕ) → (notes : List Made) × Does (D.view desks.old) (D.view desks.new) notes × AreTold shard ((uaid, Some node, at) ∷ []) result notes }
    ensures cared { is_cared (world_at (D.view desks.new) shard) ≡ true }
{
    if node_notif(alloc, desks, shard, node, uaid) {
        desks.post(shard, node, uaid);
        1
    } else {
        0
    }
}

// The same of a user that a shard named. One without a node is passed over.
fn tell<D: Desks>(alloc: Global, desks: &mut D, shard: u8, user: (Uaid, Option<NodeId>, u64)) -> u32
    requires within { shard < (D.view desks.old).size }
    requires cared { is_cared (world_at (D.view desks.old) shard) ≡ true }
    ensures told { (notes : List Made) × Does (D.view desks.old) (D.view desks.new) notes × AreTold shard (user ∷ []) result notes }
    ensures cared { is_cared (world_at (D.view desks.new) shard) ≡ true }
{
    match user.1 {
        Some(node) => tell_at(alloc, desks, shard, node, user.0),
        None => 0,
    }
}

// Tells the sessions of all these users.
fn tell_all<D: Desks>(alloc: Global, desks: &mut D, shard: u8, users: &Users) -> u32
    requires within { shard < (D.view desks.old).size }
    requires cared { is_cared (world_at (D.view desks.old) shard) ≡ true }
    ensures told { (notes : List Made) × Does (D.view desks.old) (D.view desks.new) notes × AreTold shard users.now result notes }
    ensures cared { is_cared (world_at (D.view desks.new) shard) ≡ true }
{
    let mut told = 0u32;
    for place in 0..users.len() {
        told = told.saturating_add(tell(alloc, desks, shard, users.at(place)));
    }
    told
}

/// Tells the sessions of the users that have an orphan row. At `NoMemory` no step was made.
pub fn tell_orphans<D: Desks>(alloc: Global, desks: &mut D, shard: u8) -> Result<u32, NoMemory>
    requires { shard < (D.view desks.old).size }
    ensures ok { IfOk result (λ told. (entries : List Made) × Does (D.view desks.old) (D.view desks.new) entries × Tells shard told entries) }
    ensures err { OnErr result (Does (D.view desks.old) (D.view desks.new) []) }
    ensures cared { is_cared (world_at (D.view desks.new) shard) ≡ true }
{
    match list_orphans(alloc, desks, shard) {
        Ok(users) => Ok(tell_all(alloc, desks, shard, &users)),
        Err(_) => Err(NoMemory),
    }
}
