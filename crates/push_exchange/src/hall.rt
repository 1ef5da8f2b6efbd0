//! What all passes share, and what is done at one board after the other.
ghost use Rattle.std.specs.Prelude.{◌≡◌, ◌<◌, ◌≤◌, ◌++◌, ◌∷◌, ◌&&◌, [], IfOk, OnOk, vec_capacity, vec_len};
ghost use Rattle.std.specs.Bool.{OnFalse, OnTrue};
ghost use Rattle.push_exchange.specs.Boards.{AllAlone, AllAsked, IsSeated, SomeOut};
ghost use Rattle.push_exchange.specs.Rounds.{AllEnded, AllJoined, AllSplitOff, AllUnmoved, IsOpened};

use crate::board::{ShardBoard, ShardPass};
use push_model::NoMemory;
use shard_core::Shard;
use std::alloc::Global;
use std::sync::Wait;

/// The sixteen boards, and the bell of each of the eight nodes.
#[derive(Drop)]
pub struct Hall<B> {
    pub boards: Vec<ShardBoard>,
    pub bells: Vec<B>,
    ghost eight: { vec_len bells ≡ 8 },
}

fn add<T: Drop>(list: &mut Vec<T>, item: T) -> Result<(), NoMemory>
    ensures { OnOk result (list.new.items ≡ list.old.items ++ item ∷ []) }
{
    match list.push(item) {
        Ok(()) => Ok(()),
        Err(_) => Err(NoMemory),
    }
}

/// Sixteen boards, each with the empty shard of its number, and their first passes.
pub fn open_all(alloc: Global) -> Result<(Vec<ShardBoard>, Vec<ShardPass>), NoMemory>
    ensures { IfOk result (λ r. IsOpened 16 r.0.items r.1.items) }
{
    let mut boards = Vec::new(alloc);
    let mut passes = Vec::new(alloc);
    for number in 0..16u8 {
        let opened = ShardBoard::open(alloc, number)?;
        add(&mut boards, opened.0)?;
        add(&mut passes, opened.1)?;
    }
    Ok((boards, passes))
}

/// Room for sixteen.
pub fn room_for_all<T>(alloc: Global) -> Result<Vec<T>, NoMemory>
    ensures { IfOk result (λ room. (room.items ≡ []) × (16 ≤ vec_capacity room)) }
{
    match Vec::with_capacity(alloc, 16) {
        Ok(room) => Ok(room),
        Err(_) => Err(NoMemory),
    }
}

// Puts the item into the room, which takes no memory.
fn put<T: Drop>(room: &mut Vec<T>, item: T)
    requires { vec_len room.old < vec_capacity room.old }
    ensures items { room.new.items ≡ room.old.items ++ item ∷ [] }
    ensures capacity { vec_capacity room.old ≤ vec_capacity room.new }
{
    match room.push(item) {
        Ok(()) => {}
        Err(_) => unreachable!(),
    }
}

/// A pass of each board for another caller. It takes no memory but the room.
pub fn split_all<R: Wait>(
    rt: &R,
    boards: &[ShardBoard],
    passes: &mut Vec<ShardPass>,
    mut room: Vec<ShardPass>,
) -> Vec<ShardPass>
    requires seated { IsSeated boards.now passes.old.items }
    requires room { (room.items ≡ []) × (16 ≤ vec_capacity room) }
    ensures stays { AllUnmoved passes.old.items passes.new.items }
    ensures new { AllSplitOff 16 passes.old.items result.items }
    ensures seated { IsSeated boards.now passes.new.items × IsSeated boards.now result.items }
{
    for k in 0..16 {
        let board = &boards[k];
        let pass = &mut passes[k];
        let new = board.split(rt, pass);
        put(&mut room, new);
    }
    room
}

/// Takes in another pass of each board.
pub fn join_all(boards: &[ShardBoard], passes: &mut Vec<ShardPass>, others: Vec<ShardPass>)
    requires this { IsSeated boards.now passes.old.items }
    requires that { IsSeated boards.now others.items }
    ensures joined { AllJoined 16 passes.old.items others.items passes.new.items }
    ensures seated { IsSeated boards.now passes.new.items }
{
    let mut k: usize = 0;
    for other in others {
        let board = &boards[k];
        let pass = &mut passes[k];
        board.join(pass, other);
        k += 1;
    }
}

fn both(a: bool, b: bool) -> bool
    ensures { result ≡ (a && b) }
{
    a && b
}

/// Whether every other pass of every board was joined into these. Each board is asked.
pub fn ask_all(boards: &[ShardBoard], passes: &mut Vec<ShardPass>) -> bool
    requires { IsSeated boards.now passes.old.items }
    ensures asked { AllAsked 16 passes.old.items passes.new.items }
    ensures seated { IsSeated boards.now passes.new.items }
    ensures alone { OnTrue result (AllAlone passes.new.items) }
    ensures out { OnFalse result (SomeOut passes.new.items) }
{
    let mut all = true;
    for k in 0..16 {
        let board = &boards[k];
        let pass = &mut passes[k];
        let alone = board.alone(pass);
        all = both(all, alone);
    }
    all
}

/// Takes the shard off each board for good.
pub fn finish_all<R: Wait>(
    rt: &R,
    boards: &[ShardBoard],
    passes: Vec<ShardPass>,
    mut room: Vec<Shard>,
) -> Vec<Shard>
    requires seated { IsSeated boards.now passes.items }
    requires alone { AllAlone passes.items }
    requires room { (room.items ≡ []) × (16 ≤ vec_capacity room) }
    ensures { AllEnded 16 passes.items result.items }
{
    let mut k: usize = 0;
    for pass in passes {
        let board = &boards[k];
        let shard = board.finish(rt, pass);
        put(&mut room, shard);
        k += 1;
    }
    room
}
