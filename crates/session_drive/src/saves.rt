//! What a session held is saved by its saver.
ghost use Rattle.std.specs.Prelude.{◌≡◌, ◌<◌, ◌≤◌, ◌∷◌, [], ℕ, true, false};
ghost use Rattle.push_model.specs.Kinds.{takes_memory};
ghost use Rattle.push_model.specs.Steps.{proper};
ghost use Rattle.push_model.specs.Caring.{is_cared};
ghost use Rattle.push_model.specs.DeskViews.{Calls, Mails, made, world_at};
ghost use Rattle.push_model.specs.declared.reply.Reply.{Reply};
ghost use Rattle.push_model.specs.declared.step.Actor.TheVariants.{Saver};
ghost use Rattle.push_model.specs.declared.step.Step.TheVariants.{Close, Release, SaveOne, Reread};
ghost use Rattle.session_drive.specs.Shuts.{closing, counted, rereading, saving};
ghost use Rattle.session_drive.specs.Saves.{HandsOver, OneStep, SavesOne, held_by, named_by, save_by};

use push_model::{Actor, Desks, NodeId, Reply, SessionId, Step};
use std::alloc::Global;

/// What a saver that is done leaves.
#[derive(Clone, Copy, Debug)]
pub struct Handover {
    /// How many messages it saved, up to 2^32 - 1.
    pub saved: u32,
    /// The node of the session that is to be told of them, if one is.
    pub node: Option<NodeId>,
}

/// What was done with one message.
#[derive(Clone, Copy, Debug)]
enum Save {
    /// It was saved.
    Kept,
    /// It was left.
    Passed,
    /// There was none any more.
    All,
    /// There is no such saver any more.
    Gone,
}

/// How the saving goes on.
#[derive(Clone, Copy, Debug)]
enum Saves {
    /// So many are saved by now.
    On(u32),
    /// It is over.
    Over(Handover),
}

// ---- steps

/// Makes a step that takes no memory.
pub fn make<D: Desks>(alloc: Global, desks: &mut D, shard: u8, step: Step) -> Reply
    requires within { shard < (D.view desks.old).size }
    requires allowed { proper ((D.view desks.old).number shard) step ≡ true }
    requires free { takes_memory step ≡ false }
    ensures calls { Calls (D.view desks.old) (D.view desks.new) (made shard step result ∷ []) }
    ensures mail { Mails (D.view desks.old) (D.view desks.new) [] }
    ensures cared { is_cared (world_at (D.view desks.new) shard) ≡ true }
{
    match desks.call(alloc, shard, step) {
        Ok(reply) => reply,
        Err(_) => unreachable!(),
    }
}

fn held_by(reply: &Reply) -> Option<u64>
    ensures { result ≡ held_by reply.now }
{
    match reply {
        Reply::Saving(held) => Some(*held),
        _ => None,
    }
}

fn save_by(reply: &Reply) -> Save
    ensures { result ≡ save_by reply.now }
{
    match reply {
        Reply::Saved(_) => Save::Kept,
        Reply::Left(_, _) => Save::Passed,
        Reply::AllSaved => Save::All,
        _ => Save::Gone,
    }
}

fn named_by(reply: &Reply) -> Option<NodeId>
    ensures { result ≡ named_by reply.now }
{
    match reply {
        Reply::Names(node, _) => Some(*node),
        _ => None,
    }
}

// Closes the session, and says how many messages it held.
fn close<D: Desks>(alloc: Global, desks: &mut D, shard: u8, s: SessionId) -> Option<u64>
    requires { shard < (D.view desks.old).size }
    ensures step { OneStep shard (Close s) held_by result (D.view desks.old) (D.view desks.new) }
    ensures cared { is_cared (world_at (D.view desks.new) shard) ≡ true }
{
    let reply = make(alloc, desks, shard, Step::Close(s));
    held_by(&reply)
}

// Takes the closed session out of the route row.
fn release<D: Desks>(alloc: Global, desks: &mut D, shard: u8, s: SessionId)
    requires { shard < (D.view desks.old).size }
    ensures step { (r : Reply) × Calls (D.view desks.old) (D.view desks.new) (made shard (Release s) r ∷ []) }
    ensures mail { Mails (D.view desks.old) (D.view desks.new) [] }
    ensures cared { is_cared (world_at (D.view desks.new) shard) ≡ true }
{
    let _reply = make(alloc, desks, shard, Step::Release(s));
}

// Saves the next message, if its channel and its time allow it.
fn save_one<D: Desks>(alloc: Global, desks: &mut D, shard: u8, s: SessionId) -> Save
    requires { shard < (D.view desks.old).size }
    ensures step { OneStep shard (SaveOne s) save_by result (D.view desks.old) (D.view desks.new) }
    ensures cared { is_cared (world_at (D.view desks.new) shard) ≡ true }
{
    let reply = make(alloc, desks, shard, Step::SaveOne(s));
    save_by(&reply)
}

// The node of the session that the route row names by now, if it names one.
fn reread<D: Desks>(alloc: Global, desks: &mut D, shard: u8, s: SessionId) -> Option<NodeId>
    requires { shard < (D.view desks.old).size }
    ensures step { OneStep shard (Reread (Saver s)) named_by result (D.view desks.old) (D.view desks.new) }
    ensures cared { is_cared (world_at (D.view desks.new) shard) ≡ true }
{
    let reply = make(alloc, desks, shard, Step::Reread(Actor::Saver(s)));
    named_by(&reply)
}

// ---- messages

// Saves one message more; once there is none, and some were saved, it asks who is to be told of them.
fn save_next<D: Desks>(alloc: Global, desks: &mut D, shard: u8, s: SessionId, saved: u32) -> Saves
    requires { shard < (D.view desks.old).size }
    ensures step { (n c m : ℕ) → c ≤ n → saved ≡ counted m → SavesOne shard s n c m result (D.view desks.old) (D.view desks.new) }
    ensures cared { is_cared (world_at (D.view desks.new) shard) ≡ true }
{
    match save_one(alloc, desks, shard, s) {
        Save::Kept => Saves::On(saved.saturating_add(1)),
        Save::Passed => Saves::On(saved),
        Save::Gone => Saves::Over(Handover { saved, node: None }),
        Save::All => {
            if saved == 0 {
                return Saves::Over(Handover { saved, node: None });
            }
            let node = reread(alloc, desks, shard, s);
            Saves::Over(Handover { saved, node })
        }
    }
}

// Saves up to so many messages; one step more is to say that there is none.
fn save_all<D: Desks>(alloc: Global, desks: &mut D, shard: u8, s: SessionId, held: u64) -> Handover
    requires { shard < (D.view desks.old).size }
    ensures steps { HandsOver result (saving shard s held 0 0) (D.view desks.old) (D.view desks.new) }
    ensures cared { is_cared (world_at (D.view desks.new) shard) ≡ true }
{
    let mut saved = 0;
    for place in 0..held {
        match save_next(alloc, desks, shard, s, saved) {
            Saves::On(count) => saved = count,
            Saves::Over(handover) => return handover,
        }
    }
    match save_next(alloc, desks, shard, s, saved) {
        Saves::On(saved) => Handover { saved, node: None },
        Saves::Over(handover) => handover,
    }
}

/// Closes the session, and saves what it held.
pub fn hand_over<D: Desks>(alloc: Global, desks: &mut D, shard: u8, s: SessionId) -> Handover
    requires { shard < (D.view desks.old).size }
    ensures steps { HandsOver result (closing shard s) (D.view desks.old) (D.view desks.new) }
    ensures cared { is_cared (world_at (D.view desks.new) shard) ≡ true }
{
    match close(alloc, desks, shard, s) {
        None => Handover {
            saved: 0,
            node: None,
        },
        Some(held) => {
            release(alloc, desks, shard, s);
            save_all(alloc, desks, shard, s, held)
        }
    }
}
