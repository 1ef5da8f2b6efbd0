//! One caller's passes of all the boards.
ghost use Rattle.std.specs.Prelude.{◌≡◌, ◌≤◌, [], IfOk, OnErr, vec_capacity};
ghost use Rattle.std.specs.Arc.{arc_value};
ghost use Rattle.push_model.specs.DeskViews.{Calls, IsHonest, Mails};
ghost use Rattle.push_exchange.specs.Boards.{IsBeside, IsJoined, IsSplit, passes_view};

use crate::board::ShardPass;
use crate::hall::{Hall, join_all, room_for_all, split_all};
use push_model::laws::{legal_histories_are_accounted, reached_worlds_go_on, steps_reply_in_kind};
use push_model::{Desks, Mail, NoMemory, NodeId, Reply, Step, Uaid, mail_bit};
use push_ports::Bell;
use std::alloc::Global;
use std::marker::Model;
use std::sync::{Arc, Wait};

/// One caller's passes of the boards of an exchange, one of each. A call may wait for its turn at a board. Contracts see them
/// as what the caller knows of each board; `passes_view` says what that is as desks of sixteen shards.
#[derive(Drop)]
pub struct Passes<R, B> {
    pub(crate) rt: R,
    pub(crate) hall: Arc<Hall<B>, Global>,
    pub(crate) passes: Vec<ShardPass>,
}

impl<R, B> Model for Passes<R, B> {
    ghost use Rattle.std.specs.Prelude.{List};
    ghost use Rattle.std.specs.Arc.{arc_value};
    ghost use Rattle.push_exchange.specs.PassViews.{PassView};
    ghost use Rattle.push_exchange.specs.Boards.{IsSeated};

    ghost Value = { List PassView };

    ghost view = { λ p. p.passes.items };

    ghost invariant = { λ p. IsSeated (arc_value p.hall).boards.items p.passes.items };
}

// What a new caller needs memory for: the same hall, and room for its passes.
fn prepare<B>(
    alloc: Global,
    hall: &Arc<Hall<B>, Global>,
) -> Result<(Arc<Hall<B>, Global>, Vec<ShardPass>), NoMemory>
where
    B: Drop,
    ensures hall { IfOk result (λ r. arc_value r.0 ≡ arc_value hall.now) }
    ensures room { IfOk result (λ r. (r.1.items ≡ []) × (16 ≤ vec_capacity r.1)) }
{
    let room = room_for_all(alloc)?;
    match Arc::try_clone(hall) {
        Ok(again) => Ok((again, room)),
        Err(_) => Err(NoMemory),
    }
}

impl<R: Wait + Copy, B: Bell> Passes<R, B> {
    /// Does nothing. It tells what always holds: each shard has its number and began in a world that a legal history leads to,
    /// and what was seen is a legal history from there, of proper entries, and legal mail.
    pub fn are_honest(&self)
        ensures { IsHonest (passes_view self.now) }
    {
        let _ = &self.passes;
    }

    /// Passes of the same boards for another caller, which have seen as much and have no entry and no mail of their own. On
    /// each board their number is one that no other pass has. It may wait where others draw a number. Memory is asked for
    /// before the first board is, so that nothing changes where it is missing.
    pub fn split(&mut self, alloc: Global) -> Result<Passes<R, B>, NoMemory>
        ensures calls { Calls (passes_view self.old) (passes_view self.new) [] }
        ensures mails { Mails (passes_view self.old) (passes_view self.new) [] }
        ensures new { IfOk result (λ p. IsSplit (passes_view self.old) (passes_view p)) }
        ensures honest { IfOk result (λ p. IsHonest (passes_view p)) }
        ensures err { OnErr result (self.new ≡ self.old) }
    {
        let prepared = prepare(alloc, &self.hall)?;
        let hall: &Hall<B> = &self.hall;
        let boards = hall.boards.as_slice();
        let passes = split_all(&self.rt, boards, &mut self.passes, prepared.1);
        Ok(Passes {
            rt: self.rt,
            hall: prepared.0,
            passes,
        })
    }

    /// Takes in another caller's passes of the same boards: the longer of the two beginnings of each list that they have seen,
    /// and the own entries of both. The numbers that sign stay.
    pub fn join(&mut self, other: Passes<R, B>)
        requires { IsBeside (passes_view self.old) (passes_view other) }
        ensures joined { IsJoined (passes_view self.old) (passes_view other) (passes_view self.new) }
        ensures honest { IsHonest (passes_view self.new) }
    {
        let Passes {
            rt: _,
            hall: _,
            passes,
        } = other;
        let hall: &Hall<B> = &self.hall;
        let boards = hall.boards.as_slice();
        join_all(boards, &mut self.passes, passes);
    }
}

impl<R: Wait + Copy, B: Bell> Desks for Passes<R, B> {
    ghost use Rattle.push_exchange.specs.Boards.{passes_view};

    ghost view = { passes_view };

    fn count(&self) -> u8 {
        self.passes.len() as u8
    }

    fn pass(&self, shard: u8) -> u64 {
        self.passes[usize::from(shard)].number()
    }

    fn call(&mut self, alloc: Global, shard: u8, asked: Step) -> Result<Reply, NoMemory> {
        steps_reply_in_kind();
        legal_histories_are_accounted();
        reached_worlds_go_on();
        let place = usize::from(shard);
        let hall: &Hall<B> = &self.hall;
        let board = &hall.boards[place];
        let pass = &mut self.passes[place];
        board.call(&self.rt, alloc, pass, asked)
    }

    fn post(&mut self, shard: u8, node: NodeId, uaid: Uaid) {
        let place = usize::from(shard);
        let slot = node.get() - 1;
        let hall: &Hall<B> = &self.hall;
        let board = &hall.boards[place];
        let pass = &mut self.passes[place];
        board.post(pass, slot, mail_bit(uaid));
        let bell = &hall.bells[usize::from(slot)];
        bell.ring();
    }

    fn take_mail(&mut self, shard: u8, node: NodeId) -> Mail {
        let place = usize::from(shard);
        let slot = node.get() - 1;
        let hall: &Hall<B> = &self.hall;
        let board = &hall.boards[place];
        let pass = &mut self.passes[place];
        board.take_mail(pass, slot)
    }
}
