//! The board of one shard, and passes of it.
ghost use Rattle.std.specs.Prelude.{◌≡◌, ◌<◌, ◌↔◌, ℕ, true, IfOk, OnErr, IsTrue};
ghost use Rattle.push_model.specs.declared.mail.MailChange.TheVariants.{Post, Taken};
ghost use Rattle.push_model.specs.Kinds.{takes_memory};
ghost use Rattle.push_model.specs.Steps.{proper};
ghost use Rattle.push_model.specs.Reached.{IsReached};
ghost use Rattle.push_model.specs.MailWords.{mail_of};
ghost use Rattle.turn_board.specs.Passes.{SlotEndsWith};
ghost use Rattle.push_exchange.specs.PassViews.{Asked, IsAlone, IsEndOf, IsJoinedPass, IsKept, IsSame, IsSplitOff, IsUnmoved, Replied, opening_pass};

use crate::object::ShardObject;
use push_model::{Mail, NoMemory, Reply, Step};
use shard_core::Shard;
use std::alloc::Global;
use std::marker::Model;
use std::sync::Wait;
use turn_board::{Board, Pass};

/// The board of one shard. Contracts see it as the numbers that name it, which no other board has.
#[derive(Drop)]
pub struct ShardBoard {
    board: Board<ShardObject>,
}

impl Model for ShardBoard {
    ghost use Rattle.std.specs.Prelude.{List, ℕ};
    ghost use Rattle.push_exchange.specs.PassViews.{board_name};

    ghost Value = { List ℕ };

    ghost view = { λ b. board_name b.board.table.shared.table_id };
}

/// One caller's pass of a shard's board. Contracts see it as what the caller knows of that board.
#[derive(Drop)]
pub struct ShardPass {
    pass: Pass<ShardObject>,
}

impl Model for ShardPass {
    ghost use Rattle.push_exchange.specs.PassViews.{PassView, view_of};

    ghost Value = { PassView };

    ghost view = { λ p. view_of p.pass };
}

impl ShardPass {
    /// The number that signs the pass's entries and mail.
    pub fn number(&self) -> u64
        ensures { result ≡ self.now.number }
    {
        self.pass.number()
    }
}

impl ShardBoard {
    /// A board with the empty shard of that number, and its first pass.
    pub fn open(alloc: Global, number: u8) -> Result<(ShardBoard, ShardPass), NoMemory>
        ensures { IfOk result (λ r. r.1 ≡ opening_pass r.0 number) }
    {
        let object = ShardObject::new(alloc, Shard::start(alloc, number))?;
        let (board, pass) = Board::new(alloc, object)?;
        Ok((ShardBoard { board }, ShardPass { pass }))
    }

    /// Makes the step, in a turn of its own. The reply is that of the entry that the pass has then seen last. `NoMemory`
    /// comes only where the step may want memory, and adds nothing.
    pub fn call<R: Wait>(
        &self,
        rt: &R,
        alloc: Global,
        pass: &mut ShardPass,
        asked: Step,
    ) -> Result<Reply, NoMemory>
        requires board { pass.old.board ≡ self.now }
        requires opened { IsReached pass.old.opened }
        requires allowed { proper pass.old.number asked ≡ true }
        ensures same { IsSame pass.old pass.new × (pass.new.mail ≡ pass.old.mail) }
        ensures kept { IsKept pass.new }
        ensures ok { IfOk result (λ r. Replied pass.old pass.new asked r) }
        ensures err { OnErr result ((takes_memory asked ≡ true) × (pass.new.seen ≡ pass.old.seen)) }
    {
        self.board.call(rt, alloc, &mut pass.pass, asked)
    }

    /// Posts the bits to the slot.
    pub fn post(&self, pass: &mut ShardPass, slot: u8, bits: u64)
        requires board { pass.old.board ≡ self.now }
        requires opened { IsReached pass.old.opened }
        requires slot { slot < 8 }
        ensures same { IsSame pass.old pass.new × (pass.new.seen ≡ pass.old.seen) }
        ensures kept { IsKept pass.new }
        ensures mail { SlotEndsWith slot (Post bits) pass.old.number pass.old.numbers pass.old.mail pass.new.mail }
    {
        self.board.post(&mut pass.pass, slot, bits);
    }

    /// Takes all bits of the slot: `Quiet` exactly where none was out.
    pub fn take_mail(&self, pass: &mut ShardPass, slot: u8) -> Mail
        requires board { pass.old.board ≡ self.now }
        requires opened { IsReached pass.old.opened }
        requires slot { slot < 8 }
        ensures same { IsSame pass.old pass.new × (pass.new.seen ≡ pass.old.seen) }
        ensures kept { IsKept pass.new }
        ensures mail { (bits : ℕ) × (result ≡ mail_of bits) × SlotEndsWith slot (Taken bits) pass.old.number pass.old.numbers pass.old.mail pass.new.mail }
    {
        self.board.take_mail(&mut pass.pass, slot)
    }

    /// A pass for another caller, which has seen as much and has no entry and no mail of its own. It takes no memory.
    pub fn split<R: Wait>(&self, rt: &R, pass: &mut ShardPass) -> ShardPass
        requires board { pass.old.board ≡ self.now }
        requires opened { IsReached pass.old.opened }
        ensures pass { IsUnmoved pass.old pass.new }
        ensures new { IsSplitOff pass.old result }
        ensures kept { IsKept pass.new × IsKept result }
    {
        let pass = self.board.split(rt, &mut pass.pass);
        ShardPass { pass }
    }

    /// Takes in another pass of the board.
    pub fn join(&self, pass: &mut ShardPass, other: ShardPass)
        requires board { (pass.old.board ≡ self.now) × (other.board ≡ self.now) }
        requires opened { IsReached pass.old.opened }
        ensures joined { IsJoinedPass pass.old other pass.new }
        ensures kept { IsKept pass.new }
    {
        let ShardPass { pass: other } = other;
        self.board.join(&mut pass.pass, other);
    }

    /// Whether every other pass was joined into this one, at the moment of this call's count.
    pub fn alone(&self, pass: &mut ShardPass) -> bool
        requires board { pass.old.board ≡ self.now }
        requires opened { IsReached pass.old.opened }
        ensures asked { Asked pass.old pass.new }
        ensures kept { IsKept pass.new }
        ensures alone { IsTrue result ↔ IsAlone pass.new }
    {
        self.board.alone(&mut pass.pass)
    }

    /// Takes the shard off the board for good. What the pass has seen is its whole history.
    pub fn finish<R: Wait>(&self, rt: &R, pass: ShardPass) -> Shard
        requires board { pass.board ≡ self.now }
        requires alone { IsAlone pass }
        ensures { IsEndOf pass result }
    {
        let ShardPass { pass } = pass;
        self.board.finish(rt, pass).into_shard()
    }
}
