//! A desk of one shard.
ghost use Rattle.std.specs.Prelude.{◌≡◌, IfOk};
ghost use Rattle.push_model.specs.Reached.{IsReached};
ghost use Rattle.push_model.specs.DeskViews.{IsHonest, own_entries};
ghost use Rattle.lone_desk.specs.Notes.{fresh};
ghost use Rattle.lone_desk.specs.LoneViews.{lone_view};

use crate::notes::{OnlySeat, Words, note, post, take};
use atomic_table::Table;
use push_model::laws::{legal_histories_are_accounted, steps_reply_in_kind};
use push_model::{Desks, Mail, NoMemory, NodeId, Reply, Step, Uaid, mail_bit};
use shard_core::Shard;
use std::alloc::Global;
use std::marker::Model;
use std::snapshot::Snapshot;

/// One shard, of number 0, at which nobody else is. Contracts see it as what was done at it since it was made, of which it
/// stores nothing.
#[derive(Drop)]
pub struct LoneDesk {
    shard: Shard,
    words: Words,
    seat: OnlySeat,
}

impl Model for LoneDesk {
    ghost use Rattle.std.specs.Prelude.{◌≡◌};
    ghost use Rattle.lone_desk.specs.declared.notes.Notes.{Notes};
    ghost use Rattle.lone_desk.specs.Notes.{IsNoted};

    ghost Value = { Notes };

    ghost view = { λ d. d.seat.me.0 };

    ghost invariant = { λ d. (d.seat.table_id ≡ d.words.shared.table_id) × (d.words.shared.table_id.words ≡ 9) × IsNoted d.seat.me.0 d.shard };
}

impl LoneDesk {
    /// A desk of that shard, of which nothing is seen yet and which signs with 0. Where memory is wanted the shard is
    /// dropped.
    pub fn new(alloc: Global, shard: Shard) -> Result<LoneDesk, NoMemory>
        requires { shard.shard ≡ 0 }
        ensures fresh { IfOk result (λ desk. desk ≡ fresh shard) }
        ensures honest { IfOk result (λ desk. IsReached shard → IsHonest (lone_view desk)) }
    {
        let about = Snapshot::of(&shard);
        match Table::of_words(alloc, &[0; 9], &about) {
            Ok((words, seat)) => Ok(LoneDesk { shard, words, seat }),
            Err(_) => Err(NoMemory),
        }
    }

    /// A law: each entry that was seen is an own one.
    pub fn all_entries_are_own(&self)
        ensures { own_entries (lone_view self.now) 0 ≡ (lone_view self.now).seen 0 }
    {
        let _seat = &self.seat;
    }
}

impl Desks for LoneDesk {
    ghost use Rattle.lone_desk.specs.LoneViews.{lone_view};

    ghost view = { lone_view };

    fn count(&self) -> u8 {
        1
    }

    fn pass(&self, shard: u8) -> u64 {
        let _ = shard;
        0
    }

    fn call(&mut self, alloc: Global, shard: u8, asked: Step) -> Result<Reply, NoMemory> {
        steps_reply_in_kind();
        legal_histories_are_accounted();
        let _ = shard;
        let said = Snapshot::of(&asked);
        let reply = self.shard.step(alloc, asked)?;
        note(&self.words, &mut self.seat, &said, &reply);
        Ok(reply)
    }

    fn post(&mut self, shard: u8, node: NodeId, uaid: Uaid) {
        let _ = shard;
        post(&self.words, &mut self.seat, node.get(), mail_bit(uaid));
    }

    fn take_mail(&mut self, shard: u8, node: NodeId) -> Mail {
        let _ = shard;
        Mail::of(take(&self.words, &mut self.seat, node.get()))
    }
}
