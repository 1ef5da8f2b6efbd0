//! The savers of a user, with room for more that was reserved.
ghost use Rattle.std.specs.Prelude.{◌≡◌, ◌+◌, ◌<◌, ◌≤◌, ◌++◌, ◌∷◌, [], Some, find, length, position, sum_by, vec_len, vec_capacity, OnOk, OnErr, IfSome, IfNone};
ghost use Rattle.push_model.specs.declared.step.Stage.{Stage};
ghost use Rattle.push_model.specs.Keyed.{IsPlace};
ghost use Rattle.push_model.specs.Cells.{Saver, is_saver};
ghost use Rattle.push_model.specs.Tallies.{capped};
ghost use Rattle.shutdown_save.specs.SaverStock.{no_savers};
ghost use Rattle.shutdown_save.specs.Savers.{new_saver};

use crate::saver::Saver;
use push_model::{MsgId, NoMemory, SessionId, Shared, Stage};
use std::alloc::Global;
use std::marker::Model;

/// The savers of a user, in the order in which their sessions were closed, and for how many more there is room that was
/// reserved.
#[derive(Drop)]
pub struct SaverRows {
    pub(crate) savers: Vec<Saver>,
    spare: usize,
}

impl Model for SaverRows {
    ghost use Rattle.std.specs.Prelude.{◌+◌, ◌≤◌, vec_len, vec_capacity};
    ghost use Rattle.shutdown_save.specs.SaverStock.{SaverStock};

    ghost Value = { SaverStock };

    ghost view = { λ r. record { savers = r.savers.items; spare = r.spare } };

    ghost invariant = { λ r. vec_len r.savers + r.spare ≤ vec_capacity r.savers };
}

impl SaverRows {
    /// No savers, and no room for more. It takes no memory.
    pub fn new(alloc: Global) -> SaverRows
        ensures { result ≡ no_savers }
    {
        SaverRows {
            savers: Vec::new(alloc),
            spare: 0,
        }
    }

    /// Reserves room for so many more savers. At `NoMemory` all stays as it is.
    pub fn reserve(&mut self, n: usize) -> Result<(), NoMemory>
        ensures savers { self.new.savers ≡ self.old.savers }
        ensures room { OnOk result (n ≤ self.new.spare) }
        ensures kept { self.old.spare ≤ self.new.spare }
        ensures err { OnErr result (self.new ≡ self.old) }
    {
        if n <= self.spare {
            return Ok(());
        }
        match self.savers.reserve(n) {
            Ok(()) => {
                self.spare = n;
                Ok(())
            }
            Err(_) => Err(NoMemory),
        }
    }

    /// Adds the saver of that session, which was closed: it holds these messages, those that were shown first, and has saved
    /// nothing. It takes no memory, but one place of the room that was reserved.
    pub fn put(&mut self, s: SessionId, direct: Vec<Shared>, inbox: Vec<Shared>, saved: Vec<MsgId>)
        requires room { 0 < self.old.spare }
        requires empty { saved.items ≡ [] }
        requires ids { vec_len direct + vec_len inbox ≤ vec_capacity saved }
        ensures savers { self.new.savers ≡ self.old.savers ++ new_saver s direct.items inbox.items ∷ [] }
        ensures spare { self.old.spare ≤ self.new.spare + 1 }
    {
        match self.savers.push(Saver::new(s, direct, inbox, saved)) {
            Ok(()) => {}
            Err(_) => unreachable!(),
        }
        self.spare -= 1;
    }

    /// The place of the saver of that session, if it is there.
    pub fn place(&self, s: SessionId) -> Option<usize>
        ensures { IsPlace (is_saver s) self.now.savers result }
    {
        saver_place(&self.savers, s)
    }

    /// How far the saver of that session has come, if it is there.
    pub fn stage(&self, s: SessionId) -> Option<Stage>
        ensures some { IfSome result (λ stage. (v : Saver) × (find (is_saver s) self.now.savers ≡ Some v) × (v.stage ≡ stage)) }
        ensures none { IfNone result (find (is_saver s) self.now.savers ≡ None) }
    {
        let place = saver_place(&self.savers, s)?;
        Some(self.savers[place].stage())
    }

    /// How many messages the savers hold; from 2^64 - 1 on it says that.
    pub fn held(&self) -> u64
        ensures { result ≡ capped (sum_by (λ v. length v.held) self.now.savers) }
    {
        held_by_all(&self.savers)
    }
}

fn held_by_all(savers: &[Saver]) -> u64
    ensures { result ≡ capped (sum_by (λ v. length v.held) savers.now) }
{
    let mut total: u64 = 0;
    for saver in savers {
        total = total.saturating_add(saver.held() as u64);
    }
    total
}

fn first_saver(savers: &[Saver], s: SessionId) -> Option<usize>
    ensures { result ≡ position (is_saver s) savers.now }
{
    savers.iter().position(|saver| saver.is_of(s))
}

/// The place of the saver of that session.
pub(crate) fn saver_place(savers: &[Saver], s: SessionId) -> Option<usize>
    ensures { IsPlace (is_saver s) savers.now result }
{
    first_saver(savers, s)
}
