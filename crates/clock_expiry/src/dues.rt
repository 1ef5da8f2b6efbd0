//! Moments at which messages expire, in order.
ghost use Rattle.std.specs.Prelude.{◌≡◌, ℕ, ◌+◌, ◌<◌, ◌≤◌, [], not, find, position, IsTrue, IfNone, IfSome, OnOk, OnErr};
ghost use Rattle.std.specs.List.{list_any, position_or_len};
ghost use Rattle.push_model.specs.Keyed.{without_first, IsPlace};
ghost use Rattle.clock_expiry.specs.Dues.{is_id_before, is_before, is_ascending, with_due, is_due, has_come, due_id, IsSoonest};

use push_model::{Moment, MsgId, NoMemory};
use std::alloc::Global;
use std::marker::Model;

/// Moments in seconds at which messages expire, with the ids of these messages, in ascending order: by moment, then by
/// the id's shard, then by its number. It keeps room for `spare` more. Contracts see the entries and `spare`.
#[derive(Drop)]
pub struct Due {
    entries: Vec<(u64, MsgId)>,
    spare: usize,
}

impl Model for Due {
    ghost use Rattle.std.specs.Prelude.{◌+◌, ◌≤◌, IsTrue, vec_len, vec_capacity};
    ghost use Rattle.clock_expiry.specs.Dues.{Dues, is_ascending};

    ghost Value = { Dues };

    ghost view = { λ d. record { entries = d.entries.items; spare = d.spare } };

    ghost invariant = { λ d. (vec_len d.entries + d.spare ≤ vec_capacity d.entries) × IsTrue (is_ascending d.entries.items) };
}

// by shard, and then by number
#[tactic(auto, unfolding(crate::specs::Dues::is_id_before))]
fn is_id_before(one: MsgId, other: MsgId) -> bool
    ensures { result ≡ is_id_before one other }
{
    one.shard < other.shard || (one.shard == other.shard && one.number < other.number)
}

// by moment, and then by id
#[tactic(auto, unfolding(crate::specs::Dues::is_before))]
fn is_before(one: (u64, MsgId), other: (u64, MsgId)) -> bool
    ensures { result ≡ is_before one other }
{
    one.0 < other.0 || (one.0 == other.0 && is_id_before(one.1, other.1))
}

fn first_behind(entries: &[(u64, MsgId)], entry: (u64, MsgId)) -> Option<usize>
    ensures { result ≡ position (λ x. not (is_before x entry)) entries.now }
{
    entries.iter().position(|x| !is_before(*x, entry))
}

// how many of the front are before the entry
fn place_for(entries: &[(u64, MsgId)], entry: (u64, MsgId)) -> usize
    ensures { result ≡ position_or_len (λ x. not (is_before x entry)) entries.now }
{
    match first_behind(entries, entry) {
        Some(place) => place,
        None => entries.len(),
    }
}

fn first_due(entries: &[(u64, MsgId)], expires: u64, id: MsgId) -> Option<usize>
    ensures { result ≡ position (is_due expires id) entries.now }
{
    entries
        .iter()
        .position(|entry| entry.0 == expires && entry.1.is_same(&id))
}

// the place of exactly that entry
fn due_place(entries: &[(u64, MsgId)], expires: u64, id: MsgId) -> Option<usize>
    ensures { IsPlace (is_due expires id) entries.now result }
{
    first_due(entries, expires, id)
}

impl Due {
    /// No entries, and no room. It takes no memory.
    pub fn new(alloc: Global) -> Due
        ensures { result ≡ record { entries = []; spare = 0 } }
    {
        Due {
            entries: Vec::new(alloc),
            spare: 0,
        }
    }

    /// Makes room for at least `n` more. At `NoMemory` nothing changes.
    pub fn reserve(&mut self, n: usize) -> Result<(), NoMemory>
        ensures entries { self.new.entries ≡ self.old.entries }
        ensures room { OnOk result (n ≤ self.new.spare) }
        ensures kept { self.old.spare ≤ self.new.spare }
        ensures err { OnErr result (self.new ≡ self.old) }
    {
        if n <= self.spare {
            return Ok(());
        }
        if self.entries.reserve(n).is_err() {
            return Err(NoMemory);
        }
        self.spare = n;
        Ok(())
    }

    /// Adds the entry at its place, with the room as before. At `NoMemory` nothing changes.
    pub fn insert(&mut self, expires: u64, id: MsgId) -> Result<(), NoMemory>
        ensures entries { OnOk result (self.new.entries ≡ with_due (expires, id) self.old.entries) }
        ensures kept { self.old.spare ≤ self.new.spare }
        ensures err { OnErr result (self.new ≡ self.old) }
    {
        let Some(wanted) = self.spare.checked_add(1) else {
            return Err(NoMemory);
        };
        self.reserve(wanted)?;
        self.put(expires, id);
        Ok(())
    }

    /// Adds the entry at its place, in room that was kept. It takes no memory.
    pub fn put(&mut self, expires: u64, id: MsgId)
        requires { 0 < self.old.spare }
        ensures entries { self.new.entries ≡ with_due (expires, id) self.old.entries }
        ensures spare { self.new.spare + 1 ≡ self.old.spare }
    {
        let entry = (expires, id);
        let place = place_for(&self.entries, entry);
        match self.entries.insert(place, entry) {
            Ok(()) => {}
            Err(_) => unreachable!(),
        }
        self.spare -= 1;
    }

    /// Takes out exactly that entry, the first of its kind, and says whether there was one.
    pub fn remove(&mut self, expires: u64, id: MsgId) -> bool
        ensures found { result ≡ list_any (is_due expires id) self.old.entries }
        ensures entries { self.new.entries ≡ without_first (is_due expires id) self.old.entries }
        ensures kept { self.old.spare ≤ self.new.spare }
    {
        match due_place(&self.entries, expires, id) {
            Some(place) => {
                self.entries.remove(place);
                true
            }
            None => false,
        }
    }

    /// Takes out the first entry whose moment has come, which is the least of all entries, and gives its id; `None`
    /// where no entry's moment has come.
    pub fn take_due(&mut self, now: Moment) -> Option<MsgId>
        ensures id { result ≡ due_id (find (has_come now) self.old.entries) }
        ensures entries { self.new.entries ≡ without_first (has_come now) self.old.entries }
        ensures ascending { IsTrue (is_ascending self.old.entries) }
        ensures kept { self.old.spare ≤ self.new.spare }
    {
        let (expires, id) = *self.entries.first()?;
        if now.seconds() < expires {
            return None;
        }
        self.entries.remove(0);
        Some(id)
    }

    /// The least moment of the entries, `None` where there is none.
    pub fn soonest(&self) -> Option<u64>
        ensures none { IfNone result (self.now.entries ≡ []) }
        ensures soonest { IfSome result (IsSoonest self.now.entries) }
    {
        let (expires, _) = *self.entries.first()?;
        Some(expires)
    }
}
