//! The stored rows of one user.
ghost use Rattle.std.specs.Prelude.{◌≡◌, ℕ, Bool, ◌+◌, ◌<◌, ◌≤◌, ◌++◌, ◌∷◌, [], length, remove, filter, map, count_by, not, true, false, IfOk, IfNone, IfSome, OnOk, OnErr};
ghost use Rattle.std.specs.Fn.{FnReturnsAt};
ghost use Rattle.std.specs.List.{list_any};
ghost use Rattle.push_model.specs.declared.parts.Row.{Row};
ghost use Rattle.push_model.specs.Keyed.{without_first};
ghost use Rattle.push_model.specs.Messages.{is_expired};
ghost use Rattle.push_model.specs.Rows.{is_row, row_page, remains, verdict, new_row, stored_rows};
ghost use Rattle.push_model.specs.Cells.{unmarked_row};
ghost use Rattle.push_model.specs.SessionSteps.{is_other_row};
ghost use Rattle.message_rows.specs.RowStock.{is_orphan, marked_row, marked_where, NeverExpire, IsSoonest};
ghost use Rattle.message_rows.specs.Storing.{store_answer, rows_with_stored, put_answer, rows_with_put};
ghost use Rattle.message_rows.specs.Going.{stays};

use crate::answers::{PutAnswer, StoreAnswer};
use crate::going::{Going, stays};
use crate::marks::{mark_where, unmark_rows};
use crate::moments::{drop_entries, put_entry, remove_entry};
use crate::pages::{remains, row_page};
use crate::places::{is_row, row_place, topic_place};
use crate::verdicts::verdict_of;
use clock_expiry::Due;
use push_model::{
    ChannelId, IdList, Message, Moment, MsgId, NoMemory, Pages, Row, Shared, Verdict,
};
use std::alloc::Global;
use std::marker::Model;

/// Rows in the order of storing, with room kept for `spare` more. Contracts see the rows and `spare`. Where a call
/// answers `NoMemory`, it has changed nothing.
#[derive(Drop)]
pub struct Rows {
    rows: Vec<Row>,
    dues: Due,
    spare: usize,
}

impl Model for Rows {
    ghost use Rattle.std.specs.Prelude.{◌+◌, ◌≤◌, vec_len, vec_capacity};
    ghost use Rattle.message_rows.specs.RowStock.{RowStock};
    ghost use Rattle.message_rows.specs.RowDues.{IsDueOf};

    ghost Value = { RowStock };

    ghost view = { λ r. record { rows = r.rows.items; spare = r.spare } };

    ghost invariant = { λ r. (vec_len r.rows + r.spare ≤ vec_capacity r.rows) × IsDueOf r.rows.items r.spare r.dues };
}

impl Rows {
    /// No rows, and no room. It takes no memory.
    pub fn new(alloc: Global) -> Rows
        ensures { result ≡ record { rows = []; spare = 0 } }
    {
        Rows {
            rows: Vec::new(alloc),
            dues: Due::new(alloc),
            spare: 0,
        }
    }

    /// The rows, in the order of storing.
    pub fn rows(&self) -> &[Row]
        ensures { result.now ≡ self.now.rows }
    {
        &self.rows
    }

    /// How many there are.
    pub fn len(&self) -> usize
        ensures { result ≡ length self.now.rows }
    {
        self.rows.len()
    }

    /// Makes room for at least `n` more.
    pub fn reserve(&mut self, n: usize) -> Result<(), NoMemory>
        ensures rows { self.new.rows ≡ self.old.rows }
        ensures room { OnOk result (n ≤ self.new.spare) }
        ensures kept { self.old.spare ≤ self.new.spare }
        ensures err { OnErr result (self.new ≡ self.old) }
    {
        if n <= self.spare {
            return Ok(());
        }
        if self.rows.reserve(n).is_err() {
            return Err(NoMemory);
        }
        self.dues.reserve(n)?;
        self.spare = n;
        Ok(())
    }

    /// What comes of a message that is to become a row.
    pub fn verdict(&self, message: &Message) -> Verdict
        ensures { result ≡ verdict message.now self.now.rows }
    {
        verdict_of(&self.rows, message)
    }

    /// Stores a flight's message, of which at most 1,000 are stored. The room stays. It takes memory only where the
    /// message joins, and then becomes the last row, in place of a row of its channel and topic.
    pub fn store(&mut self, message: Shared) -> Result<StoreAnswer, NoMemory>
        ensures answer { IfOk result (λ answer. answer ≡ store_answer (verdict message self.old.rows)) }
        ensures rows { OnOk result (self.new.rows ≡ rows_with_stored (verdict message self.old.rows) message self.old.rows) }
        ensures kept { self.old.spare ≤ self.new.spare }
        ensures unchanged { OnErr result (self.new ≡ self.old) }
        ensures memory { OnErr result (verdict message self.old.rows ≡ Verdict.Joins) }
    {
        match self.verdict(message.message()) {
            Verdict::Stays => Ok(StoreAnswer::Stored),
            Verdict::Older => Ok(StoreAnswer::Older),
            Verdict::Full => Ok(StoreAnswer::Full),
            Verdict::Joins => {
                self.make_room()?;
                self.put(message);
                Ok(StoreAnswer::Stored)
            }
        }
    }

    /// Saves a saver's message, also where 1,000 are stored, in room that was kept. It takes no memory.
    pub fn put_reserved(&mut self, message: Shared) -> PutAnswer
        requires { 0 < self.old.spare }
        ensures answer { result ≡ put_answer (verdict message self.old.rows) }
        ensures rows { self.new.rows ≡ rows_with_put (verdict message self.old.rows) message self.old.rows }
        ensures kept { self.old.spare ≤ self.new.spare + 1 }
    {
        match self.verdict(message.message()) {
            Verdict::Stays => PutAnswer::Saved,
            Verdict::Older => PutAnswer::Older,
            Verdict::Full | Verdict::Joins => {
                self.put(message);
                PutAnswer::Saved
            }
        }
    }

    /// The messages of the first ten rows with a topic that weren't sent.
    pub fn page_topic(&self, alloc: Global, sent: &IdList) -> Result<Pages, NoMemory>
        ensures { IfOk result (λ page. page ≡ row_page true sent.now self.now.rows) }
    {
        row_page(alloc, true, sent, &self.rows)
    }

    /// The messages of the first ten rows without a topic that weren't sent.
    pub fn page_plain(&self, alloc: Global, sent: &IdList) -> Result<Pages, NoMemory>
        ensures { IfOk result (λ page. page ≡ row_page false sent.now self.now.rows) }
    {
        row_page(alloc, false, sent, &self.rows)
    }

    /// Whether some row, with a topic or without, wasn't sent.
    pub fn remaining(&self, sent: &IdList, topic: bool) -> bool
        ensures { result ≡ remains topic sent.now self.now.rows }
    {
        remains(topic, sent, &self.rows)
    }

    /// Takes out the row of that message, and says whether it was there.
    pub fn remove_id(&mut self, id: MsgId) -> bool
        ensures found { result ≡ list_any (is_row id) self.old.rows }
        ensures rows { self.new.rows ≡ without_first (is_row id) self.old.rows }
        ensures kept { self.old.spare ≤ self.new.spare }
    {
        match row_place(&self.rows, id) {
            Some(place) => {
                self.remove_at(place);
                true
            }
            None => false,
        }
    }

    /// Takes out the rows of that channel, and says how many went.
    pub fn drop_channel(&mut self, chid: ChannelId) -> usize
        ensures rows { self.new.rows ≡ filter (is_other_row chid) self.old.rows }
        ensures count { result + length self.new.rows ≡ length self.old.rows }
        ensures kept { self.old.spare ≤ self.new.spare }
    {
        self.drop_going(&Going::Channel(chid))
    }

    /// Takes out the rows that are expired at that moment, and says how many went. Where none is, it looks at no row.
    pub fn expire(&mut self, now: Moment) -> usize
        ensures rows { self.new.rows ≡ filter (λ r. not (is_expired now r.message)) self.old.rows }
        ensures count { result + length self.new.rows ≡ length self.old.rows }
        ensures kept { self.old.spare ≤ self.new.spare }
    {
        match self.soonest() {
            Some(moment) if moment <= now.seconds() => self.drop_going(&Going::Due(now)),
            _ => 0,
        }
    }

    /// The soonest moment in seconds at which a row expires, and `None` where none ever does. It looks at no row.
    pub fn soonest(&self) -> Option<u64>
        ensures never { IfNone result (NeverExpire self.now.rows) }
        ensures soonest { IfSome result (IsSoonest self.now.rows) }
    {
        self.dues.soonest()
    }

    /// Each row of that message gets the orphan mark.
    pub fn mark(&mut self, id: MsgId)
        ensures rows { self.new.rows ≡ map (marked_row id) self.old.rows }
        ensures kept { self.old.spare ≤ self.new.spare }
    {
        self.mark_where(|row| is_row(row, id));
    }

    /// Each row that passes the test gets the orphan mark, in one walk: for each test `p` that the closure decides, these
    /// are the rows that pass `p`.
    pub fn mark_where<F: Fn(&Row) -> bool>(&mut self, test: F)
        requires { F.IsAlwaysCallable test }
        ensures rows { (p : Row → Bool) → ((r : Row) (b : Bool) → FnReturnsAt F.Fn test r b → b ≡ p r) → self.new.rows ≡ map (marked_where p) self.old.rows }
        ensures messages { map (λ r. r.message) self.new.rows ≡ map (λ r. r.message) self.old.rows }
        ensures kept { self.old.spare ≤ self.new.spare }
    {
        mark_where(&mut self.rows, test);
    }

    /// No row has the orphan mark any more.
    pub fn unmark_all(&mut self)
        ensures rows { self.new.rows ≡ map unmarked_row self.old.rows }
        ensures kept { self.old.spare ≤ self.new.spare }
    {
        unmark_rows(&mut self.rows);
    }

    /// How many rows have the orphan mark.
    pub fn orphans(&self) -> usize
        ensures { result ≡ count_by is_orphan self.now.rows }
    {
        self.rows.iter().filter(|row| row.orphan).count()
    }

    // one more than is kept
    fn make_room(&mut self) -> Result<(), NoMemory>
        ensures rows { self.new.rows ≡ self.old.rows }
        ensures room { OnOk result (self.old.spare < self.new.spare) }
        ensures err { OnErr result (self.new ≡ self.old) }
    {
        match self.spare.checked_add(1) {
            Some(wanted) => self.reserve(wanted),
            None => Err(NoMemory),
        }
    }

    // the message becomes the last row, in place of the row of its channel and topic
    fn put(&mut self, message: Shared)
        requires { 0 < self.old.spare }
        ensures rows { self.new.rows ≡ stored_rows message self.old.rows }
        ensures spare { self.new.spare + 1 ≡ self.old.spare }
    {
        if let Some(place) = topic_place(&self.rows, message.message()) {
            self.remove_at(place);
        }
        self.append(message);
    }

    // the message becomes the last row
    fn append(&mut self, message: Shared)
        requires { 0 < self.old.spare }
        ensures rows { self.new.rows ≡ self.old.rows ++ new_row message ∷ [] }
        ensures spare { self.new.spare + 1 ≡ self.old.spare }
    {
        put_entry(&mut self.dues, message.message());
        let row = Row {
            message,
            orphan: false,
        };
        match self.rows.push(row) {
            Ok(()) => {}
            Err(_) => unreachable!(),
        }
        self.spare -= 1;
    }

    fn remove_at(&mut self, place: usize)
        requires { place < length self.old.rows }
        ensures { self.new ≡ record self.old { rows = remove self.old.rows place } }
    {
        let row = self.rows.remove(place);
        remove_entry(&mut self.dues, row.message.message());
    }

    fn drop_going(&mut self, going: &Going) -> usize
        ensures rows { self.new.rows ≡ filter (stays going.now) self.old.rows }
        ensures count { result + length self.new.rows ≡ length self.old.rows }
        ensures kept { self.old.spare ≤ self.new.spare }
    {
        let before = self.rows.len();
        drop_entries(&mut self.dues, &self.rows, going);
        self.rows.retain(|row| stays(going, row));
        before - self.rows.len()
    }
}
