//! What the one seat at a shard knows, and how it notes what was done. The shard's table has nine words: a count of entries
//! that says nothing, and the mail words of the nodes 1 to 8. Each note is one atomic step on a word.
ghost use Rattle.std.specs.Prelude.{◌≡◌, ◌≤◌, [], ◌∷◌};
ghost use Rattle.push_model.specs.Histories.{entry};
ghost use Rattle.push_model.specs.MailWords.{mail_entry, out};
ghost use Rattle.push_model.specs.declared.mail.MailChange.TheVariants.{Post, Taken};
ghost use Rattle.lone_desk.specs.Notes.{mail_at, with_entries, with_mail};

use atomic_table::{Play, Seat, Table, TableRule};
use push_model::{Entry, MailEntry, Reply, Step};
use shard_core::Shard;
use std::alloc::Global;
use std::collections::LinkedList;
use std::marker::{Brand, PhantomData};
use std::snapshot::Snapshot;

/// The world in which the desk was made, the entries since, and what was done to the mail word of each node. It exists in
/// contracts alone.
pub struct Notes {
    /// The world in which the desk was made.
    pub first: Shard,
    /// The entries since.
    pub seen: LinkedList<Entry>,
    /// What was done to the mail words of the nodes 1 to 8.
    pub mail: LinkedList<LinkedList<MailEntry>>,
}

/// The rule of the table: there is one seat, and each mail word has the bits that are out by its notes.
pub struct OneSeat;

impl TableRule<(), Notes, Snapshot<Shard>> for OneSeat {
    ghost use Rattle.lone_desk.specs.Notes.{Kept, fresh};

    ghost holds = { λ key s. Kept s };

    ghost first = { λ key. fresh key.value };
}

/// Which entries a step adds. Each call picks them.
pub trait Added {
    ghost use Rattle.std.specs.Prelude.{List};
    ghost use Rattle.push_model.specs.declared.entry.Entry.{Entry};
    ghost use Rattle.push_model.specs.declared.step.Step.{Step};
    ghost use Rattle.push_model.specs.declared.reply.Reply.{Reply};

    ghost added: { List (Entry Step Reply) };
}

impl Added for Brand {
    ghost use Rattle.std.specs.Prelude.{[]};

    ghost added = { [] };
}

/// These entries are added to what was seen.
pub struct Adds<E> {
    of: PhantomData<E>,
}

impl<E: Added> Play<(), Notes> for Adds<E> {
    ghost use Rattle.std.specs.Prelude.{◌≡◌};
    ghost use Rattle.lone_desk.specs.Notes.{with_entries};

    ghost then = { λ step me found m. m.0 ≡ with_entries me.0 E.added };
}

/// Bits were posted to the node of that word.
pub struct Posting;

impl Play<(), Notes> for Posting {
    ghost use Rattle.lone_desk.specs.Notes.{Posted};

    ghost then = { Posted };
}

/// All bits were taken from the node of that word.
pub struct Taking;

impl Play<(), Notes> for Taking {
    ghost use Rattle.lone_desk.specs.Notes.{Took};

    ghost then = { Took };
}

/// The words of a shard.
pub type Words = Table<(), Notes, Snapshot<Shard>, OneSeat, Global>;

/// The one seat.
pub type OnlySeat = Seat<(), Notes>;

fn add<E: Added>(words: &Words, seat: &mut OnlySeat, asked: &Snapshot<Step>, reply: &Reply)
    requires words { (seat.old.table_id ≡ words.now.shared.table_id) × (words.now.shared.table_id.words ≡ 9) }
    requires added { E.added ≡ entry 0 asked.now.value reply.now ∷ [] }
    ensures seat { seat.new.table_id ≡ seat.old.table_id }
    ensures notes { seat.new.me.0 ≡ with_entries seat.old.me.0 (entry 0 asked.now.value reply.now ∷ []) }
{
    let _ = asked;
    let _ = reply;
    words.shared.fetch_add::<Adds<E>>(seat, 0, 1);
}

/// Notes the entry of that step and reply.
pub fn note(words: &Words, seat: &mut OnlySeat, asked: &Snapshot<Step>, reply: &Reply)
    requires { (seat.old.table_id ≡ words.now.shared.table_id) × (words.now.shared.table_id.words ≡ 9) }
    ensures seat { seat.new.table_id ≡ seat.old.table_id }
    ensures notes { seat.new.me.0 ≡ with_entries seat.old.me.0 (entry 0 asked.now.value reply.now ∷ []) }
{
    add::<Brand>(words, seat, asked, reply);
}

/// Sets these bits of the node's mail word.
pub fn post(words: &Words, seat: &mut OnlySeat, node: u8, bits: u64)
    requires words { (seat.old.table_id ≡ words.now.shared.table_id) × (words.now.shared.table_id.words ≡ 9) }
    requires node { (1 ≤ node) × (node ≤ 8) }
    ensures seat { seat.new.table_id ≡ seat.old.table_id }
    ensures notes { seat.new.me.0 ≡ with_mail seat.old.me.0 node (mail_entry 0 (Post bits)) }
{
    words
        .shared
        .fetch_or::<Posting>(seat, usize::from(node), bits);
}

/// Takes all bits of the node's mail word.
pub fn take(words: &Words, seat: &mut OnlySeat, node: u8) -> u64
    requires words { (seat.old.table_id ≡ words.now.shared.table_id) × (words.now.shared.table_id.words ≡ 9) }
    requires node { (1 ≤ node) × (node ≤ 8) }
    ensures seat { seat.new.table_id ≡ seat.old.table_id }
    ensures notes { seat.new.me.0 ≡ with_mail seat.old.me.0 node (mail_entry 0 (Taken result)) }
    ensures out { result ≡ out (mail_at seat.old.me.0 node) }
{
    words.shared.swap::<Taking>(seat, usize::from(node), 0)
}
