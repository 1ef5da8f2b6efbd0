//! Small laws of what is told of desks and of mail words, each for a reader to check at a glance.
ghost use Rattle.std.specs.Prelude.{◌≡◌, ◌≢◌, ◌^◌, ◌++◌, ℕ, true, false, List, [], ◌∷◌};
ghost use Rattle.push_model.specs.declared.entry.Entry.{Entry};
ghost use Rattle.push_model.specs.declared.mail.Mail.TheVariants.{Quiet, Bits};
ghost use Rattle.push_model.specs.declared.mail.MailChange.{MailChange};
ghost use Rattle.push_model.specs.declared.mail.MailEntry.{MailEntry};
ghost use Rattle.push_model.specs.declared.mail.MailChange.TheVariants.{Post, Taken};
ghost use Rattle.push_model.specs.Histories.{IsLegal, AllProper, entry};
ghost use Rattle.push_model.specs.Steps.{proper, step};
ghost use Rattle.push_model.specs.MailWords.{IsLegalMail, bit_of, mail_entry, mail_of, out};
ghost use Rattle.push_model.specs.DeskViews.{Calls, DeskView, EndsWith, IsFront, MailEndsWith, Mails, NoneOwn, entries_at, entry_by, made, mail_by, own_entries, own_mail, written, written_at};
ghost use Rattle.push_model.specs.DeskPins.{uaid_of, worked_view, ticked, posted, taken};

use crate::reply::Reply;
use crate::step::Step;

/// The bits that are out are those that were posted since all were last taken, each once, whoever posted them. What is
/// taken is all of them.
pub fn mail_words_keep_bits()
    ensures nothing { out [] ≡ 0 }
    ensures each_once { out (posted 3 1 ∷ posted 5 4 ∷ posted 3 1 ∷ []) ≡ 5 }
    ensures none_left { out (posted 3 1 ∷ taken 5 1 ∷ []) ≡ 0 }
    ensures since_then { out (posted 3 1 ∷ taken 5 1 ∷ posted 3 8 ∷ []) ≡ 8 }
    ensures all_taken { IsLegalMail (posted 3 1 ∷ posted 5 4 ∷ taken 5 5 ∷ taken 3 0 ∷ posted 3 8 ∷ taken 3 8 ∷ []) }
    ensures none_withheld { ¬ IsLegalMail (posted 3 1 ∷ posted 5 4 ∷ taken 5 4 ∷ []) }
    ensures none_invented { ¬ IsLegalMail (posted 3 1 ∷ taken 5 1 ∷ taken 5 1 ∷ []) }
{}

/// A word without a bit is quiet, and no other. The bit of a user is the uaid modulo 64.
pub fn mail_tells_bits()
    ensures quiet { mail_of 0 ≡ Quiet }
    ensures bits { (n : ℕ) → n ≢ 0 → mail_of n ≡ Bits n }
    ensures first_bit { bit_of (uaid_of 0) ≡ 1 }
    ensures last_bit { bit_of (uaid_of 63) ≡ 2 ^ 63 }
    ensures shared_bit { bit_of (uaid_of 130) ≡ 4 }
{}

/// What is own is what one of the own numbers signed, and nothing else. What was made is told of its shard, and what was
/// written of its shard and node, in order, signed by the number there.
pub fn own_is_what_was_signed()
    ensures entries { own_entries worked_view 0 ≡ ticked 3 1 ∷ ticked 4 3 ∷ [] }
    ensures other_shard { own_entries worked_view 1 ≡ ticked 5 2 ∷ [] }
    ensures mail { own_mail worked_view 0 2 ≡ posted 3 1 ∷ taken 4 5 ∷ [] }
    ensures other_node { own_mail worked_view 0 1 ≡ [] }
    ensures made { entries_at worked_view.number 0 (made 0 Step.Report Reply.Done ∷ made 1 Step.ListIdle Reply.Made ∷ made 0 Step.ListOrphans Reply.NotHere ∷ []) ≡ entry 3 Step.Report Reply.Done ∷ entry 3 Step.ListOrphans Reply.NotHere ∷ [] }
    ensures written { written_at worked_view.number 1 2 (written 1 2 (Post 1) ∷ written 0 2 (Post 2) ∷ written 1 1 (Post 4) ∷ written 1 2 (Taken 8) ∷ []) ≡ posted 5 1 ∷ taken 5 8 ∷ [] }
    ensures foreign { NoneOwn entry_by (worked_view.is_own 0) (ticked 5 1 ∷ ticked 6 2 ∷ []) }
    ensures not_foreign { ¬ NoneOwn entry_by (worked_view.is_own 0) (ticked 5 1 ∷ ticked 4 2 ∷ []) }
{}

/// A call with a reply ends what is seen of its shard by its entry, signed by the number there. All that was seen stands
/// before it, and whatever others did in between is not the caller's. The own entries of other shards, and what was seen
/// of them, stay.
pub fn a_call_adds_one_entry()
    ensures begins { (a b : DeskView) (k : ℕ) (x : Step) (r : Reply) → EndsWith a b k x r → IsFront (a.seen k) (b.seen k) }
    ensures ends { (a b : DeskView) (k : ℕ) (x : Step) (r : Reply) → EndsWith a b k x r → (before : List (Entry Step Reply)) × (b.seen k ≡ before ++ entry (a.number k) x r ∷ []) }
    ensures legal { (a b : DeskView) (k : ℕ) (x : Step) (r : Reply) → EndsWith a b k x r → IsLegal step (b.opened k) (b.seen k) × AllProper proper (b.seen k) }
    ensures own { (a b : DeskView) (k : ℕ) (x : Step) (r : Reply) → Calls a b (made k x r ∷ []) → own_entries b k ≡ own_entries a k ++ entry (a.number k) x r ∷ [] }
    ensures elsewhere { (a b : DeskView) (j k : ℕ) (x : Step) (r : Reply) → Calls a b (made k x r ∷ []) → j ≢ k → (b.seen j ≡ a.seen j) × (own_entries b j ≡ own_entries a j) }
    ensures none { (a b : DeskView) (k : ℕ) → Calls a b [] → (b.seen k ≡ a.seen k) × (own_entries b k ≡ own_entries a k) }
{}

/// A change of a mail word ends its mail list, signed by the number of the shard, and stays away from all other words. What
/// was taken is what was out before it.
pub fn a_change_adds_one_entry()
    ensures begins { (a b : DeskView) (k n : ℕ) (c : MailChange) → MailEndsWith a b k n c → IsFront (a.mail k n) (b.mail k n) }
    ensures ends { (a b : DeskView) (k n bits : ℕ) → MailEndsWith a b k n (Taken bits) → (before : List MailEntry) × (b.mail k n ≡ before ++ taken (a.number k) bits ∷ []) × (bits ≡ out before) }
    ensures own { (a b : DeskView) (k n : ℕ) (c : MailChange) → Mails a b (written k n c ∷ []) → own_mail b k n ≡ own_mail a k n ++ mail_entry (a.number k) c ∷ [] }
    ensures other_node { (a b : DeskView) (k m n : ℕ) (c : MailChange) → Mails a b (written k n c ∷ []) → m ≢ n → b.mail k m ≡ a.mail k m }
    ensures other_shard { (a b : DeskView) (j k m n : ℕ) (c : MailChange) → Mails a b (written k n c ∷ []) → j ≢ k → b.mail j m ≡ a.mail j m }
    ensures none { (a b : DeskView) (k n : ℕ) → Mails a b [] → b.mail k n ≡ a.mail k n }
{}
