//! Small laws of the definitions that contracts cite, each for a reader to check at a glance.
ghost use Rattle.std.specs.Prelude.{◌≡◌, ℕ, ◌<◌, ◌++◌, true, false, List, [], ◌∷◌, length, take, Some};
ghost use Rattle.push_model.specs.declared.mail.MailChange.TheVariants.{Post, Taken};
ghost use Rattle.push_model.specs.declared.mail.MailChange.{MailChange};
ghost use Rattle.push_model.specs.declared.mail.MailEntry.{MailEntry};
ghost use Rattle.push_model.specs.DeskViews.{mail_by};
ghost use Rattle.push_model.specs.MailWords.{mail_entry};
ghost use Rattle.push_model.specs.Histories.{AllProper, IsLegal, entry, world_after};
ghost use Rattle.turn_board.specs.Numbers.{has, own_by, GrewByOthers, longer};
ghost use Rattle.turn_board.specs.Views.{own_of, mail_at, longer_each};
ghost use Rattle.turn_board.specs.Passes.{HasPart, IsAlone, IsEnd, IsLegalPass, IsSamePass, IsUnmoved, SlotEndsWith, pass_counted, pass_first, pass_mail, pass_number, pass_numbers, pass_own, pass_seen};

use crate::object::Object;
use crate::pass::Pass;

/// What some numbers sign is what is their own.
pub fn own_is_what_was_signed()
    ensures among { (has (3 ∷ 5 ∷ []) 5 ≡ true) × (has (3 ∷ 5 ∷ []) 4 ≡ false) }
    ensures one { own_of {S = ℕ} {R = ℕ} (2 ∷ []) (entry 1 10 20 ∷ entry 2 11 21 ∷ entry 1 12 22 ∷ []) ≡ entry 2 11 21 ∷ [] }
    ensures both { own_of {S = ℕ} {R = ℕ} (2 ∷ 1 ∷ []) (entry 1 10 20 ∷ entry 2 11 21 ∷ entry 3 12 22 ∷ []) ≡ entry 1 10 20 ∷ entry 2 11 21 ∷ [] }
{}

/// A list that grew by others begins with what it was, and has no more of these numbers' items.
pub fn others_add_nothing_own()
    ensures front { (ns xs ys : List ℕ) → GrewByOthers (λ n. n) ns xs ys → take (length xs) ys ≡ xs }
    ensures own { (ns xs ys : List ℕ) → GrewByOthers (λ n. n) ns xs ys → own_by (λ n. n) ns ys ≡ own_by (λ n. n) ns xs }
{}

/// Of two lists the longer stays, the first where neither is, and so at each place of two rows of lists.
pub fn the_longer_list_stays()
    ensures second { longer {A = ℕ} (1 ∷ []) (1 ∷ 2 ∷ []) ≡ 1 ∷ 2 ∷ [] }
    ensures first { (longer {A = ℕ} (1 ∷ 2 ∷ []) (1 ∷ []) ≡ 1 ∷ 2 ∷ []) × (longer {A = ℕ} (1 ∷ []) (2 ∷ []) ≡ 1 ∷ []) }
    ensures each { longer_each {A = ℕ} ((1 ∷ 2 ∷ []) ∷ [] ∷ []) ((1 ∷ []) ∷ (3 ∷ []) ∷ (4 ∷ []) ∷ []) ≡ (1 ∷ 2 ∷ []) ∷ (3 ∷ []) ∷ (4 ∷ []) ∷ [] }
{}

/// The mail of a slot is the list at its place, and none where there is no list.
pub fn slots_have_their_mail()
    ensures there { mail_at ((mail_entry 1 (Post 4) ∷ []) ∷ (mail_entry 2 (Post 8) ∷ []) ∷ []) 1 ≡ mail_entry 2 (Post 8) ∷ [] }
    ensures beyond { mail_at ((mail_entry 1 (Post 4) ∷ []) ∷ []) 1 ≡ [] }
{}

/// A change of a slot's mail adds one entry to those of the numbers that sign it. What is taken are the bits that are out.
pub fn one_change_is_added()
    ensures own { (slot number : ℕ) (c : MailChange) (numbers : List ℕ) (old new : List (List MailEntry)) → has numbers number ≡ true → SlotEndsWith slot c number numbers old new → own_by mail_by numbers (mail_at new slot) ≡ own_by mail_by numbers (mail_at old slot) ++ mail_entry number c ∷ [] }
    ensures others { (slot number k : ℕ) (c : MailChange) (numbers : List ℕ) (old new : List (List MailEntry)) → ¬ (k ≡ slot) → SlotEndsWith slot c number numbers old new → mail_at new k ≡ mail_at old k }
    ensures not_quiet { ¬ SlotEndsWith 0 (Taken 0) 1 (1 ∷ []) ((mail_entry 1 (Post 4) ∷ []) ∷ []) ((mail_entry 1 (Post 4) ∷ mail_entry 1 (Taken 0) ∷ []) ∷ []) }
    ensures not_invented { ¬ SlotEndsWith 0 (Taken 4) 1 (1 ∷ []) [] ((mail_entry 1 (Taken 4) ∷ []) ∷ []) }
{}

/// A pass that is the same and has seen no more has the same entries of its own.
pub fn same_passes_stay<T: Object>(old: &Pass<T>, new: &Pass<T>)
    requires { IsSamePass old.now new.now × IsUnmoved old.now new.now }
    ensures { (pass_number new.now ≡ pass_number old.now) × (pass_own new.now ≡ pass_own old.now) × (pass_first new.now ≡ pass_first old.now) × (pass_mail new.now ≡ pass_mail old.now) }
{}

/// A pass into which a part was joined has the part's own entries, and no further ones of its numbers.
pub fn parts_keep_their_own<T: Object>(new: &Pass<T>, part: &Pass<T>)
    requires { HasPart new.now part.now }
    ensures own { own_of (pass_numbers part.now) (pass_seen new.now) ≡ pass_own part.now }
    ensures front { (more : _) × (pass_seen new.now ≡ pass_seen part.now ++ more) }
    ensures mail { (slot : ℕ) → own_by mail_by (pass_numbers part.now) (mail_at (pass_mail new.now) slot) ≡ own_by mail_by (pass_numbers part.now) (mail_at (pass_mail part.now) slot) }
{}

/// A pass that is alone counted as many numbers as it has, and had some.
pub fn alone_is_counted<T: Object>(pass: &Pass<T>)
    requires { IsAlone pass.now }
    ensures { (0 < pass_counted pass.now) × (pass_counted pass.now ≡ length (pass_numbers pass.now)) }
{}

/// What was seen at the end is a legal history of proper entries, and the object is where it leads.
pub fn ends_tell_the_history<T: Object>(pass: &Pass<T>, object: &T)
    requires { IsEnd T.run T.proper pass.now object.now }
    ensures legal { IsLegalPass T.run T.proper pass.now }
    ensures each_proper { AllProper T.proper (pass_seen pass.now) }
    ensures seen { (w : _) → pass_first pass.now ≡ Some w → IsLegal T.run w (pass_seen pass.now) × (object.now ≡ world_after T.run w (pass_seen pass.now)) }
{}
