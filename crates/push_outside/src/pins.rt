//! Small laws of the definitions, each for a reader to check at a glance.
ghost use Rattle.std.specs.Prelude.{◌≡◌, ℕ, ◌<◌, ◌≤◌, List, [], ◌∷◌, Some, length};
ghost use Rattle.push_outside.specs.Chats.{told_before, told_more};
ghost use Rattle.push_outside.specs.ChatForms.{heard_of, item_taken};
ghost use Rattle.push_outside.specs.Draws.{counted};
ghost use Rattle.push_outside.specs.declared.chat.Item.TheVariants.{Text as TextItem, TooLong as LongItem};
ghost use Rattle.push_outside.specs.declared.chat.Heard.TheVariants.{Text, TooLong};

/// A text of 16,384 bytes is heard, and one of 16,385 is too long.
pub fn texts_have_a_limit()
    ensures heard { (t : List ℕ) → length t ≤ 16384 → heard_of (TextItem t) ≡ Text t }
    ensures taken { (t : List ℕ) → length t ≤ 16384 → item_taken (TextItem t) ≡ TextItem t }
    ensures too_long { (t : List ℕ) → 16384 < length t → heard_of (TextItem t) ≡ TooLong }
    ensures long_taken { (t : List ℕ) → 16384 < length t → item_taken (TextItem t) ≡ LongItem }
{}

/// What a chat tells grows at its end, and loses its front.
pub fn chats_are_told_in_order()
    ensures more { told_more {A = ℕ} (Some (1 ∷ 2 ∷ [])) (3 ∷ []) ≡ Some (1 ∷ 2 ∷ 3 ∷ []) }
    ensures before { told_before {A = ℕ} 1 (Some (2 ∷ 3 ∷ [])) ≡ Some (1 ∷ 2 ∷ 3 ∷ []) }
{}

/// Bytes that count up from 254 go round.
pub fn counted_bytes_go_round()
    ensures { counted 254 4 ≡ 254 ∷ 255 ∷ 0 ∷ 1 ∷ [] }
{}
