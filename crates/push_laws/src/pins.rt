//! Small laws that hold the definitions of the headline and of soundness fast: what each part of them refuses.
ghost use Rattle.std.specs.Prelude.{◌≡◌, ◌≢◌, ◌<◌, ◌≤◌, ℕ, true, false, List, [], ◌∷◌, Some, None, length};
ghost use Rattle.push_model.specs.declared.step.Stage.TheVariants.{Store, Clear, Reread, Nudge, ToldNudge, Told, Saving};
ghost use Rattle.push_model.specs.MessageValue.{MessageValue};
ghost use Rattle.push_model.specs.Pins.{plain, row_of, topical, message_of};
ghost use Rattle.push_model.specs.Pools.{Pool, Taken, after_all, taken_at};
ghost use Rattle.push_model.specs.Sessions.{Session, held};
ghost use Rattle.push_model.specs.Cells.{Saver};
ghost use Rattle.push_model.specs.Worlds.{World};
ghost use Rattle.push_model.specs.declared.entry.Entry.{Entry};
ghost use Rattle.push_model.specs.declared.reply.Reply.{Reply};
ghost use Rattle.push_model.specs.declared.reply.Reply.TheVariants.{Page};
ghost use Rattle.push_model.specs.declared.step.Step.{Step};
ghost use Rattle.push_model.specs.Histories.{entry};
ghost use Rattle.push_model.specs.Images.{image};
ghost use Rattle.push_laws.specs.Headline.{AllAccepted, IsAccepted, IsPromised, Promised, pool_after};
ghost use Rattle.push_laws.specs.Sound.{IsSound, IsSoundCell, is_storable, lasts};
ghost use Rattle.push_laws.specs.Pins.{actors_with, claim_at, flight_of, flights_with, one_channel, rows_with, saver_at, session_at, world_of};

/// The promise of an answer 201 isn't kept by a message that is nowhere and hasn't left; and only a message that equals the
/// one taken under its number is the accepted one.
pub fn headlines_refuse()
    ensures promised { (w : World) (n : ℕ) (t : Taken) → t.answer ≡ Some 201 → t.message.ask.terms.ttl ≡ 1 → t.left ≡ None → w.cells ≡ [] → ¬ IsPromised w n t }
    ensures accepted { (p : Pool) (m : MessageValue) (t : Taken) → IsAccepted p m → taken_at m.id.number p ≡ Some t → t.message ≡ m }
    ensures shown { (by : ℕ) (w : World) (p : Pool) (x : Step) (m : MessageValue) → AllAccepted p w (entry by x (Page (m ∷ [])) ∷ []) → IsAccepted p m }
    ensures pooled { (p : Pool) (w : World) (e : Entry Step Reply) → pool_after p w (e ∷ []) ≡ after_all (image p w e) p }
    ensures of_taken { (w : World) (n : ℕ) (t : Taken) → Promised w n (Some t) → IsPromised w n t }
    ensures untaken { (p : Pool) (m : MessageValue) → taken_at m.id.number p ≡ None → ¬ IsAccepted p m }
{}

/// No sound cell has two rows of one id, or of one channel and topic, or a row that is due, has no ttl or no channel.
pub fn unsound_rows_are_refused()
    ensures due { ¬ IsSoundCell 150 (rows_with one_channel (row_of (plain 5) ∷ [])) }
    ensures timely { lasts 149 (plain 5) ≡ true }
    ensures no_ttl { ¬ IsSoundCell 100 (rows_with one_channel (row_of (message_of 5 0 None) ∷ [])) }
    ensures twice { ¬ IsSoundCell 100 (rows_with one_channel (row_of (plain 5) ∷ row_of (plain 5) ∷ [])) }
    ensures one_topic { ¬ IsSoundCell 100 (rows_with one_channel (row_of (topical 5) ∷ row_of (topical 6) ∷ [])) }
    ensures no_channel { ¬ IsSoundCell 100 (rows_with [] (row_of (plain 5) ∷ [])) }
{}

/// No claim, session or saver of a sound cell is newer than the route row, and no two are of one node and moment. A session
/// or saver holds 500 messages at most, and a saver that is past saving none. A flight at Store or later has a ttl.
pub fn unsound_actors_are_refused()
    ensures late_claim { ¬ IsSoundCell 100 (actors_with (claim_at 3 8 ∷ []) [] []) }
    ensures late_session { ¬ IsSoundCell 100 (actors_with [] (session_at 3 8 [] ∷ []) []) }
    ensures late_saver { ¬ IsSoundCell 100 (actors_with [] [] (saver_at 3 8 Saving [] ∷ [])) }
    ensures claim_and_session { ¬ IsSoundCell 100 (actors_with (claim_at 3 7 ∷ []) (session_at 3 7 [] ∷ []) []) }
    ensures session_and_saver { ¬ IsSoundCell 100 (actors_with [] (session_at 3 7 [] ∷ []) (saver_at 3 7 Saving [] ∷ [])) }
    ensures two_attached { ¬ IsSoundCell 100 (actors_with [] (session_at 3 7 [] ∷ session_at 3 6 [] ∷ []) []) }
    ensures full_session { (ms : List MessageValue) → length ms ≡ 501 → ¬ IsSoundCell 100 (actors_with [] (session_at 3 7 ms ∷ []) []) }
    ensures full_saver { (ms : List MessageValue) → length ms ≡ 501 → ¬ IsSoundCell 100 (actors_with [] [] (saver_at 3 7 Saving ms ∷ [])) }
    ensures past_saving { ¬ IsSoundCell 100 (actors_with [] [] (saver_at 3 7 Reread (plain 5 ∷ []) ∷ [])) }
    ensures stored { ¬ IsSoundCell 100 (flights_with (flight_of 1 5 Store 0 ∷ [])) }
    ensures told { is_storable (flight_of 1 5 (Told true) 0) ≡ true }
    ensures late_stages { (is_storable (flight_of 1 5 Reread 0) ≡ false) × (is_storable (flight_of 1 5 (Nudge 3 7) 0) ≡ false) × (is_storable (flight_of 1 5 (ToldNudge true 3 7) 0) ≡ false) × (is_storable (flight_of 1 5 (Clear 3 7) 0) ≡ false) }
{}

/// No two channels of a sound world have one token, no two flights one name or one message; each cell stands under its
/// uaid, each message in it is that user's, and its number is below the next.
pub fn unsound_worlds_are_refused()
    ensures tokens { ¬ IsSound (world_of ((1, rows_with one_channel []) ∷ (2, rows_with one_channel []) ∷ [])) }
    ensures names { ¬ IsSound (world_of ((1, flights_with (flight_of 1 5 Store 50 ∷ flight_of 1 6 Store 50 ∷ [])) ∷ [])) }
    ensures messages { ¬ IsSound (world_of ((1, flights_with (flight_of 1 5 Store 50 ∷ flight_of 2 5 Store 50 ∷ [])) ∷ [])) }
    ensures key { ¬ IsSound (world_of ((2, rows_with [] []) ∷ [])) }
    ensures number { ¬ IsSound (world_of ((1, flights_with (flight_of 1 9 Store 50 ∷ [])) ∷ [])) }
    ensures rows { ¬ IsSound (world_of ((1, rows_with [] (row_of (plain 5) ∷ [])) ∷ [])) }
{}
