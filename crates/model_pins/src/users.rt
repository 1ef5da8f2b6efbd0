//! What is left of a dropped user, and of a closed session.
ghost use Rattle.std.specs.Prelude.{◌≡◌, ◌++◌, true, [], ◌∷◌, Some, take};
ghost use Rattle.push_model.specs.Pins.{begun_message, key_one, key_three, key_two, message_after, one_given, one_held, untouched, user_one};
ghost use Rattle.push_model.specs.Pools.{UserGone};
ghost use Rattle.model_pins.specs.Worked.{counts_after, held_and_flown, op_two, replies_after, second_flight, second_message};

use push_model::{Reply, Stage, Step};

/// With a user its claims, sessions and savers go, also where a flight has its cell stay, and what the sessions and savers
/// held leaves for that. Its flights stay: their messages are refused when they are to be stored.
pub fn dropped_users_are_gone()
    ensures sessions { replies_after held_and_flown (Step.DropUser user_one ∷ Step.TakeDirect key_one ∷ Step.Close key_one ∷ []) ≡ Reply.Dropped ∷ Reply.NoSession ∷ Reply.NoSession ∷ [] }
    ensures held { message_after (held_and_flown ++ Step.DropUser user_one ∷ []) ≡ record (untouched begun_message) { answer = Some 201; dropped = true; left = Some UserGone } ∷ record (untouched second_message) { dropped = true } ∷ [] }
    ensures savers { replies_after held_and_flown (Step.Close key_one ∷ Step.DropUser user_one ∷ Step.SaveOne key_one ∷ []) ≡ Reply.Saving 1 ∷ Reply.Dropped ∷ Reply.NoSession ∷ [] }
    ensures held_by_saver { message_after (held_and_flown ++ Step.Close key_one ∷ Step.DropUser user_one ∷ []) ≡ record (untouched begun_message) { answer = Some 201; dropped = true; left = Some UserGone } ∷ record (untouched second_message) { dropped = true } ∷ [] }
    ensures claims { replies_after held_and_flown (Step.Claim key_two ∷ Step.DropUser user_one ∷ Step.Create key_three ∷ Step.Attach key_two ∷ []) ≡ Reply.Claimed (Some 3) ∷ Reply.Dropped ∷ Reply.Made ∷ Reply.NotClaimed ∷ [] }
    ensures flights { replies_after held_and_flown (Step.DropUser user_one ∷ Step.Lost second_flight ∷ Step.Store op_two ∷ []) ≡ Reply.Dropped ∷ Reply.Moved Stage.Store ∷ Reply.End 410 ∷ [] }
    ensures refused { message_after (held_and_flown ++ Step.DropUser user_one ∷ Step.Lost second_flight ∷ Step.Store op_two ∷ []) ≡ record (untouched begun_message) { answer = Some 201; dropped = true; left = Some UserGone } ∷ record (untouched second_message) { dropped = true; answer = Some 410; left = Some UserGone } ∷ [] }
    ensures expired { replies_after (held_and_flown ++ Step.Kill 3 ∷ Step.Tick 5184000 ∷ []) (Step.Expire user_one ∷ Step.Lost second_flight ∷ Step.Store op_two ∷ []) ≡ Reply.Dropped ∷ Reply.Moved Stage.Store ∷ Reply.End 410 ∷ [] }
{}

/// A session that is closed is attached no more, and its saver stands in its place. What it held is held by the saver, once.
/// The user was touched then: it is idle 5,184,000 seconds later, and not before.
pub fn closed_sessions_are_gone()
    ensures replies { replies_after one_held (Step.Close key_one ∷ Step.TakeDirect key_one ∷ Step.Close key_one ∷ []) ≡ Reply.Saving 1 ∷ Reply.NoSession ∷ Reply.Stage Stage.Saving ∷ [] }
    ensures held { (counts_after (one_held ++ Step.Close key_one ∷ [])).held ≡ 1 }
    ensures touched { replies_after (take 2 one_given) (Step.Tick 100 ∷ Step.Close key_one ∷ Step.Tick 5184099 ∷ Step.ListIdle ∷ Step.Tick 5184100 ∷ Step.ListIdle ∷ []) ≡ Reply.Done ∷ Reply.Saving 0 ∷ Reply.Done ∷ Reply.Users [] ∷ Reply.Done ∷ Reply.Users ((user_one, Some 3, 4) ∷ []) ∷ [] }
{}
