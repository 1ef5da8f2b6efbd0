//! Where a message is given or stored, and what an acknowledgement takes.
ghost use Rattle.std.specs.Prelude.{◌≡◌, ◌++◌, [], ◌∷◌, None, take};
ghost use Rattle.push_model.specs.FlightSteps.{direct};
ghost use Rattle.push_model.specs.SaverSteps.{save};
ghost use Rattle.push_model.specs.Pins.{ask_for, channel_two, holds, id_of, key_one, key_saver, one_given, one_stored, op_one, plain, row_of, saves, to_save, token_one, token_two, user_one};
ghost use Rattle.model_pins.specs.Worked.{begins, counts_after, first_flight, replies_after, to_give};

use push_model::{AckedFrom, Reply, Stage, Step};

/// A message is acknowledged once, and not after its channel was unregistered; it is taken once.
pub fn acknowledged_messages_are_unknown()
    ensures shown { replies_after (take 7 one_given) (Step.Ack key_one channel_two (id_of 1) ∷ Step.Ack key_one channel_two (id_of 1) ∷ []) ≡ Reply.Acked AckedFrom.Direct ∷ Reply.Unknown ∷ [] }
    ensures sent { replies_after (take 15 one_stored) (Step.Ack key_one channel_two (id_of 1) ∷ Step.Ack key_one channel_two (id_of 1) ∷ []) ≡ Reply.Acked AckedFrom.Stored ∷ Reply.Unknown ∷ [] }
    ensures unregistered { replies_after (take 15 one_stored) (Step.Unregister key_one channel_two ∷ Step.Ack key_one channel_two (id_of 1) ∷ []) ≡ Reply.Done ∷ Reply.Unknown ∷ [] }
    ensures rows { ((counts_after (take 15 one_stored)).stored ≡ 1) × ((counts_after one_stored).stored ≡ 0) }
    ensures rows_of_channel { (counts_after (take 15 one_stored ++ Step.Unregister key_one channel_two ∷ [])).stored ≡ 0 }
    ensures taken { replies_after (take 7 one_given) (Step.TakeDirect key_one ∷ []) ≡ Reply.Page [] ∷ [] }
{}

/// A message is given to the session where the session has room, the channel has the token still, and the message isn't
/// expired. Else the flight goes on to store it.
pub fn messages_are_given_where_they_can_be()
    ensures given { replies_after (take 4 one_given) (Step.Tick 49 ∷ Step.Direct op_one ∷ Step.Heard first_flight ∷ []) ≡ Reply.Done ∷ Reply.Here user_one ∷ Reply.End 201 ∷ [] }
    ensures expired { replies_after (take 4 one_given) (Step.Tick 50 ∷ Step.Direct op_one ∷ Step.Heard first_flight ∷ []) ≡ Reply.Done ∷ Reply.NotHere ∷ Reply.Moved Stage.Store ∷ [] }
    ensures no_channel { replies_after (take 4 one_given) (Step.Unregister key_one channel_two ∷ Step.Direct op_one ∷ Step.Heard first_flight ∷ []) ≡ Reply.Done ∷ Reply.NotHere ∷ Reply.Moved Stage.Store ∷ [] }
    ensures other_token { replies_after (take 4 one_given) (Step.Unregister key_one channel_two ∷ Step.Register key_one channel_two token_two ∷ Step.Direct op_one ∷ []) ≡ Reply.Done ∷ Reply.Endpoint token_two ∷ Reply.NotHere ∷ [] }
    ensures last_place { (direct 149 op_one (to_give (holds 300 199))).reply ≡ Reply.Here user_one }
    ensures no_place { (direct 149 op_one (to_give (holds 300 200))).reply ≡ Reply.NotHere }
{}

/// A message is stored where its channel has the token still and it isn't expired. One that begins without a route is
/// stored at once, and with ttl 0 is no flight.
pub fn messages_are_stored_where_they_can_be()
    ensures timely { replies_after (take 8 one_stored) (Step.Tick 49 ∷ Step.Store op_one ∷ []) ≡ Reply.Done ∷ Reply.Stored ∷ [] }
    ensures expired { replies_after (take 8 one_stored) (Step.Tick 50 ∷ Step.Store op_one ∷ []) ≡ Reply.Done ∷ Reply.End 201 ∷ [] }
    ensures no_channel { replies_after (take 8 one_stored) (Step.Unregister key_one channel_two ∷ Step.Store op_one ∷ []) ≡ Reply.Done ∷ Reply.End 410 ∷ [] }
    ensures other_token { replies_after (take 8 one_stored) (Step.Unregister key_one channel_two ∷ Step.Register key_one channel_two token_two ∷ Step.Store op_one ∷ []) ≡ Reply.Done ∷ Reply.Endpoint token_two ∷ Reply.End 410 ∷ [] }
    ensures unrouted { replies_after (take 3 one_given) (Step.Close key_one ∷ Step.Release key_one ∷ begins op_one ∷ Step.Store op_one ∷ Step.Reread first_flight ∷ []) ≡ Reply.Saving 0 ∷ Reply.Cleared ∷ Reply.Begun (id_of 1) None ∷ Reply.Stored ∷ Reply.End 201 ∷ [] }
    ensures unkept { replies_after (take 3 one_given) (Step.Close key_one ∷ Step.Release key_one ∷ Step.Begin op_one token_one (ask_for 0 None) ∷ Step.Store op_one ∷ []) ≡ Reply.Saving 0 ∷ Reply.Cleared ∷ Reply.Begun (id_of 1) None ∷ Reply.NoFlight ∷ [] }
{}

/// A message that is a row already stays that row, and is told of all the same: by the flight that stores it, and by the
/// saver that saves it.
pub fn known_rows_stay()
    ensures stored { replies_after (take 5 one_given) (Step.Close key_one ∷ Step.SaveOne key_one ∷ Step.Lost first_flight ∷ Step.Store op_one ∷ Step.Reread first_flight ∷ []) ≡ Reply.Saving 1 ∷ Reply.Saved (id_of 1) ∷ Reply.Moved Stage.Store ∷ Reply.Stored ∷ Reply.Names 3 4 ∷ [] }
    ensures once { (counts_after (take 5 one_given ++ Step.Close key_one ∷ Step.SaveOne key_one ∷ Step.Lost first_flight ∷ Step.Store op_one ∷ [])).stored ≡ 1 }
    ensures saved { (save 149 key_saver (to_save (plain 5) (row_of (plain 5) ∷ []))).cell.savers ≡ saves 5 Stage.Saving }
{}
