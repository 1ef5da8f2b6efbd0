//! How a session is taken out of the route row and routed again, and who takes over a user's orphans.
ghost use Rattle.std.specs.Prelude.{◌≡◌, ◌++◌, [], ◌∷◌, Some, None, take};
ghost use Rattle.push_model.specs.Pins.{id_of, key_one, key_two, one_held, one_renewed, user_one};
ghost use Rattle.model_pins.specs.Worked.{begins, counts_after, first_flight, first_saver, key_at, one_orphan, op_two, replies_after, then_nobody_told, then_unrouted};

use push_model::{Reply, Stage, Step};

/// Orphan marks go where the session that the route row names is attached, told or renewed. They stay where another session
/// is, and where nobody is told.
pub fn routed_sessions_take_orphans()
    ensures marked { (counts_after one_orphan).orphans ≡ 1 }
    ensures told { (counts_after (one_orphan ++ Step.Notif 5 user_one ∷ [])).orphans ≡ 0 }
    ensures nobody_told { (counts_after (one_orphan ++ Step.Notif 7 user_one ∷ [])).orphans ≡ 1 }
    ensures other_told { (counts_after (one_orphan ++ Step.Claim (key_at 1 10) ∷ Step.Notif 5 user_one ∷ [])).orphans ≡ 1 }
    ensures other_attached { (counts_after (one_orphan ++ Step.Claim (key_at 1 10) ∷ Step.Claim (key_at 2 11) ∷ Step.Attach (key_at 1 10) ∷ [])).orphans ≡ 1 }
    ensures attached { (counts_after (one_orphan ++ Step.Claim (key_at 1 10) ∷ Step.Claim (key_at 2 11) ∷ Step.Attach (key_at 2 11) ∷ [])).orphans ≡ 0 }
    ensures unrouted { (counts_after (one_orphan ++ then_unrouted)).orphans ≡ 1 }
    ensures renewed { (counts_after (one_orphan ++ then_unrouted ++ Step.Renew key_two ∷ [])).orphans ≡ 0 }
    ensures dropped { (counts_after (one_orphan ++ Step.DropUser user_one ∷ [])).orphans ≡ 0 }
{}

/// Only the session of the route row's own moment is renewed, and only where the route row has lost its node.
pub fn routes_are_renewed_by_their_own()
    ensures own { replies_after (one_orphan ++ then_unrouted) (Step.Renew key_two ∷ begins op_two ∷ []) ≡ Reply.Renewed ∷ Reply.Begun (id_of 3) (Some (5, 9)) ∷ [] }
    ensures other { replies_after (one_orphan ++ Step.Claim (key_at 1 10) ∷ then_unrouted) (Step.Renew key_two ∷ begins op_two ∷ []) ≡ Reply.Kept ∷ Reply.Begun (id_of 3) None ∷ [] }
    ensures routed { replies_after one_orphan (Step.Renew key_two ∷ []) ≡ Reply.Kept ∷ [] }
{}

/// The session that a flight or a saver couldn't tell leaves the route row, and then the flight or the saver is no more. A
/// session that was routed since stays.
pub fn lost_sessions_leave_the_route()
    ensures flight { replies_after (take 13 one_renewed) (Step.Lost first_flight ∷ begins op_two ∷ []) ≡ Reply.NoFlight ∷ Reply.Begun (id_of 2) None ∷ [] }
    ensures beside_newer { replies_after (take 12 one_renewed) (Step.Claim key_two ∷ Step.Clear first_flight ∷ begins op_two ∷ []) ≡ Reply.Claimed (Some 3) ∷ Reply.End 201 ∷ Reply.Begun (id_of 2) (Some (5, 9)) ∷ [] }
    ensures nobody_told { replies_after (one_held ++ Step.Close key_one ∷ []) then_nobody_told ≡ Reply.Saved (id_of 1) ∷ Reply.AllSaved ∷ Reply.Names 3 4 ∷ Reply.NotHere ∷ [] }
    ensures saver { replies_after (one_held ++ Step.Close key_one ∷ then_nobody_told) (Step.Heard first_saver ∷ Step.Clear first_saver ∷ Step.Clear first_saver ∷ begins op_two ∷ []) ≡ Reply.Moved (Stage.Clear 3 4) ∷ Reply.End 200 ∷ Reply.NoSession ∷ Reply.Begun (id_of 2) None ∷ [] }
    ensures saver_beside_newer { replies_after (one_held ++ Step.Close key_one ∷ then_nobody_told) (Step.Heard first_saver ∷ Step.Claim key_two ∷ Step.Clear first_saver ∷ begins op_two ∷ []) ≡ Reply.Moved (Stage.Clear 3 4) ∷ Reply.Claimed (Some 3) ∷ Reply.End 200 ∷ Reply.Begun (id_of 2) (Some (5, 9)) ∷ [] }
    ensures released { replies_after (one_held ++ Step.Close key_one ∷ []) (Step.Release key_one ∷ Step.Release key_one ∷ begins op_two ∷ []) ≡ Reply.Cleared ∷ Reply.Kept ∷ Reply.Begun (id_of 2) None ∷ [] }
{}
