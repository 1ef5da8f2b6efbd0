//! What follows from a loop's rounds.
ghost use Rattle.std.specs.Prelude.{◌≡◌, ◌≤◌, ℕ, Option, Some, None, bit_or, length, true, false};
ghost use Rattle.push_model.specs.MailWords.{bit_of};
ghost use Rattle.push_model.specs.SessionKey.{SessionKey};
ghost use Rattle.session_drive.specs.Shards.{shard_of};
ghost use Rattle.session_drive.specs.declared.ends.SessionEnd.{SessionEnd};
ghost use Rattle.session_front.specs.declared.live.Place.{Place};
ghost use Rattle.session_front.specs.declared.live.Pumped.TheVariants.{Done};
ghost use Rattle.node_sessions.specs.Seats.{is_named};
ghost use Rattle.node_sessions.specs.Pumps.{SeatPumped, Served};
ghost use Rattle.node_sessions.specs.Loops.{RoundsMade};

/// A post names its user: where the bits of the user's shard were taken, its bit among them, each session of the user is named, and
/// so is due. Where no bit was taken none is.
pub fn posts_name_users()
    ensures named { (size bits : ℕ) (s : SessionKey) → is_named size (shard_of s.uaid size) (bit_or bits (bit_of s.uaid)) (Some s) ≡ true }
    ensures quiet { (size k : ℕ) (s : Option SessionKey) → is_named size k 0 s ≡ false }
{}

/// A session that leaves its place in a round isn't attached any more.
pub fn sessions_leave_detached()
    ensures { (place : Place) (moment : Option ℕ) (i : ℕ) (end : SessionEnd) (x y : Served) → (pump : SeatPumped place moment i (Done end) x y) → pump.next.live.s ≡ None }
{}

/// Rounds that begin with at most 256 sessions end with at most 256.
pub fn rounds_keep_256_sessions()
    ensures { (place : Place) (moment : Option ℕ) (n given after : ℕ) (x y : Served) → length x.seats ≤ 256 → RoundsMade place moment n given after x y → length y.seats ≤ 256 }
{}
