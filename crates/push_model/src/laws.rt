//! Laws of the definitions.
ghost use Rattle.std.specs.Prelude.{◌≡◌, ◌≢◌, ℕ, Bool, List, [], ◌++◌, true, false, Some, None};
ghost use Rattle.std.specs.List.{list_any};
ghost use Rattle.push_model.specs.declared.ids.Op.{Op};
ghost use Rattle.push_model.specs.declared.ids.Token.{Token};
ghost use Rattle.push_model.specs.declared.entry.Entry.{Entry};
ghost use Rattle.push_model.specs.declared.parts.FlightRow.{FlightRow};
ghost use Rattle.push_model.specs.declared.step.Stage.{Stage};
ghost use Rattle.push_model.specs.declared.step.Step.{Step};
ghost use Rattle.push_model.specs.declared.step.Step.TheVariants.{Begin, Kill};
ghost use Rattle.push_model.specs.declared.reply.Reply.{Reply};
ghost use Rattle.push_model.specs.declared.reply.Reply.TheVariants.{Stage as IsAtStage};
ghost use Rattle.push_model.specs.Histories.{IsLegal, AllProper, world_after, entry};
ghost use Rattle.push_model.specs.Worlds.{World, start};
ghost use Rattle.push_model.specs.Steps.{proper, step};
ghost use Rattle.push_model.specs.Accounting.{IsAccounted};
ghost use Rattle.push_model.specs.Pools.{Pool, Lost, IsAt, taken_at, reason};
ghost use Rattle.push_model.specs.Images.{image};
ghost use Rattle.push_model.specs.Caring.{is_cared, none_waited};
ghost use Rattle.push_model.specs.Kills.{outlives, is_leave_of};
ghost use Rattle.push_model.specs.Replies.{is_refusal, replies_to};
ghost use Rattle.push_model.specs.AskValue.{AskValue};
ghost use Rattle.push_model.specs.Advances.{at_stage};
ghost use Rattle.push_model.specs.OwnSteps.{IsDue, IsToldAgain, IsBegun, stage_after};
ghost use Rattle.push_model.specs.Frames.{Turned, TurnedBy, IsLeft, NoneBy, NoneOf, NoBegin, is_own, is_begin_of, flight_at};
ghost use Rattle.push_model.specs.Reached.{IsReached};
ghost use Rattle.push_model.specs.DeskViews.{DeskView, Made, Written, Calls, Mails, EndsWith, IsHonest, IsSameDesk, NoneOwn, entry_by, own_entries, world_at};
ghost use Rattle.push_model.specs.Routes.{GoesOn};

/// In a legal history that begins with an empty shard each message is accounted for. It is shown and acknowledged, and
/// its sender is answered, only as the guards of the pool allow. It leaves for a reason that the history shows. And after
/// the last entry the messages that were taken and haven't left are exactly those that have a copy.
pub fn legal_histories_are_accounted()
    ensures { (shard next : ℕ) (entries : List (Entry Step Reply)) → IsLegal step (start shard next) entries → IsAccounted (start shard next) entries }
{}

/// In a legal history that begins with an empty shard no nudge is lost: after it, and so after each of its entries, each
/// row that a routed session wasn't sent is covered, and each report counts no row that waits.
pub fn legal_histories_are_cared()
    ensures cared { (shard next : ℕ) (entries : List (Entry Step Reply)) → IsLegal step (start shard next) entries → is_cared (world_after step (start shard next) entries) ≡ true }
    ensures reported { (shard next : ℕ) (entries : List (Entry Step Reply)) → IsLegal step (start shard next) entries → none_waited entries ≡ true }
{}

/// A kill makes no message leave that is a row, is held by a session or a saver at another node, or belongs to a flight.
/// What leaves as lost was never kept.
pub fn kills_spare_copies()
    ensures spared { (p : Pool) (w : World) (n by k : ℕ) (reply : Reply) → outlives n k w ≡ true → list_any (is_leave_of k) (image p w (entry by (Kill n) reply)) ≡ false }
    ensures lost { (p : Pool) (n : ℕ) → reason p n ≡ Some Lost → IsAt (taken_at n p) (λ t. t.kept ≡ false) }
{}

/// In every world each step replies as its kind can.
pub fn steps_reply_in_kind()
    ensures { (w : World) (x : Step) → replies_to x (step w x).1 ≡ true }
{}

/// A step that isn't one of a flight's own leaves the flight's message, token and stage as they are, and makes no flight
/// of that name; but Direct of that flight may turn the stage to Told, and its Nudge to ToldNudge of the same session. So
/// do any number of such steps, in every world. What is proper for a number that isn't the flight's pass is no such step.
pub fn others_leave_flights()
    ensures one { (op : Op) (w : World) (x : Step) → is_own op x ≡ false → IsLeft (TurnedBy op x) (flight_at op w) (flight_at op (step w x).0) }
    ensures foreign { (op : Op) (q : ℕ) (x : Step) → q ≢ op.pass → proper q x ≡ true → is_own op x ≡ false }
    ensures all { (op : Op) (w : World) (entries : List (Entry Step Reply)) → NoneOf op entries → IsLeft Turned (flight_at op w) (flight_at op (world_after step w entries)) }
    ensures others { (op : Op) (w : World) (entries : List (Entry Step Reply)) → AllProper proper entries → NoneBy op.pass entries → IsLeft Turned (flight_at op w) (flight_at op (world_after step w entries)) }
{}

/// A flight comes by its Begin alone: no other step makes one of that name, in any world, and no number of others does. A
/// Begin that is proper for a number that isn't the flight's pass is that of another flight.
pub fn flights_come_by_begin()
    ensures one { (op : Op) (w : World) (x : Step) → is_begin_of op x ≡ false → flight_at op w ≡ None → flight_at op (step w x).0 ≡ None }
    ensures foreign { (op : Op) (q : ℕ) (x : Step) → q ≢ op.pass → proper q x ≡ true → is_begin_of op x ≡ false }
    ensures all { (op : Op) (w : World) (entries : List (Entry Step Reply)) → NoBegin op entries → flight_at op w ≡ None → flight_at op (world_after step w entries) ≡ None }
{}

/// A world is reached where a legal history from an empty shard leads to it. A step that a flight makes at one of its stages
/// is not refused there, and the flight goes on at the stage that the reply says. A Direct or a Nudge that comes again is
/// told the flight's stage, and the flight stays. A Begin of a name that is in no use isn't refused as in use, and leaves
/// what its reply says.
pub fn due_steps_go_on()
    ensures answered { (w : World) (op : Op) (f : FlightRow) (x : Step) → IsReached w → flight_at op w ≡ Some f → IsDue op x f.stage → is_refusal (step w x).1 ≡ false }
    ensures onward { (w : World) (op : Op) (f : FlightRow) (x : Step) (s : Stage) → IsReached w → flight_at op w ≡ Some f → IsDue op x f.stage → stage_after (step w x).1 f.stage ≡ Some s → flight_at op (step w x).0 ≡ Some (at_stage s f) }
    ensures again { (w : World) (op : Op) (f : FlightRow) (x : Step) → IsReached w → flight_at op w ≡ Some f → IsToldAgain op x f.stage → ((step w x).1 ≡ IsAtStage f.stage) × (flight_at op (step w x).0 ≡ Some f) }
    ensures unused { (op : Op) (t : Token) (a : AskValue) (w : World) (s : Stage) → flight_at op w ≡ None → (step w (Begin op t a)).1 ≢ IsAtStage s }
    ensures begun { (w : World) (op : Op) (t : Token) (a : AskValue) → IsReached w → IsBegun op t a (step w (Begin op t a)).1 (flight_at op (step w (Begin op t a)).0) }
{}

/// An empty shard is reached, and so is each world that a legal history leads to from a reached one. In a reached world each
/// row that a routed session wasn't sent is covered, and no report of a legal history from there counts a row that waits.
pub fn reached_worlds_go_on()
    ensures started { (shard next : ℕ) → IsReached (start shard next) }
    ensures onward { (w : World) (entries : List (Entry Step Reply)) → IsReached w → IsLegal step w entries → IsReached (world_after step w entries) }
    ensures cared { (w : World) → IsReached w → is_cared w ≡ true }
    ensures reported { (w : World) (entries : List (Entry Step Reply)) → IsReached w → IsLegal step w entries → none_waited entries ≡ true }
{}

/// What calls of desks did, one after the other, adds up, and so does what they did to mail. Desks that were honest are so
/// after any calls, and what was seen leads to reached worlds. Where none of the own numbers signed, the number that signs didn't.
pub fn calls_add_up()
    ensures none { (a : DeskView) → Calls a a [] × Mails a a [] }
    ensures calls { (a b c : DeskView) (ms ns : List Made) → Calls a b ms → Calls b c ns → Calls a c (ms ++ ns) }
    ensures mails { (a b c : DeskView) (vs ws : List Written) → Mails a b vs → Mails b c ws → Mails a c (vs ++ ws) }
    ensures honest { (a b : DeskView) (ms : List Made) (ws : List Written) → Calls a b ms → Mails a b ws → IsHonest a → IsHonest b }
    ensures reached { (v : DeskView) (k : ℕ) → IsHonest v → IsReached (world_at v k) }
    ensures foreign { (p : ℕ → Bool) (n : ℕ) (entries : List (Entry Step Reply)) → p n ≡ true → NoneOwn entry_by p entries → NoneBy n entries }
{}

/// At honest desks, whoever else makes steps, a route goes on. A name that no opening world has and none of the own entries
/// began is in no use, and so it stays until its Begin. That Begin isn't refused as in use, and leaves what its reply says.
/// Each later entry of the flight's own pass, where its step is made at the stage that it met, isn't refused, and the flight
/// goes on as the reply says; others can only have told that its message was given, or its session nudged, which a Direct or
/// a Nudge of its own pass is told.
pub fn routes_go_on()
    ensures fresh { (v : DeskView) (k : ℕ) (op : Op) → IsHonest v → v.number k ≡ op.pass → flight_at op (v.opened k) ≡ None → NoBegin op (own_entries v k) → flight_at op (world_at v k) ≡ None }
    ensures waits { (a b : DeskView) (k : ℕ) (x : Step) (r : Reply) (op : Op) → IsHonest a → IsSameDesk a b → a.number k ≡ op.pass → EndsWith a b k x r → is_begin_of op x ≡ false → flight_at op (world_at a k) ≡ None → flight_at op (world_at b k) ≡ None }
    ensures begins { (a b : DeskView) (k : ℕ) (t : Token) (ask : AskValue) (r : Reply) (op : Op) → IsHonest a → IsSameDesk a b → a.number k ≡ op.pass → EndsWith a b k (Begin op t ask) r → flight_at op (world_at a k) ≡ None → ((s : Stage) → r ≢ IsAtStage s) × IsBegun op t ask r (flight_at op (world_at b k)) }
    ensures goes_on { (a b : DeskView) (k : ℕ) (x : Step) (r : Reply) (op : Op) (f : FlightRow) → IsHonest a → IsSameDesk a b → a.number k ≡ op.pass → EndsWith a b k x r → flight_at op (world_at a k) ≡ Some f → GoesOn op x r f (world_at b k) }
{}
