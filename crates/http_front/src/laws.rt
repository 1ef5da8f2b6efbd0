//! Laws of requests that were read, and of their answers.
ghost use Rattle.std.specs.Prelude.{◌≡◌, ◌⊎◌, ◌≤◌, ◌<◌, ℕ, true, List, [], ◌∷◌, ◌++◌, Option, None, Result, length, false};
ghost use Rattle.http_wire.specs.declared.request.Request.{Request};
ghost use Rattle.http_wire.specs.Requests.{IsRequest};
ghost use Rattle.push_model.specs.declared.ids.Op.{Op};
ghost use Rattle.push_model.specs.declared.ids.Token.{Token};
ghost use Rattle.push_model.specs.Frames.{NoBegin, flight_at};
ghost use Rattle.push_model.specs.Worlds.{start};
ghost use Rattle.push_model.specs.Histories.{world_after};
ghost use Rattle.push_model.specs.Steps.{step};
ghost use Rattle.push_model.specs.DeskViews.{Calls, DeskView, IsHonest, Made, entries_at, own_entries, world_at};
ghost use Rattle.http_front.specs.Begins.{BeginsOnce};
ghost use Rattle.std.specs.List.{list_any};
ghost use Rattle.push_model.specs.declared.entry.NoMemory.{NoMemory};
ghost use Rattle.endpoint_router.specs.declared.answer.Answer.{Answer};
ghost use Rattle.endpoint_router.specs.Causes.{says_full, says_gone, says_spent, says_taken};
ghost use Rattle.http_front.specs.declared.outcome.Outcome.TheVariants.{Routed};
ghost use Rattle.endpoint_router.specs.Shards.{shard_of};
ghost use Rattle.http_front.specs.Admissions.{Admits, GrewAlone, IsAlone, IsTo};
ghost use Rattle.http_front.specs.Cuts.{Cut};
ghost use Rattle.http_front.specs.Served.{AreAnswered, EndCausedBy, Scene, Served, entries_of};
ghost use Rattle.http_front.specs.Writings.{AreWritten, WantsMemory};
ghost use Rattle.push_outside.specs.Counts.{Rose};
ghost use Rattle.http_front.specs.declared.ends.HttpEnd.{HttpEnd};
ghost use Rattle.http_front.specs.Codes.{HasCode, IsTaken, outcome_code};
ghost use Rattle.http_front.specs.Exchanges.{Exchange, IsAnswered, IsRouted, spent_end};
ghost use Rattle.http_front.specs.Faults.{IsSound, first_fault};
ghost use Rattle.http_front.specs.OpNumbers.{AreMadeBelow, IsAbove};

/// What was read as a request has a body of at most 4,096 bytes, or one that is known to be too long, and its head says whether
/// the body is empty.
pub fn requests_are_sound()
    ensures { (text : List ℕ) (r : Request) → IsRequest text r → IsSound r }
{}

/// Every number of a flight is new at desks that began none, and whose shards were opened with none; so at those of new shards at
/// which nothing of one's own was made.
pub fn numbers_are_new_at_first()
    ensures first { (v : DeskView) (n : ℕ) → ((k : ℕ) → k < v.size → (o : Op) → NoBegin o (own_entries v k)) → ((k : ℕ) → k < v.size → (o : Op) → flight_at o (v.opened k) ≡ None) → IsAbove v n }
    ensures start { (v : DeskView) (n : ℕ) → ((k : ℕ) → k < v.size → own_entries v k ≡ []) → ((k : ℕ) → k < v.size → (number : ℕ) × (next : ℕ) × (v.opened k ≡ start number next)) → IsAbove v n }
{}

/// Numbers that are new stay so above them, and whatever is made that begins no flight.
pub fn numbers_stay_new()
    ensures above { (v : DeskView) (n m : ℕ) → n ≤ m → IsAbove v n → IsAbove v m }
    ensures others { (a b : DeskView) (ms : List Made) (n : ℕ) → AreMadeBelow 0 ms → Calls a b ms → IsAbove a n → IsAbove b n }
{}

/// A request without a fault makes exactly one Begin, on the shard of its token, with its token, its terms and its body, unless
/// memory was wanted before. A request with a fault makes no entry.
pub fn requests_begin_one_flight()
    ensures { (v : DeskView) (moment : Option ℕ) (count n : ℕ) (x : Exchange) → IsAnswered v moment count n x → BeginsOnce v n x.request x.outcome x.entries }
{}

/// A reply has the code of what its request came to, or 500, where there was no memory for its text.
pub fn replies_tell_what_requests_came_to()
    ensures has { (v : DeskView) (moment : Option ℕ) (count n : ℕ) (x : Exchange) → IsAnswered v moment count n x → HasCode (outcome_code x.outcome) x.reply ⊎ HasCode 500 x.reply }
    ensures no_other { (v : DeskView) (moment : Option ℕ) (count n : ℕ) (x : Exchange) → IsAnswered v moment count n x → (c : ℕ) → 100 ≤ c → c < 1000 → HasCode c x.reply → (c ≡ outcome_code x.outcome) ⊎ (c ≡ 500) }
{}

/// A request is answered 201 exactly where its message was taken: where an entry of its own ended its flight with 201, or where a
/// message that is never stored found no session. Then the sender is told the id that the request's own Begin gave it, and the ttl
/// that was asked. It is answered 410 only where an own entry found no channel, and 503 only where one found the user's rows full or
/// every message number given.
pub fn answers_follow_from_entries()
    ensures only { (v : DeskView) (moment : Option ℕ) (count n : ℕ) (x : Exchange) → IsAnswered v moment count n x → HasCode 201 x.reply → IsTaken v moment n x }
    ensures always { (v : DeskView) (moment : Option ℕ) (count n : ℕ) (x : Exchange) → IsAnswered v moment count n x → (answer : Result Answer NoMemory) (routed : IsRouted v moment n x.request answer x.entries) → x.outcome ≡ Routed answer → list_any (λ m. says_taken routed.ask.terms.ttl m.reply) x.entries ≡ true → HasCode 201 x.reply }
    ensures gone { (v : DeskView) (moment : Option ℕ) (count n : ℕ) (x : Exchange) → IsAnswered v moment count n x → HasCode 410 x.reply → list_any (λ m. says_gone m.reply) x.entries ≡ true }
    ensures unavailable { (v : DeskView) (moment : Option ℕ) (count n : ℕ) (x : Exchange) → IsAnswered v moment count n x → HasCode 503 x.reply → (list_any (λ m. says_full m.reply) x.entries ≡ true) ⊎ (list_any (λ m. says_spent m.reply) x.entries ≡ true) }
{}

/// Where a request has no fault, and none of its own entries found no channel, the user's rows full or every message number given, it
/// is answered 201, or 500 where memory was wanted.
pub fn messages_are_taken_but_for_want_of_memory()
    ensures { (v : DeskView) (moment : Option ℕ) (count n : ℕ) (x : Exchange) → IsAnswered v moment count n x → first_fault x.request ≡ None → list_any (λ m. says_gone m.reply) x.entries ≡ false → list_any (λ m. says_full m.reply) x.entries ≡ false → list_any (λ m. says_spent m.reply) x.entries ≡ false → HasCode 201 x.reply ⊎ HasCode 500 x.reply }
{}

/// Where nobody else makes an entry meanwhile, what the world holds before a request says that it is taken. A request without a
/// fault, to a token of which a user of fewer than 1,000 rows has a channel, on a shard whose next message number is below 2^63, is
/// answered 201, or 500 where memory was wanted, whether links are lost or not. Clause `one` says so of one exchange, and clause
/// `connection` of each exchange of a connection, with the world that the exchanges before it left. Clause `alone`: where each entry
/// that was seen is an own one, before and after, nobody else made any. So it is at a desk of one shard whose one caller signs them all.
pub fn lone_messages_are_taken_but_for_want_of_memory()
    ensures one { (a b : DeskView) (moment : Option ℕ) (count n : ℕ) (x : Exchange) (t : Token) → IsHonest a → Calls a b x.entries → IsAnswered a moment count n x → first_fault x.request ≡ None → IsTo x.request t → GrewAlone a b (shard_of t a.size) x.entries → Admits t (world_at a (shard_of t a.size)) → HasCode 201 x.reply ⊎ HasCode 500 x.reply }
    ensures connection { (moment : Option ℕ) (end : HttpEnd) (a b : Scene) (served : Served moment end a b) (before : List Exchange) (x : Exchange) (after : List Exchange) (t : Token) → IsHonest a.desks → served.exchanges ≡ before ++ x ∷ after → GrewAlone a.desks b.desks (shard_of t a.desks.size) (entries_of served.exchanges) → first_fault x.request ≡ None → IsTo x.request t → Admits t (world_after step (world_at a.desks (shard_of t a.desks.size)) (entries_at a.desks.number (shard_of t a.desks.size) (entries_of before))) → HasCode 201 x.reply ⊎ HasCode 500 x.reply }
    ensures alone { (a b : DeskView) (ms : List Made) (k : ℕ) → Calls a b ms → IsAlone a k → IsAlone b k → GrewAlone a b k ms }
{}

/// After each answer of a connection, whoever else makes entries, what is seen of each shard up to the last own entry of the exchanges
/// so far is a legal history, accounted for where the shard began empty, and in the world that it leaves each stored row that a routed
/// session wasn't sent is covered; so it is after each 201.
pub fn each_answer_leaves_a_cared_world()
    ensures { (moment : Option ℕ) (end : HttpEnd) (a b : Scene) (served : Served moment end a b) (before after : List Exchange) (k : ℕ) → IsHonest a.desks → served.exchanges ≡ before ++ after → Cut a.desks b.desks (entries_of before) (entries_of after) k }
{}

/// Where the wire's count of faults didn't rise, and fewer than 1,000 lulls stand at the end, each reply of the connection was written
/// whole, or the connection ended since memory was wanted.
pub fn replies_are_written_but_for_want_of_memory()
    ensures { (moment : Option ℕ) (end : HttpEnd) (a b : Scene) (served : Served moment end a b) (before now lulls : ℕ) → EndCausedBy end before now lulls → (Rose before now → ⊥) → lulls < 1000 → AreWritten served.exchanges a b ⊎ WantsMemory end }
{}

/// A connection has at most 1,000 requests.
pub fn connections_have_1000_requests()
    ensures { (v : DeskView) (moment : Option ℕ) (n : ℕ) (xs : List Exchange) (last : Option HttpEnd) → AreAnswered v moment (spent_end n) 0 n xs last → length xs ≤ 1000 }
{}
