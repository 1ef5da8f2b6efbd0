//! Small laws of the definitions on which the laws of `laws` rest, each for a reader to check at a glance.
ghost use Rattle.std.specs.Prelude.{◌≡◌, ◌≢◌, ◌↔◌, ◌==◌, ℕ, ◌+◌, ◌<◌, ◌≤◌, ◌⊎◌, ◌++◌, true, false, List, [], ◌∷◌, map, max, length, take, All, AllPairs, Contains, Option};
ghost use Rattle.std.specs.List.{list_all, list_any};
ghost use Rattle.push_model.specs.declared.entry.Entry.{Entry};
ghost use Rattle.push_model.specs.declared.ids.Uaid.{Uaid};
ghost use Rattle.push_model.specs.declared.ids.ChannelId.{ChannelId};
ghost use Rattle.push_model.specs.declared.ids.MsgId.{MsgId};
ghost use Rattle.push_model.specs.declared.ids.Op.{Op};
ghost use Rattle.push_model.specs.declared.ids.Token.{Token};
ghost use Rattle.push_model.specs.declared.parts.Row.{Row};
ghost use Rattle.push_model.specs.declared.reply.Reason.TheVariants.{Channel as NoChannel, Zero as NoTtl, Expired as TooLate, Replaced as Outdated};
ghost use Rattle.push_model.specs.Names.{is_same_channel, is_same_id, is_same_op, is_same_token};
ghost use Rattle.push_model.specs.AskValue.{AskValue, IsAsk, is_printable};
ghost use Rattle.push_model.specs.MessageValue.{MessageValue};
ghost use Rattle.push_model.specs.Messages.{is_expired};
ghost use Rattle.push_model.specs.Rows.{row_page, stands, verdict};
ghost use Rattle.push_model.specs.Sessions.{Session, fetched, has_room, next_page};
ghost use Rattle.push_model.specs.Covering.{is_cared_in};
ghost use Rattle.push_model.specs.Tallies.{no_tally, tallied};
ghost use Rattle.push_model.specs.Worlds.{World, start};
ghost use Rattle.push_model.specs.Replies.{is_kill_reply, is_refusal, replies_to};
ghost use Rattle.push_model.specs.Cells.{Cell, User, rows_of};
ghost use Rattle.push_model.specs.SaverSteps.{save};
ghost use Rattle.push_model.specs.Topics.{is_topic, is_topic_byte};
ghost use Rattle.push_model.specs.UserSteps.{is_idle_user};
ghost use Rattle.push_model.specs.NodeSteps.{is_left_orphan, orphaned, orphaned_on, held_on, killed};
ghost use Rattle.push_model.specs.ShardSteps.{counts, users_where, is_orphaned};
ghost use Rattle.push_model.specs.Steps.{step, is_of_flight};
ghost use Rattle.push_model.specs.Histories.{IsLegal, entry, history, world_after};
ghost use Rattle.push_model.specs.Pools.{Pool, PoolStep, Taken, Reason, Acknowledged, Replaced, Expired, ChannelGone, UserGone, Refused, Zero, Lost, Take, Keep, Show, Ack, Answer, Strike, Subscribe, Unsubscribe, Drop, Tick, Leave, taken_at, reason, after, after_all, empty_pool, is_live, is_same_user, Guard, MeetsAll};
ghost use Rattle.push_model.specs.Images.{copies, events, has_copy, image, is_stored_or_held, messages_on};
ghost use Rattle.push_model.specs.Accounting.{IsAccounted, IsAccountedFrom};
ghost use Rattle.push_model.specs.Kills.{is_leave_of, outlives};
ghost use Rattle.push_model.specs.Caring.{is_cared, none_waited};
ghost use Rattle.push_model.specs.Pins.{IsReplacedBy, ChangesOnly, HasUserOrFlight, untouched, touched, pool_at, plain, topical, message_of, rows_down, row_of, sent_of, session_with, holds, worked, worked_topical, flies, saves, beside_session, five_places, world_of, some_tally, full_tally, id_of, op_one, counts_with, may_cause, is_strike_of, key_saver, to_save, one_given, one_stored, ask_for, channel_two, one_held, one_saved, one_orphaned, one_unsaved, one_row_then, one_renewed, one_idle, one_down, late_message, key_two, key_three, channel_three, token_two, greatest_number, replies_from, message_after, cell_of, world_with, listed, any_cell, letters, begun_message, key_one, token_one, user_one, pool_after};

use crate::ask::Coding;
use crate::reply::{AckedFrom, Reply};
use crate::standing::{Stands, Verdict};
use crate::step::{Actor, Fetch, Stage, Step};

/// A message has a reason to leave only for what happened to it. It has none where nothing of the kind did, and each
/// reason shows what did.
pub fn reasons_are_earned()
    ensures none { (n : ℕ) (p : Pool) (t : Taken) → taken_at n p ≡ Some t → t.acked ≡ false → ((x : Taken) → Contains p.taken x → IsReplacedBy t.message x → ⊥) → p.clock < t.message.accepted + t.message.ask.terms.ttl → t.unsubscribed ≡ false → t.dropped ≡ false → (t.answer ≡ None) ⊎ (t.answer ≡ Some 201) → 0 < t.message.ask.terms.ttl → (t.struck ≡ false) ⊎ (t.kept ≡ true) → reason p n ≡ None }
    ensures untaken { (n : ℕ) (p : Pool) → taken_at n p ≡ None → reason p n ≡ None }
    ensures numbered { (n : ℕ) (p : Pool) (t : Taken) → taken_at n p ≡ Some t → (t.message.id.number ≡ n) × Contains p.taken t }
    ensures acknowledged { (n : ℕ) (p : Pool) (t : Taken) → taken_at n p ≡ Some t → reason p n ≡ Some Acknowledged → t.acked ≡ true }
    ensures replaced { (n k : ℕ) (p : Pool) (t : Taken) → taken_at n p ≡ Some t → reason p n ≡ Some (Replaced k) → (x : Taken) × Contains p.taken x × (x.message.id.number ≡ k) × IsReplacedBy t.message x }
    ensures expired { (n : ℕ) (p : Pool) (t : Taken) → taken_at n p ≡ Some t → reason p n ≡ Some Expired → (t.message.ask.terms.ttl ≢ 0) × (t.message.accepted + t.message.ask.terms.ttl ≤ p.clock) }
    ensures channel_gone { (n : ℕ) (p : Pool) (t : Taken) → taken_at n p ≡ Some t → reason p n ≡ Some ChannelGone → t.unsubscribed ≡ true }
    ensures user_gone { (n : ℕ) (p : Pool) (t : Taken) → taken_at n p ≡ Some t → reason p n ≡ Some UserGone → t.dropped ≡ true }
    ensures refused { (n : ℕ) (p : Pool) (t : Taken) → taken_at n p ≡ Some t → reason p n ≡ Some Refused → (code : ℕ) × (t.answer ≡ Some code) × (code ≢ 201) }
    ensures zero { (n : ℕ) (p : Pool) (t : Taken) → taken_at n p ≡ Some t → reason p n ≡ Some Zero → t.message.ask.terms.ttl ≡ 0 }
    ensures lost { (n : ℕ) (p : Pool) (t : Taken) → taken_at n p ≡ Some t → reason p n ≡ Some Lost → (t.struck ≡ true) × (t.kept ≡ false) }
{}

/// Of several reasons the first counts, in this order. The message 5 was accepted at 100 and has a ttl of 50 seconds, or 0.
/// In each clause the reasons before its own don't hold, and those after it do; but one with ttl 0 is never expired.
pub fn reasons_are_in_order()
    ensures acknowledged { reason (pool_at 150 (touched 50 true true true (Some 503) true) true) 5 ≡ Some Acknowledged }
    ensures replaced { reason (pool_at 150 (touched 50 false true true (Some 503) true) true) 5 ≡ Some (Replaced 9) }
    ensures expired { reason (pool_at 150 (touched 50 false true true (Some 503) true) false) 5 ≡ Some Expired }
    ensures channel_gone { reason (pool_at 150 (touched 0 false true true (Some 503) true) false) 5 ≡ Some ChannelGone }
    ensures user_gone { reason (pool_at 150 (touched 0 false false true (Some 503) true) false) 5 ≡ Some UserGone }
    ensures refused { reason (pool_at 150 (touched 0 false false false (Some 503) true) false) 5 ≡ Some Refused }
    ensures zero { reason (pool_at 150 (touched 0 false false false (Some 201) true) false) 5 ≡ Some Zero }
    ensures lost { reason (pool_at 149 (touched 50 false false false (Some 201) true) false) 5 ≡ Some Lost }
    ensures none { reason (pool_at 149 (touched 50 false false false (Some 201) false) false) 5 ≡ None }
    ensures kept_is_not_lost { reason (pool_at 149 (record (touched 50 false false false (Some 201) true) { kept = true }) false) 5 ≡ None }
    ensures no_topic_is_not_replaced { reason (pool_at 149 (untouched (plain 5)) true) 5 ≡ None }
{}

/// What the guards of the pool refuse.
pub fn guards_refuse()
    ensures show_other { (m : MessageValue) (p : Pool) (t : Taken) → taken_at m.id.number p ≡ Some t → t.message ≢ m → ¬ Guard (Show m) p }
    ensures show_left { (m : MessageValue) (p : Pool) (t : Taken) (r : Reason) → taken_at m.id.number p ≡ Some t → t.left ≡ Some r → ¬ Guard (Show m) p }
    ensures show_untaken { (m : MessageValue) (p : Pool) → taken_at m.id.number p ≡ None → ¬ Guard (Show m) p }
    ensures ack_unshown { (n : ℕ) (p : Pool) (t : Taken) → taken_at n p ≡ Some t → t.shown ≡ false → ¬ Guard (Ack n) p }
    ensures ack_left { (n : ℕ) (p : Pool) (t : Taken) (r : Reason) → taken_at n p ≡ Some t → t.left ≡ Some r → ¬ Guard (Ack n) p }
    ensures ack_untaken { (n : ℕ) (p : Pool) → taken_at n p ≡ None → ¬ Guard (Ack n) p }
    ensures keep_expired { (n : ℕ) (p : Pool) (t : Taken) → taken_at n p ≡ Some t → t.message.accepted + t.message.ask.terms.ttl ≤ p.clock → ¬ Guard (Keep n) p }
    ensures keep_unsubscribed { (n : ℕ) (p : Pool) (t : Taken) → taken_at n p ≡ Some t → ¬ Contains p.subscribed (t.message.uaid, t.message.chid) → ¬ Guard (Keep n) p }
    ensures keep_zero { (n : ℕ) (p : Pool) (t : Taken) → taken_at n p ≡ Some t → t.message.ask.terms.ttl ≡ 0 → ¬ Guard (Keep n) p }
    ensures keep_left { (n : ℕ) (p : Pool) (t : Taken) (r : Reason) → taken_at n p ≡ Some t → t.left ≡ Some r → ¬ Guard (Keep n) p }
    ensures keep_untaken { (n : ℕ) (p : Pool) → taken_at n p ≡ None → ¬ Guard (Keep n) p }
    ensures answer_again { (n code other : ℕ) (p : Pool) (t : Taken) → taken_at n p ≡ Some t → t.answer ≡ Some other → ¬ Guard (Answer n code) p }
    ensures answer_untaken { (n code : ℕ) (p : Pool) → taken_at n p ≡ None → ¬ Guard (Answer n code) p }
    ensures take_again { (m : MessageValue) (p : Pool) (t : Taken) → Contains p.taken t → m.id.number ≤ t.message.id.number → ¬ Guard (Take m) p }
    ensures take_unsubscribed { (m : MessageValue) (p : Pool) → ¬ Contains p.subscribed (m.uaid, m.chid) → ¬ Guard (Take m) p }
    ensures take_at_another_moment { (m : MessageValue) (p : Pool) → m.accepted ≢ p.clock → ¬ Guard (Take m) p }
    ensures leave_unreasoned { (n : ℕ) (p : Pool) (r : Reason) → reason p n ≡ None → ¬ Guard (Leave n r) p }
    ensures leave_for_another { (n : ℕ) (p : Pool) (r s : Reason) → reason p n ≡ Some s → s ≢ r → ¬ Guard (Leave n r) p }
    ensures leave_again { (n : ℕ) (p : Pool) (t : Taken) (r s : Reason) → taken_at n p ≡ Some t → t.left ≡ Some s → ¬ Guard (Leave n r) p }
    ensures leave_untaken { (n : ℕ) (p : Pool) (r : Reason) → taken_at n p ≡ None → ¬ Guard (Leave n r) p }
    ensures strike_left { (n : ℕ) (p : Pool) (t : Taken) (r : Reason) → taken_at n p ≡ Some t → t.left ≡ Some r → ¬ Guard (Strike n) p }
    ensures strike_untaken { (n : ℕ) (p : Pool) → taken_at n p ≡ None → ¬ Guard (Strike n) p }
    ensures each_in_turn { (s : PoolStep) (rest : List PoolStep) (p : Pool) → MeetsAll (s ∷ rest) p → Guard s p × MeetsAll rest (after s p) }
    ensures made_in_turn { (s : PoolStep) (rest : List PoolStep) (p : Pool) → after_all (s ∷ rest) p ≡ after_all rest (after s p) }
{}

/// What a step of the pool changes, and that it changes nothing else.
pub fn steps_change_little()
    ensures taken { (m : MessageValue) (p : Pool) → taken_at m.id.number p ≡ None → ChangesOnly m.id.number (untouched m) p (after (Take m) p) }
    ensures kept { (n : ℕ) (p : Pool) (t : Taken) → taken_at n p ≡ Some t → ChangesOnly n (record t { kept = true }) p (after (Keep n) p) }
    ensures shown { (m : MessageValue) (p : Pool) (t : Taken) → taken_at m.id.number p ≡ Some t → ChangesOnly m.id.number (record t { shown = true }) p (after (Show m) p) }
    ensures acked { (n : ℕ) (p : Pool) (t : Taken) → taken_at n p ≡ Some t → ChangesOnly n (record t { acked = true }) p (after (Ack n) p) }
    ensures answered { (n code : ℕ) (p : Pool) (t : Taken) → taken_at n p ≡ Some t → ChangesOnly n (record t { answer = Some code }) p (after (Answer n code) p) }
    ensures struck { (n : ℕ) (p : Pool) (t : Taken) → taken_at n p ≡ Some t → ChangesOnly n (record t { struck = true }) p (after (Strike n) p) }
    ensures left { (n : ℕ) (r : Reason) (p : Pool) (t : Taken) → taken_at n p ≡ Some t → ChangesOnly n (record t { left = Some r }) p (after (Leave n r) p) }
    ensures ticked { (t : ℕ) (p : Pool) → after (Tick t) p ≡ record p { clock = max p.clock t } }
    ensures subscribed { (u : Uaid) (h : ChannelId) (p : Pool) → after (Subscribe u h) p ≡ record p { subscribed = p.subscribed ++ (u, h) ∷ [] } }
    ensures unsubscribed { (n : ℕ) (p : Pool) (t : Taken) → taken_at n p ≡ Some t → taken_at n (after (Unsubscribe t.message.uaid t.message.chid) p) ≡ Some (record t { unsubscribed = true }) }
    ensures unsubscribed_no_other { (n : ℕ) (u : Uaid) (h : ChannelId) (p : Pool) (t : Taken) → taken_at n p ≡ Some t → (t.message.uaid ≢ u) ⊎ (t.message.chid ≢ h) → taken_at n (after (Unsubscribe u h) p) ≡ Some t }
    ensures subscribed_no_more { (u : Uaid) (h : ChannelId) (p : Pool) → ¬ Contains (after (Unsubscribe u h) p).subscribed (u, h) }
    ensures dropped { (n : ℕ) (p : Pool) (t : Taken) → taken_at n p ≡ Some t → taken_at n (after (Drop t.message.uaid) p) ≡ Some (record t { dropped = true }) }
    ensures dropped_no_other { (n : ℕ) (u : Uaid) (p : Pool) (t : Taken) → taken_at n p ≡ Some t → t.message.uaid ≢ u → taken_at n (after (Drop u) p) ≡ Some t }
{}

/// A step of the pool comes only of such a step and reply of the shard, beside the Leaves. A message is kept where a
/// flight stored it or a saver saved it, unsubscribed where its channel was unregistered, and dropped where its user was
/// dropped or expired. It is struck only in a kill, exactly where a session or a saver on that node held it. The clock goes
/// on only in a Tick, to its moment. A kill and a Tick always reply as such.
pub fn entries_have_causes()
    ensures caused { (p : Pool) (w : World) (e : Entry Step Reply) → list_all (may_cause e.step e.reply) (image p w e) ≡ true }
    ensures killed { (w : World) (n : ℕ) → is_kill_reply (step w (Step.Kill n)).1 ≡ true }
    ensures ticked { (w : World) (t : ℕ) → (step w (Step.Tick t)).1 ≡ Reply.Done }
    ensures struck { (w : World) (n k : ℕ) (r : Reply) → list_any (is_strike_of k) (events w (Step.Kill n) r) ≡ true → (e : ℕ × Cell) × Contains w.cells e × ((m : MessageValue) × Contains (messages_on n e.1) m × (m.id.number ≡ k)) }
    ensures strikes { (w : World) (n : ℕ) (r : Reply) (e : ℕ × Cell) (m : MessageValue) → Contains w.cells e → Contains (messages_on n e.1) m → list_any (is_strike_of m.id.number) (events w (Step.Kill n) r) ≡ true }
{}

/// The pool is told of what is stored, shown and acknowledged, and of what a sender is answered: as the flight ends, or, with
/// ttl 0 and no route, as it begins.
pub fn entries_tell_the_pool()
    ensures stored { events (world_of five_places) (Step.Store op_one) Reply.Stored ≡ Keep 5 ∷ [] }
    ensures store_ends { events (world_of five_places) (Step.Store op_one) (Reply.End 503) ≡ Answer 5 503 ∷ [] }
    ensures give_up_ends { events (world_of five_places) (Step.GiveUp op_one) (Reply.End 500) ≡ Answer 5 500 ∷ [] }
    ensures reread_ends { events (world_of five_places) (Step.Reread (Actor.Flight op_one)) (Reply.End 201) ≡ Answer 5 201 ∷ [] }
    ensures heard_ends { events (world_of five_places) (Step.Heard (Actor.Flight op_one)) (Reply.End 201) ≡ Answer 5 201 ∷ [] }
    ensures lost_ends { events (world_of five_places) (Step.Lost (Actor.Flight op_one)) (Reply.End 201) ≡ Answer 5 201 ∷ [] }
    ensures begun_zero_unrouted { events (world_of five_places) (Step.Begin op_one token_one (ask_for 0 None)) (Reply.Begun (id_of 5) None) ≡ Answer 5 201 ∷ [] }
    ensures begun_zero_routed { events (world_of five_places) (Step.Begin op_one token_one (ask_for 0 None)) (Reply.Begun (id_of 5) (Some (3, 4))) ≡ [] }
    ensures begun_unrouted { events (world_of five_places) (Step.Begin op_one token_one (ask_for 50 None)) (Reply.Begun (id_of 5) None) ≡ [] }
    ensures other_flight { events (world_of five_places) (Step.Heard (Actor.Flight (record { pass = 1; k = 2 }))) (Reply.End 201) ≡ [] }
    ensures acked { events (world_of five_places) (Step.Ack (record { uaid = record { 0 = 1 }; node = 3; at = 4 }) (record { 0 = 2 }) (id_of 2)) (Reply.Acked AckedFrom.Direct) ≡ Ack 2 ∷ [] }
    ensures paged { (w : World) (messages : List MessageValue) → events w (Step.TakeDirect (record { uaid = record { 0 = 1 }; node = 3; at = 4 })) (Reply.Page messages) ≡ map Show messages }
{}

/// What it says that a history is accounted for: the pool begins empty, each entry's steps of the pool meet their guards,
/// and at the end the live messages, which were taken and haven't left, are those with a copy.
pub fn accounts_say()
    ensures empty { (w : World) (entries : List (Entry Step Reply)) → IsAccounted w entries → IsAccountedFrom empty_pool w entries }
    ensures each { (p : Pool) (w : World) (e : Entry Step Reply) (rest : List (Entry Step Reply)) → IsAccountedFrom p w (e ∷ rest) → MeetsAll (image p w e) p × IsAccountedFrom (after_all (image p w e) p) (step w e.step).0 rest }
    ensures live { (n : ℕ) (p : Pool) → (is_live n p ≡ true) ↔ ((t : Taken) × (taken_at n p ≡ Some t) × (t.left ≡ None)) }
    ensures copied { (p : Pool) (w : World) → IsAccountedFrom p w [] → (n : ℕ) → (is_live n p ≡ true) ↔ (has_copy n w ≡ true) }
    ensures same { (p : Pool) (w : World) → IsAccountedFrom p w [] → (e : ℕ × Cell) → Contains w.cells e → All (λ m. (t : Taken) × (taken_at m.id.number p ≡ Some t) × (t.message ≡ m)) (copies e.1) }
    ensures flown { (p : Pool) (w : World) → IsAccountedFrom p w [] → (e : ℕ × Cell) → Contains w.cells e → All (λ f. (t : Taken) × (taken_at f.message.id.number p ≡ Some t) × (t.answer ≡ None)) e.1.flights }
    ensures answered { (p : Pool) (w : World) → IsAccountedFrom p w [] → (n code : ℕ) (t : Taken) → taken_at n p ≡ Some t → t.left ≡ None → t.answer ≡ Some code → (e : ℕ × Cell) × Contains w.cells e × (is_stored_or_held n e.1 ≡ true) }
{}

/// Whatever steps are made, their history is legal, and it leaves the world that they leave.
pub fn histories_are_legal()
    ensures legal { (by : ℕ) (w : World) (steps : List Step) → IsLegal step w (history step by w steps) }
    ensures answered { (w : World) (e : Entry Step Reply) (rest : List (Entry Step Reply)) → IsLegal step w (e ∷ rest) → e.reply ≡ (step w e.step).1 }
    ensures nothing { (w : World) → world_after step w [] ≡ w }
    ensures one_more { (w : World) (entries : List (Entry Step Reply)) (e : Entry Step Reply) → world_after step w (entries ++ e ∷ []) ≡ (step (world_after step w entries) e.step).0 }
{}

/// Two worked histories. A user is made, and its session attached; a channel is registered; a message is sent to it. In the
/// first it is given to the session. In the second the session looked at the rows before; the message can't be given to it,
/// and is stored, and the session is told and looks again. In both it is shown, its sender is answered, it is
/// acknowledged, and it left for that.
pub fn one_message_is_told()
    ensures given_replies { map (λ e. e.reply) (history step 1 (start 0 1) one_given) ≡ Reply.Made ∷ Reply.Attached None ∷ Reply.Endpoint token_one ∷ Reply.Begun (id_of 1) (Some (3, 4)) ∷ Reply.Here user_one ∷ Reply.End 201 ∷ Reply.Page (begun_message ∷ []) ∷ Reply.Acked AckedFrom.Direct ∷ [] }
    ensures begun { (pool_after (start 0 1) (history step 1 (start 0 1) (take 4 one_given))).taken ≡ untouched begun_message ∷ [] }
    ensures given { (pool_after (start 0 1) (history step 1 (start 0 1) (take 7 one_given))).taken ≡ record (untouched begun_message) { shown = true; answer = Some 201 } ∷ [] }
    ensures given_left { (pool_after (start 0 1) (history step 1 (start 0 1) one_given)).taken ≡ record (untouched begun_message) { shown = true; answer = Some 201; acked = true; left = Some Acknowledged } ∷ [] }
    ensures stored_replies { map (λ e. e.reply) (history step 1 (start 0 1) one_stored) ≡ Reply.Made ∷ Reply.Attached None ∷ Reply.Due ∷ Reply.Page [] ∷ Reply.Page [] ∷ Reply.Endpoint token_one ∷ Reply.Begun (id_of 1) (Some (3, 4)) ∷ Reply.Moved Stage.Store ∷ Reply.Stored ∷ Reply.Names 3 4 ∷ Reply.Here user_one ∷ Reply.End 201 ∷ Reply.Due ∷ Reply.Page [] ∷ Reply.Page (begun_message ∷ []) ∷ Reply.Acked AckedFrom.Stored ∷ [] }
    ensures kept { (pool_after (start 0 1) (history step 1 (start 0 1) (take 9 one_stored))).taken ≡ record (untouched begun_message) { kept = true } ∷ [] }
    ensures stored_left { (pool_after (start 0 1) (history step 1 (start 0 1) one_stored)).taken ≡ record (untouched begun_message) { kept = true; shown = true; answer = Some 201; acked = true; left = Some Acknowledged } ∷ [] }
    ensures tallied { (world_after step (start 0 1) (history step 1 (start 0 1) one_stored)).tally ≡ record no_tally { begun = 1; ok = 1; stored = 1; shown = 1; acked = 1 } }
    ensures nobody_leaves_no_cell { (step (start 0 1) (Step.TakeCheck key_one)).0.cells ≡ [] }
{}

/// Worked histories of a message that a session holds. In the first the session is closed, and another session of the user
/// looks at the rows. Then the saver saves the message, and tells the other session, which looks again, is shown it and
/// acknowledges it. In the second the saver's node is killed before it told: the row is an orphan until the other session
/// is told. In the third the session's node is killed: the message is struck, and was lost. In the fourth its channel goes
/// first, and the saver leaves it.
pub fn held_messages_are_saved()
    ensures saved_replies { replies_from 6 one_saved ≡ Reply.Saving 1 ∷ Reply.Cleared ∷ Reply.Claimed None ∷ Reply.Attached None ∷ Reply.Due ∷ Reply.Page [] ∷ Reply.Page [] ∷ Reply.Saved (id_of 1) ∷ Reply.AllSaved ∷ Reply.Names 5 9 ∷ Reply.Here user_one ∷ Reply.End 200 ∷ Reply.Due ∷ Reply.Page [] ∷ Reply.Page (begun_message ∷ []) ∷ Reply.Acked AckedFrom.Stored ∷ [] }
    ensures held { message_after one_held ≡ record (untouched begun_message) { answer = Some 201 } ∷ [] }
    ensures saved { message_after (take 14 one_saved) ≡ record (untouched begun_message) { kept = true; answer = Some 201 } ∷ [] }
    ensures shown { message_after (take 21 one_saved) ≡ record (untouched begun_message) { kept = true; shown = true; answer = Some 201 } ∷ [] }
    ensures saved_left { message_after one_saved ≡ record (untouched begun_message) { kept = true; shown = true; answer = Some 201; acked = true; left = Some Acknowledged } ∷ [] }
    ensures tallied { (world_after step (start 0 1) (history step 1 (start 0 1) one_saved)).tally ≡ record no_tally { begun = 1; ok = 1; saved = 1; shown = 1; acked = 1 } }
    ensures orphaned_replies { replies_from 14 one_orphaned ≡ Reply.Killed 0 1 ∷ Reply.Users ((user_one, Some 5, 9) ∷ []) ∷ Reply.Here user_one ∷ Reply.Users [] ∷ Reply.Due ∷ Reply.Page [] ∷ Reply.Page (begun_message ∷ []) ∷ [] }
    ensures orphaned { message_after one_orphaned ≡ record (untouched begun_message) { kept = true; shown = true; answer = Some 201 } ∷ [] }
    ensures killed_replies { replies_from 6 (one_held ++ Step.Kill 3 ∷ []) ≡ Reply.Killed 1 0 ∷ [] }
    ensures killed { message_after (one_held ++ Step.Kill 3 ∷ []) ≡ record (untouched begun_message) { answer = Some 201; struck = true; left = Some Lost } ∷ [] }
    ensures killed_elsewhere { message_after (one_held ++ Step.Kill 2 ∷ []) ≡ record (untouched begun_message) { answer = Some 201 } ∷ [] }
    ensures unsaved_replies { replies_from 6 one_unsaved ≡ Reply.Done ∷ Reply.Saving 1 ∷ Reply.Left (id_of 1) NoChannel ∷ [] }
    ensures unregistered_held { message_after (take 8 one_unsaved) ≡ record (untouched begun_message) { answer = Some 201; unsubscribed = true } ∷ [] }
    ensures unsaved { message_after one_unsaved ≡ record (untouched begun_message) { answer = Some 201; unsubscribed = true; left = Some ChannelGone } ∷ [] }
{}

/// Worked histories of a message that is a row. It leaves as its channel is unregistered, as its user is dropped, and in
/// the second at which it expires, 50 seconds after it was taken; a kill leaves it. A user that no session serves is dropped
/// by Expire in the very second of 5,184,000 after it was touched, and not before.
pub fn rows_leave()
    ensures unregistered { message_after (one_row_then (Step.Unregister key_one channel_two ∷ [])) ≡ record (untouched begun_message) { kept = true; answer = Some 201; unsubscribed = true; left = Some ChannelGone } ∷ [] }
    ensures dropped { message_after (one_row_then (Step.DropUser user_one ∷ [])) ≡ record (untouched begun_message) { kept = true; answer = Some 201; dropped = true; left = Some UserGone } ∷ [] }
    ensures due { message_after (one_row_then (Step.Tick 50 ∷ [])) ≡ record (untouched begun_message) { kept = true; answer = Some 201; left = Some Expired } ∷ [] }
    ensures not_due { message_after (one_row_then (Step.Tick 49 ∷ [])) ≡ record (untouched begun_message) { kept = true; answer = Some 201 } ∷ [] }
    ensures never_back { (pool_after (start 0 1) (history step 1 (start 0 1) (Step.Tick 49 ∷ Step.Tick 7 ∷ []))).clock ≡ 49 }
    ensures killed { message_after (one_row_then (Step.Kill 3 ∷ [])) ≡ record (untouched begun_message) { kept = true; answer = Some 201 } ∷ [] }
    ensures idle_replies { replies_from 3 one_idle ≡ Reply.Killed 0 0 ∷ Reply.Done ∷ Reply.Begun (id_of 1) (Some (3, 4)) ∷ Reply.Moved Stage.Store ∷ Reply.Stored ∷ Reply.Names 3 4 ∷ Reply.NotHere ∷ Reply.Moved (Stage.Clear 3 4) ∷ Reply.End 201 ∷ Reply.Done ∷ Reply.Users [] ∷ Reply.Kept ∷ Reply.Done ∷ Reply.Users ((user_one, None, 4) ∷ []) ∷ Reply.Dropped ∷ [] }
    ensures not_idle { message_after (take 17 one_idle) ≡ record (untouched late_message) { kept = true; answer = Some 201 } ∷ [] }
    ensures idle { message_after one_idle ≡ record (untouched late_message) { kept = true; answer = Some 201; dropped = true; left = Some UserGone } ∷ [] }
{}

/// Two worked histories of routes. In the first a flight can't tell the session of its row, and takes it out of the route
/// row; Renew routes the session again, and has it look. In the second a node is killed and is up again: no session is
/// attached while it is down, nor for a claim from before.
pub fn sessions_are_routed_again()
    ensures renewed { replies_from 10 one_renewed ≡ Reply.Kept ∷ Reply.Moved (Stage.Clear 3 4) ∷ Reply.End 201 ∷ Reply.Renewed ∷ Reply.Due ∷ Reply.Page [] ∷ Reply.Page (begun_message ∷ []) ∷ [] }
    ensures down { replies_from 0 one_down ≡ Reply.Made ∷ Reply.Killed 0 0 ∷ Reply.NodeDown ∷ Reply.Done ∷ Reply.NotClaimed ∷ Reply.Claimed (Some 3) ∷ Reply.Attached None ∷ [] }
{}

/// A newer session at the same node takes the place of the one that is attached there, which takes no messages any more.
/// An older one takes no route and no place.
pub fn newer_sessions_displace()
    ensures newer { replies_from 2 (Step.Create key_one ∷ Step.Attach key_one ∷ Step.Claim key_three ∷ Step.Attach key_three ∷ Step.TakeDirect key_one ∷ Step.TakeDirect key_three ∷ Step.Claim key_one ∷ Step.Attach key_one ∷ []) ≡ Reply.Claimed (Some 3) ∷ Reply.Attached (Some 4) ∷ Reply.NoSession ∷ Reply.Page [] ∷ Reply.Stale 5 ∷ Reply.NotClaimed ∷ [] }
    ensures older { replies_from 1 (Step.Create key_one ∷ Step.Claim key_three ∷ Step.Attach key_three ∷ Step.Attach key_one ∷ Step.Attach key_one ∷ []) ≡ Reply.Claimed (Some 3) ∷ Reply.Attached None ∷ Reply.Outrun 5 ∷ Reply.NotClaimed ∷ [] }
    ensures once { replies_from 0 (Step.Create key_one ∷ Step.Create key_three ∷ Step.Claim key_one ∷ []) ≡ Reply.Made ∷ Reply.Taken ∷ Reply.Stale 4 ∷ [] }
    ensures nobody { replies_from 0 (Step.Claim key_one ∷ Step.Attach key_one ∷ Step.DropUser user_one ∷ Step.Expire user_one ∷ []) ≡ Reply.NoUser ∷ Reply.NotClaimed ∷ Reply.Kept ∷ Reply.Kept ∷ [] }
{}

/// What a shard refuses itself: a token that another channel has, a token that no channel has, a flight's name that is in
/// use, and a message past the number 2^63 - 1. A channel that is registered again keeps its token.
pub fn shards_refuse()
    ensures tokens { replies_from 2 (Step.Create key_one ∷ Step.Attach key_one ∷ Step.Register key_one channel_two token_one ∷ Step.Register key_one channel_two token_two ∷ Step.Register key_one channel_three token_one ∷ Step.Register key_one channel_three token_two ∷ []) ≡ Reply.Endpoint token_one ∷ Reply.Endpoint token_one ∷ Reply.TokenTaken ∷ Reply.Endpoint token_two ∷ [] }
    ensures unknown { replies_from 3 (take 3 one_given ++ Step.Begin op_one token_two (ask_for 50 None) ∷ []) ≡ Reply.NoToken ∷ [] }
    ensures in_use { replies_from 4 (take 4 one_given ++ Step.Begin op_one token_one (ask_for 50 None) ∷ []) ≡ Reply.Stage (Stage.Direct 3 4) ∷ [] }
    ensures last_number { (step (world_after step (start 0 greatest_number) (history step 1 (start 0 greatest_number) (take 3 one_given))) (Step.Begin op_one token_one (ask_for 50 None))).1 ≡ Reply.Begun (id_of greatest_number) (Some (3, 4)) }
    ensures spent { (step (world_after step (start 0 (greatest_number + 1)) (history step 1 (start 0 (greatest_number + 1)) (take 3 one_given))) (Step.Begin op_one token_one (ask_for 50 None))).1 ≡ Reply.IdsSpent }
{}

/// A reply of another kind is none of a step's.
pub fn kinds_of_replies_differ()
    ensures kill { replies_to (Step.Kill 3) Reply.Done ≡ false }
    ensures tick { replies_to (Step.Tick 3) (Reply.Killed 0 0) ≡ false }
    ensures save { replies_to (Step.SaveOne key_one) Reply.Stored ≡ false }
    ensures store { replies_to (Step.Store op_one) (Reply.Saved (id_of 1)) ≡ false }
    ensures store_ends { replies_to (Step.Store op_one) (Reply.End 500) ≡ false }
    ensures saver_ends { replies_to (Step.Heard (Actor.Saver key_one)) (Reply.End 201) ≡ false }
    ensures flight_ends { replies_to (Step.Heard (Actor.Flight op_one)) (Reply.End 200) ≡ false }
    ensures saver_never_stores { replies_to (Step.Lost (Actor.Saver key_one)) (Reply.Moved Stage.Store) ≡ false }
    ensures expire { replies_to (Step.Expire user_one) Reply.Done ≡ false }
    ensures unregister { replies_to (Step.Unregister key_one channel_two) Reply.Dropped ≡ false }
    ensures close { replies_to (Step.Close key_one) Reply.Done ≡ false }
    ensures refused { (is_refusal Reply.NoFlight ≡ true) × (is_refusal (Reply.Stage Stage.Store) ≡ true) }
    ensures not_refused { map is_refusal (Reply.Stored ∷ Reply.NotHere ∷ Reply.End 503 ∷ Reply.Moved Stage.Store ∷ []) ≡ false ∷ false ∷ false ∷ false ∷ [] }
{}

/// What a kill counts and strikes, and which rows it leaves as orphans: those that a saver on the node saved and told
/// nobody of. A saver that told, though it found no session, leaves none.
pub fn kills_leave_orphans()
    ensures saving { is_left_orphan 8 (saves 5 Stage.Saving) (row_of (plain 5)) ≡ true }
    ensures rereads { is_left_orphan 8 (saves 5 Stage.Reread) (row_of (plain 5)) ≡ true }
    ensures nudges { is_left_orphan 8 (saves 5 (Stage.Nudge 3 4)) (row_of (plain 5)) ≡ true }
    ensures clears { is_left_orphan 8 (saves 5 (Stage.Clear 3 4)) (row_of (plain 5)) ≡ true }
    ensures told { is_left_orphan 8 (saves 5 (Stage.ToldNudge true 3 4)) (row_of (plain 5)) ≡ false }
    ensures found_none { is_left_orphan 8 (saves 5 (Stage.ToldNudge false 3 4)) (row_of (plain 5)) ≡ false }
    ensures other_node { is_left_orphan 7 (saves 5 Stage.Saving) (row_of (plain 5)) ≡ false }
    ensures other_row { is_left_orphan 8 (saves 6 Stage.Saving) (row_of (plain 5)) ≡ false }
    ensures becomes { orphaned 8 (saves 5 Stage.Saving) (row_of (plain 5)) ≡ record (row_of (plain 5)) { orphan = true } }
    ensures becomes_none { orphaned 8 (saves 5 (Stage.ToldNudge true 3 4)) (row_of (plain 5)) ≡ row_of (plain 5) }
    ensures stays { (n : ℕ) (r : Row) → orphaned n [] r ≡ r }
    ensures stays_orphan { (orphaned 8 [] (record (row_of (plain 5)) { orphan = true })).orphan ≡ true }
    ensures counted { orphaned_on 8 (worked false Fetch.Idle [] (saves 5 Stage.Saving) false) ≡ 1 }
    ensures counted_before { orphaned_on 8 (worked false Fetch.Idle [] (saves 5 Stage.Saving) true) ≡ 0 }
    ensures held_by_session { held_on 3 five_places ≡ 2 }
    ensures held_by_saver { held_on 8 five_places ≡ 1 }
    ensures held_elsewhere { held_on 5 five_places ≡ 0 }
    ensures struck_session { (r : Reply) → events (world_of five_places) (Step.Kill 3) r ≡ Strike 2 ∷ Strike 3 ∷ [] }
    ensures struck_saver { (r : Reply) → events (world_of five_places) (Step.Kill 8) r ≡ Strike 4 ∷ [] }
    ensures struck_elsewhere { (r : Reply) → events (world_of five_places) (Step.Kill 5) r ≡ [] }
    ensures struck_once { (r : Reply) → events (world_of (record five_places { sessions = record (session_with false Fetch.Idle) { direct = plain 2 ∷ []; inbox = plain 2 ∷ [] } ∷ [] })) (Step.Kill 3) r ≡ Strike 2 ∷ [] }
    ensures ends_session { killed 3 five_places ≡ record five_places { sessions = [] } }
    ensures ends_saver { killed 8 five_places ≡ record five_places { savers = [] } }
    ensures ends_nothing { killed 5 five_places ≡ five_places }
    ensures ends_claims { (killed 3 (record five_places { claims = record { node = 3; at = 4 } ∷ record { node = 2; at = 4 } ∷ [] })).claims ≡ record { node = 2; at = 4 } ∷ [] }
{}

/// Which copies outlive a kill: rows, what is held at another node, and what is on its way.
pub fn copies_outlive_kills()
    ensures row { outlives 3 1 (world_of five_places) ≡ true }
    ensures shown_there { outlives 3 2 (world_of five_places) ≡ false }
    ensures waits_there { outlives 3 3 (world_of five_places) ≡ false }
    ensures saver_there { outlives 8 4 (world_of five_places) ≡ false }
    ensures shown_elsewhere { outlives 8 2 (world_of five_places) ≡ true }
    ensures waits_elsewhere { outlives 8 3 (world_of five_places) ≡ true }
    ensures saver_elsewhere { outlives 3 4 (world_of five_places) ≡ true }
    ensures flight { outlives 3 5 (world_of five_places) ≡ true }
    ensures nowhere { outlives 3 6 (world_of five_places) ≡ false }
    ensures leaves { (r : Reason) → is_leave_of 5 (Leave 5 r) ≡ true }
    ensures leaves_no_other { (r : Reason) → is_leave_of 5 (Leave 6 r) ≡ false }
{}

/// What a saver does with the next message of those that it holds. A row that is already there stays; there may be more
/// than 1,000 rows.
pub fn savers_decide()
    ensures joins { (save 149 key_saver (to_save (plain 5) [])).reply ≡ Reply.Saved (id_of 5) }
    ensures joined { rows_of (save 149 key_saver (to_save (plain 5) (row_of (plain 3) ∷ []))).cell.user ≡ row_of (plain 3) ∷ row_of (plain 5) ∷ [] }
    ensures noted { (save 149 key_saver (to_save (plain 5) [])).cell.savers ≡ record { node = 8; at = 3; held = []; saved = id_of 5 ∷ []; stage = Stage.Saving } ∷ [] }
    ensures beside_itself { (save 149 key_saver (to_save (plain 5) (row_of (plain 5) ∷ []))).reply ≡ Reply.Saved (id_of 5) }
    ensures itself_stays { rows_of (save 149 key_saver (to_save (plain 5) (row_of (plain 5) ∷ row_of (plain 9) ∷ []))).cell.user ≡ row_of (plain 5) ∷ row_of (plain 9) ∷ [] }
    ensures past_a_thousand { (save 149 key_saver (to_save (plain 2000) (rows_down plain 1000))).reply ≡ Reply.Saved (id_of 2000) }
    ensures in_place_of_older { rows_of (save 149 key_saver (to_save (topical 5) (row_of (topical 3) ∷ []))).cell.user ≡ row_of (topical 5) ∷ [] }
    ensures older { (save 149 key_saver (to_save (topical 5) (row_of (topical 9) ∷ []))).reply ≡ Reply.Left (id_of 5) Outdated }
    ensures older_goes { (save 149 key_saver (to_save (topical 5) (row_of (topical 9) ∷ []))).cell ≡ record (to_save (topical 5) (row_of (topical 9) ∷ [])) { savers = record { node = 8; at = 3; held = []; saved = []; stage = Stage.Saving } ∷ [] } }
    ensures expired { (save 150 key_saver (to_save (plain 5) [])).reply ≡ Reply.Left (id_of 5) TooLate }
    ensures zero { (save 149 key_saver (to_save (message_of 5 0 None) [])).reply ≡ Reply.Left (id_of 5) NoTtl }
    ensures no_channel { (save 149 key_saver five_places).reply ≡ Reply.Left (id_of 4) NoChannel }
    ensures no_user { (save 149 key_saver (record five_places { user = None })).reply ≡ Reply.Left (id_of 4) NoChannel }
    ensures nothing { (save 149 key_saver (record five_places { savers = record { node = 8; at = 3; held = []; saved = id_of 5 ∷ []; stage = Stage.Saving } ∷ [] })).cell.savers ≡ saves 5 Stage.Reread }
    ensures nothing_saved { (save 149 key_saver (record five_places { savers = record { node = 8; at = 3; held = []; saved = []; stage = Stage.Saving } ∷ [] })).cell.savers ≡ [] }
{}

/// A user is idle exactly where no session of it is attached and 5,184,000 seconds passed since it was touched.
pub fn idleness_is_exact()
    ensures since { (moment : ℕ) (u : User) (xs : List Session) → ((x : Session) → Contains xs x → x.displaced ≡ true) → u.route.touched + 5184000 ≤ moment → is_idle_user moment (Some u) xs ≡ true }
    ensures before { (moment : ℕ) (u : User) (xs : List Session) → moment < u.route.touched + 5184000 → is_idle_user moment (Some u) xs ≡ false }
    ensures attached { (moment : ℕ) (user : Option User) (xs : List Session) (x : Session) → Contains xs x → x.displaced ≡ false → is_idle_user moment user xs ≡ false }
    ensures nobody { (moment : ℕ) (xs : List Session) → is_idle_user moment None xs ≡ false }
{}

/// A list names the first 100 users of such cells, in order, each with its route row. One of orphans names those that have
/// an orphan row and a session that can be told of it.
pub fn lists_have_a_hundred()
    ensures in_order { users_where any_cell (world_with 3) ≡ listed 1 ∷ listed 2 ∷ listed 3 ∷ [] }
    ensures such { users_where (λ c. c.uaid.0 == 2) (world_with 3) ≡ listed 2 ∷ [] }
    ensures hundred { length (users_where any_cell (world_with 102)) ≡ 100 }
    ensures first_hundred { users_where any_cell (world_with 102) ≡ users_where any_cell (world_with 100) }
    ensures no_user { users_where any_cell (world_of (record five_places { user = None })) ≡ [] }
    ensures orphan { is_orphaned (worked false Fetch.Idle [] [] true) ≡ true }
    ensures no_orphan { is_orphaned (worked false Fetch.Idle [] [] false) ≡ false }
    ensures unrouted { is_orphaned (cell_of None (record { message = plain 5; orphan = true }) (session_with false Fetch.Idle) [] []) ≡ false }
    ensures routed_elsewhere { is_orphaned (cell_of (Some 2) (record { message = plain 5; orphan = true }) (session_with false Fetch.Idle) [] []) ≡ false }
    ensures displaced { is_orphaned (cell_of (Some 3) (record { message = plain 5; orphan = true }) (record (session_with false Fetch.Idle) { displaced = true }) [] []) ≡ false }
{}

/// What each ask keeps.
pub fn asks_are_limited()
    ensures longest { IsAsk (ask_for 2592000 None) }
    ensures too_long { ¬ IsAsk (ask_for 2592001 None) }
    ensures payload { (a : AskValue) → IsAsk a → length a.payload ≤ 4096 }
    ensures bare { (a : AskValue) → IsAsk a → a.payload ≡ [] → a.terms.coding ≡ Coding.Bare }
    ensures headers { (a : AskValue) → IsAsk a → a.terms.coding ≢ Coding.Aesgcm → (a.encryption ≡ []) × (a.crypto_key ≡ []) }
    ensures short { (a : AskValue) → IsAsk a → (length a.encryption ≤ 1024) × (length a.crypto_key ≤ 1024) }
    ensures printable { map is_printable (31 ∷ 32 ∷ 126 ∷ 127 ∷ []) ≡ false ∷ true ∷ true ∷ false ∷ [] }
{}

/// A topic has 1 to 32 letters, digits, `-` or `_`.
pub fn topics_are_short()
    ensures empty { is_topic [] ≡ false }
    ensures longest { is_topic (letters 32) ≡ true }
    ensures too_long { is_topic (letters 33) ≡ false }
    ensures each_end { is_topic (45 ∷ 95 ∷ 48 ∷ 57 ∷ 65 ∷ 90 ∷ 97 ∷ 122 ∷ []) ≡ true }
    ensures beside { map is_topic_byte (44 ∷ 46 ∷ 47 ∷ 58 ∷ 64 ∷ 91 ∷ 94 ∷ 96 ∷ 123 ∷ []) ≡ false ∷ false ∷ false ∷ false ∷ false ∷ false ∷ false ∷ false ∷ false ∷ [] }
{}

/// Two names are the same exactly where they are equal.
pub fn names_are_exact()
    ensures channels { (a b : ChannelId) → (is_same_channel a b ≡ true) ↔ (a ≡ b) }
    ensures tokens { (a b : Token) → (is_same_token a b ≡ true) ↔ (a ≡ b) }
    ensures ids { (a b : MsgId) → (is_same_id a b ≡ true) ↔ (a ≡ b) }
    ensures flights { (a b : Op) → (is_same_op a b ≡ true) ↔ (a ≡ b) }
    ensures users { (a b : Uaid) → (is_same_user a b ≡ true) ↔ (a ≡ b) }
{}

/// Each place at which a message can be is a copy: it is a row, was shown, waits, is held by a saver, or is on its way.
/// The last is no place at which a message whose sender was answered can be.
pub fn copies_count()
    ensures row { has_copy 1 (world_of five_places) ≡ true }
    ensures shown { has_copy 2 (world_of five_places) ≡ true }
    ensures waits { has_copy 3 (world_of five_places) ≡ true }
    ensures saver { has_copy 4 (world_of five_places) ≡ true }
    ensures flight { has_copy 5 (world_of five_places) ≡ true }
    ensures nowhere { has_copy 6 (world_of five_places) ≡ false }
    ensures stored_row { is_stored_or_held 1 five_places ≡ true }
    ensures held_shown { is_stored_or_held 2 five_places ≡ true }
    ensures held_waits { is_stored_or_held 3 five_places ≡ true }
    ensures held_saver { is_stored_or_held 4 five_places ≡ true }
    ensures flight_is_neither { is_stored_or_held 5 five_places ≡ false }
{}

/// A row that the routed session wasn't sent is cared for by each cover alone, and by nothing that is near it.
pub fn covers_count()
    ensures nothing { is_cared_in (worked false Fetch.Idle [] [] false) ≡ false }
    ensures check { is_cared_in (worked true Fetch.Idle [] [] false) ≡ true }
    ensures fetch_topic { is_cared_in (worked false Fetch.Topic [] [] false) ≡ true }
    ensures fetch_plain { is_cared_in (worked false Fetch.Plain [] [] false) ≡ true }
    ensures flight_rereads { is_cared_in (worked false Fetch.Idle (flies 5 Stage.Reread) [] false) ≡ true }
    ensures flight_nudges { is_cared_in (worked false Fetch.Idle (flies 5 (Stage.Nudge 3 4)) [] false) ≡ true }
    ensures flight_clears { is_cared_in (worked false Fetch.Idle (flies 5 (Stage.Clear 3 4)) [] false) ≡ true }
    ensures saver_saves { is_cared_in (worked false Fetch.Idle [] (saves 5 Stage.Saving) false) ≡ true }
    ensures saver_rereads { is_cared_in (worked false Fetch.Idle [] (saves 5 Stage.Reread) false) ≡ true }
    ensures saver_nudges { is_cared_in (worked false Fetch.Idle [] (saves 5 (Stage.Nudge 3 4)) false) ≡ true }
    ensures saver_clears { is_cared_in (worked false Fetch.Idle [] (saves 5 (Stage.Clear 3 4)) false) ≡ true }
    ensures orphan { is_cared_in (worked false Fetch.Idle [] [] true) ≡ true }
    ensures other_flight { is_cared_in (worked false Fetch.Idle (flies 6 Stage.Reread) [] false) ≡ false }
    ensures nudge_at_other_node { is_cared_in (worked false Fetch.Idle (flies 5 (Stage.Nudge 2 4)) [] false) ≡ false }
    ensures nudge_of_other_moment { is_cared_in (worked false Fetch.Idle (flies 5 (Stage.Nudge 3 5)) [] false) ≡ false }
    ensures clear_at_other_node { is_cared_in (worked false Fetch.Idle (flies 5 (Stage.Clear 2 4)) [] false) ≡ false }
    ensures clear_of_other_moment { is_cared_in (worked false Fetch.Idle (flies 5 (Stage.Clear 3 5)) [] false) ≡ false }
    ensures flight_at_direct { is_cared_in (worked false Fetch.Idle (flies 5 (Stage.Direct 3 4)) [] false) ≡ false }
    ensures flight_told { is_cared_in (worked false Fetch.Idle (flies 5 (Stage.Told false)) [] false) ≡ false }
    ensures flight_stores { is_cared_in (worked false Fetch.Idle (flies 5 Stage.Store) [] false) ≡ false }
    ensures flight_has_nudged { is_cared_in (worked false Fetch.Idle (flies 5 (Stage.ToldNudge true 3 4)) [] false) ≡ false }
    ensures flight_found_none { is_cared_in (worked false Fetch.Idle (flies 5 (Stage.ToldNudge false 3 4)) [] false) ≡ false }
    ensures saver_has_nudged { is_cared_in (worked false Fetch.Idle [] (saves 5 (Stage.ToldNudge true 3 4)) false) ≡ false }
    ensures saver_found_none { is_cared_in (worked false Fetch.Idle [] (saves 5 (Stage.ToldNudge false 3 4)) false) ≡ false }
    ensures saver_at_other_node { is_cared_in (worked false Fetch.Idle [] (saves 5 (Stage.Nudge 2 4)) false) ≡ false }
    ensures other_saved { is_cared_in (worked false Fetch.Idle [] (saves 6 Stage.Saving) false) ≡ false }
    ensures topical_at_topic { is_cared_in (worked_topical Fetch.Topic) ≡ true }
    ensures topical_at_plain { is_cared_in (worked_topical Fetch.Plain) ≡ false }
    ensures unrouted { is_cared_in (beside_session None (session_with false Fetch.Idle)) ≡ true }
    ensures routed_elsewhere { is_cared_in (beside_session (Some 2) (session_with false Fetch.Idle)) ≡ true }
    ensures of_other_moment { is_cared_in (beside_session (Some 3) (record (session_with false Fetch.Idle) { at = 5 })) ≡ true }
    ensures displaced { is_cared_in (beside_session (Some 3) (record (session_with false Fetch.Idle) { displaced = true })) ≡ true }
    ensures sent { is_cared_in (beside_session (Some 3) (record (session_with false Fetch.Idle) { sent = sent_of 5 ∷ [] })) ≡ true }
    ensures sent_other { is_cared_in (beside_session (Some 3) (record (session_with false Fetch.Idle) { sent = sent_of 6 ∷ [] })) ≡ false }
{}

/// A row that is not cared for shows: in the world, and in a report.
pub fn reports_show()
    ensures uncared { is_cared (world_of (worked false Fetch.Idle [] [] false)) ≡ false }
    ensures waits { (counts (world_of (worked false Fetch.Idle [] [] false))).waiting ≡ 1 }
    ensures waits_no_more { (counts (world_of (worked true Fetch.Idle [] [] false))).waiting ≡ 0 }
    ensures counted { counts (world_of five_places) ≡ record { users = 1; stored = 1; held = 3; flights = 1; unsent = 1; orphans = 0; waiting = 1 } }
    ensures orphan { (counts (world_of (worked false Fetch.Idle [] [] true))).orphans ≡ 1 }
    ensures one_waited { none_waited (entry 1 Step.Report (Reply.Counts (counts_with 1)) ∷ []) ≡ false }
    ensures none_waited { none_waited (entry 1 Step.Report (Reply.Counts (counts_with 0)) ∷ []) ≡ true }
    ensures one_waited_later { none_waited (entry 1 Step.Report (Reply.Counts (counts_with 0)) ∷ entry 1 Step.Report (Reply.Counts (counts_with 1)) ∷ []) ≡ false }
{}

/// A message with a ttl is expired at no moment before it was accepted plus its ttl, and at every one from there on. With
/// ttl 0 it never is.
pub fn expiry_is_exact()
    ensures before { (moment : ℕ) (m : MessageValue) → moment < m.accepted + m.ask.terms.ttl → is_expired moment m ≡ false }
    ensures since { (moment : ℕ) (m : MessageValue) → 0 < m.ask.terms.ttl → m.accepted + m.ask.terms.ttl ≤ moment → is_expired moment m ≡ true }
    ensures never { (moment : ℕ) (m : MessageValue) → m.ask.terms.ttl ≡ 0 → is_expired moment m ≡ false }
{}

/// Which count each reply raises. At first the counts are 10, 20 and so on to 90. A count at its greatest stays.
pub fn tallies_count()
    ensures begun { tallied false false (Reply.Begun (id_of 5) (Some (3, 4))) some_tally ≡ record some_tally { begun = 11 } }
    ensures begun_zero { tallied false true (Reply.Begun (id_of 5) (Some (3, 4))) some_tally ≡ record some_tally { begun = 11 } }
    ensures begun_unrouted { tallied false false (Reply.Begun (id_of 5) None) some_tally ≡ record some_tally { begun = 11 } }
    ensures begun_zero_unrouted { tallied false true (Reply.Begun (id_of 5) None) some_tally ≡ record some_tally { begun = 11; ok = 21 } }
    ensures flight_ends_well { tallied true false (Reply.End 201) some_tally ≡ record some_tally { ok = 21 } }
    ensures flight_ends_badly { tallied true false (Reply.End 503) some_tally ≡ record some_tally { refused = 31 } }
    ensures saver_ends { tallied false false (Reply.End 200) some_tally ≡ some_tally }
    ensures stored { tallied true false Reply.Stored some_tally ≡ record some_tally { stored = 41 } }
    ensures page { tallied false false (Reply.Page (plain 5 ∷ plain 6 ∷ [])) some_tally ≡ record some_tally { shown = 52 } }
    ensures acked_from_direct { tallied false false (Reply.Acked AckedFrom.Direct) some_tally ≡ record some_tally { acked = 61 } }
    ensures acked_from_stored { tallied false false (Reply.Acked AckedFrom.Stored) some_tally ≡ record some_tally { acked = 61 } }
    ensures saved { tallied false false (Reply.Saved (id_of 5)) some_tally ≡ record some_tally { saved = 71 } }
    ensures left { tallied false false (Reply.Left (id_of 5) NoChannel) some_tally ≡ record some_tally { left = 81 } }
    ensures killed { tallied false false (Reply.Killed 7 8) some_tally ≡ record some_tally { lost = 97 } }
    ensures due { tallied false false Reply.Due some_tally ≡ some_tally }
    ensures full_begun { tallied false true (Reply.Begun (id_of 5) None) full_tally ≡ full_tally }
    ensures full_ok { tallied true false (Reply.End 201) full_tally ≡ full_tally }
    ensures full_refused { tallied true false (Reply.End 503) full_tally ≡ full_tally }
    ensures full_stored { tallied true false Reply.Stored full_tally ≡ full_tally }
    ensures full_page { tallied false false (Reply.Page (plain 5 ∷ plain 6 ∷ [])) full_tally ≡ full_tally }
    ensures full_acked { tallied false false (Reply.Acked AckedFrom.Direct) full_tally ≡ full_tally }
    ensures full_saved { tallied false false (Reply.Saved (id_of 5)) full_tally ≡ full_tally }
    ensures full_killed { tallied false false (Reply.Killed 7 8) full_tally ≡ full_tally }
    ensures of_flight { is_of_flight (Step.Heard (Actor.Flight op_one)) ≡ true }
    ensures of_saver { is_of_flight (Step.Heard (Actor.Saver (record { uaid = record { 0 = 1 }; node = 3; at = 4 }))) ≡ false }
{}

/// After a legal history that begins with an empty shard each cell has a user or a flight, stands under its user's number,
/// and no two stand under one number.
pub fn cells_are_there()
    ensures there { (shard next : ℕ) (entries : List (Entry Step Reply)) → IsLegal step (start shard next) entries → All (λ e. HasUserOrFlight e.1) (world_after step (start shard next) entries).cells }
    ensures keyed { (shard next : ℕ) (entries : List (Entry Step Reply)) → IsLegal step (start shard next) entries → All (λ e. e.0 ≡ e.1.uaid.0) (world_after step (start shard next) entries).cells }
    ensures distinct { (shard next : ℕ) (entries : List (Entry Step Reply)) → IsLegal step (start shard next) entries → AllPairs (λ e f. e.0 ≢ f.0) (world_after step (start shard next) entries).cells }
{}

/// How a new message stands to one that is kept.
pub fn stands_by_number()
    ensures same { (m k : MessageValue) → m.id ≡ k.id → stands m k ≡ Stands.Same }
    ensures other_channel { (m k : MessageValue) → m.id ≢ k.id → m.chid ≢ k.chid → stands m k ≡ Stands.Apart }
    ensures other_topic { (m k : MessageValue) → m.id ≢ k.id → m.ask.terms.topic ≢ k.ask.terms.topic → stands m k ≡ Stands.Apart }
    ensures no_topic { (m k : MessageValue) → m.id ≢ k.id → m.ask.terms.topic ≡ None → stands m k ≡ Stands.Apart }
    ensures newer { (m k : MessageValue) (topic : List ℕ) → m.id ≢ k.id → m.chid ≡ k.chid → m.ask.terms.topic ≡ Some topic → k.ask.terms.topic ≡ Some topic → k.id.number < m.id.number → stands m k ≡ Stands.New }
    ensures older { (m k : MessageValue) (topic : List ℕ) → m.id ≢ k.id → m.chid ≡ k.chid → m.ask.terms.topic ≡ Some topic → k.ask.terms.topic ≡ Some topic → m.id.number ≤ k.id.number → stands m k ≡ Stands.Kept }
{}

/// A message stays as it is exactly where a row has its very id.
pub fn the_very_row_stays()
    ensures { (m : MessageValue) (rows : List Row) → (verdict m rows ≡ Verdict.Stays) ↔ ((r : Row) × Contains rows r × (r.message.id ≡ m.id)) }
{}

/// What comes of a message among the rows.
pub fn verdicts_count()
    ensures alone { verdict (topical 5) [] ≡ Verdict.Joins }
    ensures beside_older { verdict (topical 5) (row_of (topical 3) ∷ []) ≡ Verdict.Joins }
    ensures beside_newer { verdict (topical 5) (row_of (topical 9) ∷ []) ≡ Verdict.Older }
    ensures beside_other { verdict (topical 5) (row_of (message_of 9 50 (Some (98 ∷ []))) ∷ []) ≡ Verdict.Joins }
    ensures plain_beside_newer { verdict (plain 5) (row_of (plain 9) ∷ []) ≡ Verdict.Joins }
    ensures last_place { verdict (plain 2000) (rows_down plain 999) ≡ Verdict.Joins }
    ensures full { verdict (plain 2000) (rows_down plain 1000) ≡ Verdict.Full }
    ensures full_for_topic { verdict (topical 2000) (rows_down plain 1000) ≡ Verdict.Full }
    ensures full_beside_older { verdict (topical 2000) (row_of (topical 1500) ∷ rows_down plain 999) ≡ Verdict.Joins }
    ensures full_beside_newer { verdict (topical 2000) (row_of (topical 3000) ∷ rows_down plain 999) ≡ Verdict.Older }
    ensures full_beside_itself { verdict (plain 1) (rows_down plain 1000) ≡ Verdict.Stays }
{}

/// A page has the first ten, in order: of a kind of rows that weren't sent, after which the session is to look again
/// where more are left; or of a session's inbox, which has at most 500 messages with those that were shown.
pub fn pages_have_ten()
    ensures ten_of_twelve { row_page false [] (rows_down plain 12) ≡ map plain (12 ∷ 11 ∷ 10 ∷ 9 ∷ 8 ∷ 7 ∷ 6 ∷ 5 ∷ 4 ∷ 3 ∷ []) }
    ensures ten_topical_of_twelve { row_page true [] (rows_down topical 12) ≡ map topical (12 ∷ 11 ∷ 10 ∷ 9 ∷ 8 ∷ 7 ∷ 6 ∷ 5 ∷ 4 ∷ 3 ∷ []) }
    ensures unsent { row_page false (sent_of 12 ∷ sent_of 4 ∷ []) (rows_down plain 5) ≡ map plain (5 ∷ 3 ∷ 2 ∷ 1 ∷ []) }
    ensures no_topical { row_page false [] (row_of (topical 1) ∷ row_of (plain 2) ∷ row_of (topical 3) ∷ []) ≡ plain 2 ∷ [] }
    ensures no_plain { row_page true [] (row_of (plain 1) ∷ row_of (topical 2) ∷ row_of (plain 3) ∷ []) ≡ topical 2 ∷ [] }
    ensures twelve_are_looked_at_again { (fetched false Fetch.Idle (rows_down plain 12) (session_with false Fetch.Plain)).check ≡ true }
    ensures ten_are_not { (fetched false Fetch.Idle (rows_down plain 10) (session_with false Fetch.Plain)).check ≡ false }
    ensures twelve_topical_are_looked_at_again { (fetched true Fetch.Plain (rows_down topical 12) (session_with false Fetch.Topic)).check ≡ true }
    ensures ten_topical_are_not { (fetched true Fetch.Plain (rows_down topical 10) (session_with false Fetch.Topic)).check ≡ false }
    ensures fetched_are_sent { (fetched false Fetch.Idle (rows_down plain 2) (session_with false Fetch.Plain)).sent ≡ sent_of 2 ∷ sent_of 1 ∷ [] }
    ensures inbox { next_page 149 (holds 0 12) ≡ map plain (12 ∷ 11 ∷ 10 ∷ 9 ∷ 8 ∷ 7 ∷ 6 ∷ 5 ∷ 4 ∷ 3 ∷ []) }
    ensures inbox_expired { next_page 150 (holds 0 12) ≡ [] }
    ensures room { has_room (holds 300 199) ≡ true }
    ensures no_room { has_room (holds 300 200) ≡ false }
{}
