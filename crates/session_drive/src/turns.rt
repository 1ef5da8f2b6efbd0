//! One turn of a session.
ghost use Rattle.std.specs.Prelude.{◌≡◌, ◌<◌, true, Some};
ghost use Rattle.push_model.specs.Caring.{is_cared};
ghost use Rattle.push_model.specs.Replies.{is_check_reply};
ghost use Rattle.push_model.specs.DeskViews.{world_at};
ghost use Rattle.push_model.specs.declared.step.Step.TheVariants.{TakeCheck};
ghost use Rattle.session_drive.specs.Shards.{shard_of};
ghost use Rattle.session_drive.specs.Chats.{ChatView, Said, end_of};
ghost use Rattle.session_drive.specs.Runs.{sides};
ghost use Rattle.session_drive.specs.Asked.{AskEnds, Asked, page_texts};
ghost use Rattle.session_drive.specs.Turns.{IsDue, TurnMade, turned};

use crate::asks::show;
use crate::ends::SessionEnd;
use crate::shards::shard_on;
use push_model::{Desks, Reply, SessionId, Step};
use push_outside::Chat;
use std::alloc::Global;

/// What a turn did.
#[derive(Clone, Copy, Debug, PartialEq, Eq)]
pub enum Turned {
    /// No message was there, and nothing was to be fetched.
    Idle,
    /// So many notifications were sent, up to 2^64 - 1; where stored messages were to be fetched this may be 0.
    Sent(usize),
}

// Whether the session is due; nothing is sent by such a reply.
#[tactic(auto, using(crate::proofs::ChatLemmas::said_nothing, crate::proofs::ChatLemmas::said_ended))]
fn due_by(reply: &Reply) -> Result<bool, SessionEnd>
    requires { is_check_reply reply.now ≡ true }
    ensures ends { AskEnds IsDue result (Some reply.now) }
    ensures said { (a : ChatView) → Said (end_of result) (page_texts reply.now) a a }
{
    match reply {
        Reply::NoSession => Err(SessionEnd::Ended),
        Reply::Due => Ok(true),
        Reply::NotDue => Ok(false),
        _ => unreachable!(),
    }
}

// Asks whether the session is to look at the stored messages.
fn check<D: Desks, H: Chat>(
    alloc: Global,
    desks: &mut D,
    chat: &H,
    shard: u8,
    s: SessionId,
) -> Result<bool, SessionEnd>
    requires { shard < (D.view desks.old).size }
    ensures asked { Asked shard (TakeCheck s) page_texts IsDue result (sides D.view H.left H.taken H.sent H.code H.faults desks.old chat.now) (sides D.view H.left H.taken H.sent H.code H.faults desks.new chat.now) }
    ensures cared { is_cared (world_at (D.view desks.new) shard) ≡ true }
{
    match desks.call(alloc, shard, Step::TakeCheck(s)) {
        Ok(reply) => due_by(&reply),
        Err(_) => unreachable!(),
    }
}

fn idle_or_sent(count: usize) -> Turned
    ensures { result ≡ turned count }
{
    if count == 0 {
        Turned::Idle
    } else {
        Turned::Sent(count)
    }
}

// One turn on the session's shard.
fn turn_on<D: Desks, H: Chat>(
    alloc: Global,
    desks: &mut D,
    chat: &mut H,
    shard: u8,
    s: SessionId,
) -> Result<Turned, SessionEnd>
    requires { shard < (D.view desks.old).size }
    ensures made { TurnMade shard s result (sides D.view H.left H.taken H.sent H.code H.faults desks.old chat.old) (sides D.view H.left H.taken H.sent H.code H.faults desks.new chat.new) }
    ensures cared { is_cared (world_at (D.view desks.new) shard) ≡ true }
{
    let direct = show(alloc, desks, chat, shard, Step::TakeDirect(s))?;
    let due = check(alloc, desks, chat, shard, s)?;
    if !due {
        return Ok(idle_or_sent(direct));
    }
    let topic = show(alloc, desks, chat, shard, Step::FetchTopic(s))?;
    let plain = show(alloc, desks, chat, shard, Step::FetchPlain(s))?;
    Ok(Turned::Sent(direct.saturating_add(topic).saturating_add(plain)))
}

/// One turn of a session: it sends the session's next messages, and, where it is due, its next stored ones.
///
/// At most four steps are made, in this order: TakeDirect, TakeCheck and, where that replied Due, FetchTopic and
/// FetchPlain. Each message of their pages is sent as one notification, in order. `Idle` comes exactly where the page of
/// TakeDirect was empty and TakeCheck replied NotDue. `Ended` comes exactly where a step replied NoSession, and nothing
/// follows it. `ChatFault` comes only where the chat's count of faults rose; there and at `NoMemory` a front of the
/// notifications was sent. Mail stays, and so do the items left, the texts taken and the code of the chat. In the world
/// that the session's shard is left in each stored row that a routed session wasn't sent is covered.
pub fn turn<D: Desks, H: Chat>(
    alloc: Global,
    desks: &mut D,
    chat: &mut H,
    s: SessionId,
) -> Result<Turned, SessionEnd>
    ensures made { TurnMade (shard_of s.uaid (D.view desks.old).size) s result (sides D.view H.left H.taken H.sent H.code H.faults desks.old chat.old) (sides D.view H.left H.taken H.sent H.code H.faults desks.new chat.new) }
    ensures cared { is_cared (world_at (D.view desks.new) (shard_of s.uaid (D.view desks.old).size)) ≡ true }
{
    let shard = shard_on(desks, s.uaid);
    turn_on(alloc, desks, chat, shard, s)
}
