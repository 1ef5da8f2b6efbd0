//! One step that is answered with one text.
ghost use Rattle.std.specs.Prelude.{◌≡◌, ◌<◌, ◌∷◌, [], ℕ, true, Some};
ghost use Rattle.push_model.specs.Steps.{proper};
ghost use Rattle.client_messages.specs.ServerTexts.{server_text};
ghost use Rattle.session_drive.specs.Chats.{Said, chat_view, end_of};
ghost use Rattle.session_drive.specs.Runs.{Runs, sides};
ghost use Rattle.session_drive.specs.Asked.{AskEnds, Asked, IsAny};
ghost use Rattle.session_drive.specs.Answers.{one_step, unless_gone};

use crate::ends::SessionEnd;
use crate::sends::send;
use client_messages::ServerMsg;
use push_model::{Desks, Reply, Step};
use push_outside::Chat;
use std::alloc::Global;

// Sends that text, unless the session is gone.
#[tactic(auto, using(crate::proofs::ChatLemmas::said_ended, crate::proofs::AnswerLemmas::sent_ends))]
fn say_reply<H: Chat>(
    alloc: Global,
    chat: &mut H,
    reply: &Reply,
    msg: &ServerMsg,
) -> Result<(), SessionEnd>
    ensures ends { AskEnds IsAny result (Some reply.now) }
    ensures said { Said (end_of result) (unless_gone (server_text msg.now ∷ []) reply.now) (chat_view H.left H.taken H.sent H.code H.faults chat.old) (chat_view H.left H.taken H.sent H.code H.faults chat.new) }
{
    match reply {
        Reply::NoSession => Err(SessionEnd::Ended),
        _ => send(alloc, chat, msg),
    }
}

fn say_after<D: Desks, H: Chat>(
    alloc: Global,
    desks: &mut D,
    chat: &mut H,
    shard: u8,
    step: Step,
    msg: &ServerMsg,
) -> Result<(), SessionEnd>
    requires within { shard < (D.view desks.old).size }
    requires allowed { proper ((D.view desks.old).number shard) step ≡ true }
    ensures { Asked shard step (unless_gone (server_text msg.now ∷ [])) IsAny result (sides D.view H.left H.taken H.sent H.code H.faults desks.old chat.old) (sides D.view H.left H.taken H.sent H.code H.faults desks.new chat.new) }
{
    match desks.call(alloc, shard, step) {
        Ok(reply) => say_reply(alloc, chat, &reply, msg),
        Err(_) => Err(SessionEnd::NoMemory),
    }
}

/// Makes a step, and sends that text, unless the step replied NoSession.
pub fn say_once<D: Desks, H: Chat>(
    alloc: Global,
    desks: &mut D,
    chat: &mut H,
    shard: u8,
    step: Step,
    msg: &ServerMsg,
) -> Result<(), SessionEnd>
    requires within { shard < (D.view desks.old).size }
    requires allowed { proper ((D.view desks.old).number shard) step ≡ true }
    ensures { Runs (one_step shard step) (unless_gone (server_text msg.now ∷ [])) result (sides D.view H.left H.taken H.sent H.code H.faults desks.old chat.old) (sides D.view H.left H.taken H.sent H.code H.faults desks.new chat.new) }
{
    say_after(alloc, desks, chat, shard, step, msg)
}
