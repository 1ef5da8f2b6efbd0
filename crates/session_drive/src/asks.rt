//! One step of a session, and what is sent by its reply.
ghost use Rattle.std.specs.Prelude.{◌≡◌, ◌<◌, true, Some};
ghost use Rattle.push_model.specs.Steps.{proper};
ghost use Rattle.push_model.specs.Caring.{is_cared};
ghost use Rattle.push_model.specs.DeskViews.{world_at};
ghost use Rattle.session_drive.specs.Chats.{Said, chat_view, end_of};
ghost use Rattle.session_drive.specs.Runs.{sides};
ghost use Rattle.session_drive.specs.Asked.{AskEnds, Asked, IsCount, page_texts};

use crate::ends::SessionEnd;
use crate::sends::send_page;
use push_model::{Desks, Reply, Step};
use push_outside::Chat;
use std::alloc::Global;

// Sends the messages of a page, if the reply is one.
#[tactic(auto, using(crate::proofs::ChatLemmas::said_nothing, crate::proofs::ChatLemmas::page_ends))]
fn show_reply<H: Chat>(alloc: Global, chat: &mut H, reply: &Reply) -> Result<usize, SessionEnd>
    ensures ends { AskEnds IsCount result (Some reply.now) }
    ensures said { Said (end_of result) (page_texts reply.now) (chat_view H.left H.taken H.sent H.code H.faults chat.old) (chat_view H.left H.taken H.sent H.code H.faults chat.new) }
{
    match reply {
        Reply::NoSession => Err(SessionEnd::Ended),
        Reply::Page(page) => match send_page(alloc, chat, page) {
            Ok(()) => Ok(page.len()),
            Err(end) => Err(end),
        },
        _ => Ok(0),
    }
}

/// Makes a step, and sends the messages of its page. It gives how many there are.
#[tactic(auto, using(crate::proofs::ChatLemmas::said_nothing))]
pub fn show<D: Desks, H: Chat>(
    alloc: Global,
    desks: &mut D,
    chat: &mut H,
    shard: u8,
    step: Step,
) -> Result<usize, SessionEnd>
    requires within { shard < (D.view desks.old).size }
    requires allowed { proper ((D.view desks.old).number shard) step ≡ true }
    ensures asked { Asked shard step page_texts IsCount result (sides D.view H.left H.taken H.sent H.code H.faults desks.old chat.old) (sides D.view H.left H.taken H.sent H.code H.faults desks.new chat.new) }
    ensures cared { is_cared (world_at (D.view desks.new) shard) ≡ true }
{
    match desks.call(alloc, shard, step) {
        Ok(reply) => show_reply(alloc, chat, &reply),
        Err(_) => Err(SessionEnd::NoMemory),
    }
}
