//! Sending what the server says.
ghost use Rattle.std.specs.Prelude.{◌∷◌, [], map};
ghost use Rattle.client_messages.specs.ServerTexts.{server_text, notification_text};
ghost use Rattle.session_drive.specs.Chats.{Sends, chat_view};

use crate::ends::SessionEnd;
use client_messages::{ServerMsg, write_server};
use push_model::{Message, Pages};
use push_outside::{Chat, Sent};
use std::alloc::Global;

fn send_text<H: Chat>(alloc: Global, chat: &mut H, text: &str) -> Result<(), SessionEnd>
    ensures { Sends result (text.now ∷ []) (chat_view H.left H.taken H.sent H.code H.faults chat.old) (chat_view H.left H.taken H.sent H.code H.faults chat.new) }
{
    match chat.send(alloc, text) {
        Sent::Done => Ok(()),
        Sent::Failed => Err(SessionEnd::ChatFault),
        Sent::NoMemory => Err(SessionEnd::NoMemory),
    }
}

/// Sends what the server says.
#[tactic(auto, using(crate::proofs::ChatLemmas::sends_nothing))]
pub fn send<H: Chat>(alloc: Global, chat: &mut H, msg: &ServerMsg) -> Result<(), SessionEnd>
    ensures { Sends result (server_text msg.now ∷ []) (chat_view H.left H.taken H.sent H.code H.faults chat.old) (chat_view H.left H.taken H.sent H.code H.faults chat.new) }
{
    match write_server(alloc, msg) {
        Ok(text) => send_text(alloc, chat, text.as_str()),
        Err(_) => Err(SessionEnd::NoMemory),
    }
}

fn send_message<H: Chat>(alloc: Global, chat: &mut H, message: &Message) -> Result<(), SessionEnd>
    ensures { Sends result (notification_text message.now ∷ []) (chat_view H.left H.taken H.sent H.code H.faults chat.old) (chat_view H.left H.taken H.sent H.code H.faults chat.new) }
{
    send(alloc, chat, &ServerMsg::Notification(message))
}

/// Sends each message of a page as a notification, in order.
pub fn send_page<H: Chat>(alloc: Global, chat: &mut H, page: &Pages) -> Result<(), SessionEnd>
    ensures { Sends result (map notification_text page.now) (chat_view H.left H.taken H.sent H.code H.faults chat.old) (chat_view H.left H.taken H.sent H.code H.faults chat.new) }
{
    for place in 0..page.len() {
        send_message(alloc, chat, page.at(place))?;
    }
    Ok(())
}
