//! What a session does for a text of its client.
ghost use Rattle.std.specs.Prelude.{◌≡◌, ◌<◌};
ghost use Rattle.client_messages.specs.ClientTexts.{client_message};
ghost use Rattle.session_drive.specs.Shards.{shard_of};
ghost use Rattle.session_drive.specs.Runs.{Runs, sides};
ghost use Rattle.session_drive.specs.Answers.{MessageAnswered, TextAnswered, acking, acks_of, no_texts};

use crate::acks::ack_all;
use crate::ends::SessionEnd;
use crate::registers::register;
use crate::says::say_once;
use crate::shards::shard_on;
use client_messages::{ClientFault, ClientMsg, Port, ServerMsg, Updates, read_client};
use push_model::{Desks, SessionId, Step};
use push_outside::{Chat, Draw};
use std::alloc::Global;

// Acknowledges messages; nothing is sent.
fn acknowledge<D: Desks, H: Chat>(
    alloc: Global,
    desks: &mut D,
    chat: &H,
    shard: u8,
    s: SessionId,
    updates: &Updates,
) -> Result<(), SessionEnd>
    requires { shard < (D.view desks.old).size }
    ensures { Runs (acking shard s (acks_of shard updates.now)) no_texts result (sides D.view H.left H.taken H.sent H.code H.faults desks.old chat.now) (sides D.view H.left H.taken H.sent H.code H.faults desks.new chat.now) }
{
    ack_all(alloc, desks, shard, s, updates)
}

// Answers what the client says, on the session's shard.
#[tactic(auto, using(crate::proofs::AnswerLemmas::still))]
fn answer<D: Desks, H: Chat, G: Draw>(
    alloc: Global,
    desks: &mut D,
    chat: &mut H,
    draw: &mut G,
    port: Port,
    shard: u8,
    s: SessionId,
    msg: &ClientMsg,
) -> Result<(), SessionEnd>
    requires { shard < (D.view desks.old).size }
    ensures { MessageAnswered shard s port msg.now result (sides D.view H.left H.taken H.sent H.code H.faults desks.old chat.old) (sides D.view H.left H.taken H.sent H.code H.faults desks.new chat.new) (G.given draw.old) (G.given draw.new) }
{
    match msg {
        ClientMsg::Hello(_) => Err(SessionEnd::Refused),
        ClientMsg::Register(chid) => register(alloc, desks, chat, draw, port, shard, s, *chid),
        ClientMsg::Unregister(chid) => {
            let msg = ServerMsg::Unregistered(*chid);
            say_once(alloc, desks, chat, shard, Step::Unregister(s, *chid), &msg)
        }
        ClientMsg::Ack(updates) => acknowledge(alloc, desks, chat, shard, s, updates),
        ClientMsg::Nack | ClientMsg::BroadcastSubscribe => Ok(()),
        ClientMsg::Ping => say_once(alloc, desks, chat, shard, Step::Renew(s), &ServerMsg::Pong),
    }
}

/// Answers one text of the session's client, after its hello.
///
/// The text is read as the client's protocol says. Register makes Register with a token that is drawn, until one isn't
/// another channel's, with four at most, and sends the endpoint of the token that was replied. Unregister makes
/// Unregister and sends that it is done. An acknowledgement makes Ack for each message that it names on the session's
/// shard, in order. A ping makes Renew and is answered. The others change nothing. `Refused` comes exactly where the text
/// isn't read, or is a hello, `Ended` exactly where a step replied NoSession, which nothing follows, and `TokenSpent`
/// exactly where four drawn tokens were taken. `ChatFault` comes only where the chat's count of faults rose. Want of
/// memory ends it at that place. Mail stays, and so do the items left, the texts taken and the code of the chat.
pub fn answer_text<D: Desks, H: Chat, G: Draw>(
    alloc: Global,
    desks: &mut D,
    chat: &mut H,
    draw: &mut G,
    port: Port,
    s: SessionId,
    text: &str,
) -> Result<(), SessionEnd>
    ensures { TextAnswered (shard_of s.uaid (D.view desks.old).size) s port (client_message text.now) result (sides D.view H.left H.taken H.sent H.code H.faults desks.old chat.old) (sides D.view H.left H.taken H.sent H.code H.faults desks.new chat.new) (G.given draw.old) (G.given draw.new) }
{
    match read_client(alloc, text) {
        Ok(msg) => {
            let shard = shard_on(desks, s.uaid);
            answer(alloc, desks, chat, draw, port, shard, s, &msg)
        }
        Err(ClientFault::NoMemory) => Err(SessionEnd::NoMemory),
        Err(_) => Err(SessionEnd::Refused),
    }
}
