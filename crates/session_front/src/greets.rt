//! What is answered to an item of a chat.
ghost use Rattle.std.specs.Prelude.{◌⊎◌, ◌∷◌, [], Ok, Err, None};
ghost use Rattle.client_messages.specs.ServerTexts.{hello_text};
ghost use Rattle.session_drive.specs.Chats.{Sends, chat_view};
ghost use Rattle.session_drive.specs.declared.ends.SessionEnd.TheVariants.{NoMemory};
ghost use Rattle.client_messages.specs.ClientTexts.{client_message};
ghost use Rattle.session_drive.specs.Runs.{sides};
ghost use Rattle.session_front.specs.Pumps.{FirstAnswered, Greets, ItemAnswered, OnlySays, SaysFirst, TextOf};

use crate::live::Place;
use client_messages::{ClientFault, ClientMsg, ServerMsg, read_client};
use push_model::{Desks, NodeId, SessionId, Uaid};
use push_outside::{Chat, Clock, Draw, Heard};
use session_drive::{SessionEnd, answer_text, hello, send};
use std::alloc::Global;

/// The session that is attached after an answer, and whether the answer ended it.
#[derive(Clone, Copy, Debug)]
pub struct Answered {
    /// The session that is attached, if one is.
    pub s: Option<SessionId>,
    /// Whether it goes on.
    pub answer: Result<(), SessionEnd>,
}

// Tells the client that its session has begun.
fn say_hello<H: Chat>(alloc: Global, chat: &mut H, s: SessionId) -> Result<(), SessionEnd>
    ensures { Sends result (hello_text s.uaid ∷ []) (chat_view H.left H.taken H.sent H.code H.faults chat.old) (chat_view H.left H.taken H.sent H.code H.faults chat.new) }
{
    send(alloc, chat, &ServerMsg::Hello(s.uaid))
}

// Begins a session, and tells its client so.
fn greet<D: Desks, H: Chat, C: Clock, G: Draw>(
    alloc: Global,
    desks: &mut D,
    chat: &mut H,
    clock: &C,
    draw: &mut G,
    node: NodeId,
    uaid: Option<Uaid>,
) -> Answered
    ensures { Greets node uaid (C.moment clock.now) result.answer result.s (sides D.view H.left H.taken H.sent H.code H.faults desks.old chat.old) (sides D.view H.left H.taken H.sent H.code H.faults desks.new chat.new) (G.given draw.old) (G.given draw.new) }
{
    match hello(alloc, desks, clock, draw, node, uaid) {
        Ok(s) => {
            let answer = say_hello(alloc, chat, s);
            Answered { s: Some(s), answer }
        }
        Err(end) => Answered {
            s: None,
            answer: Err(end),
        },
    }
}

/// What a client says first.
#[derive(Clone, Copy, Debug)]
enum First {
    /// Hello, as that user, if it names one.
    Hello(Option<Uaid>),
    /// Something else.
    Other,
    /// There was no memory to read it.
    NoMemory,
}

fn first_by(msg: &ClientMsg) -> First
    ensures { SaysFirst (Ok msg.now) result }
{
    match msg {
        ClientMsg::Hello(uaid) => First::Hello(*uaid),
        _ => First::Other,
    }
}

#[tactic(auto, using(crate::proofs::PumpLemmas::no_hello))]
fn read_first(alloc: Global, text: &str) -> First
    ensures { SaysFirst (client_message text.now) result }
{
    match read_client(alloc, text) {
        Ok(msg) => first_by(&msg),
        Err(ClientFault::NoMemory) => First::NoMemory,
        Err(_) => First::Other,
    }
}

// Answers what a client says first.
fn answer_first<D: Desks, H: Chat, C: Clock, G: Draw>(
    alloc: Global,
    desks: &mut D,
    chat: &mut H,
    clock: &C,
    draw: &mut G,
    node: NodeId,
    text: &str,
) -> Answered
    ensures { FirstAnswered node (client_message text.now) (C.moment clock.now) result.answer result.s (sides D.view H.left H.taken H.sent H.code H.faults desks.old chat.old) (sides D.view H.left H.taken H.sent H.code H.faults desks.new chat.new) (G.given draw.old) (G.given draw.new) ⊎ OnlySays (Err NoMemory) None result.answer result.s (sides D.view H.left H.taken H.sent H.code H.faults desks.old chat.old) (sides D.view H.left H.taken H.sent H.code H.faults desks.new chat.new) (G.given draw.old) (G.given draw.new) }
{
    match read_first(alloc, text) {
        First::Hello(uaid) => greet(alloc, desks, chat, clock, draw, node, uaid),
        First::Other => Answered {
            s: None,
            answer: Err(SessionEnd::Refused),
        },
        First::NoMemory => Answered {
            s: None,
            answer: Err(SessionEnd::NoMemory),
        },
    }
}

fn answer_next<D: Desks, H: Chat, C: Clock, G: Draw>(
    alloc: Global,
    desks: &mut D,
    chat: &mut H,
    clock: &C,
    draw: &mut G,
    place: &Place,
    s: Option<SessionId>,
    text: &str,
) -> Answered
    ensures { TextOf place.now.node place.now.port s text.now (C.moment clock.now) result.answer result.s (sides D.view H.left H.taken H.sent H.code H.faults desks.old chat.old) (sides D.view H.left H.taken H.sent H.code H.faults desks.new chat.new) (G.given draw.old) (G.given draw.new) }
{
    match s {
        None => answer_first(alloc, desks, chat, clock, draw, place.node, text),
        Some(s) => {
            let answer = answer_text(alloc, desks, chat, draw, place.port, s, text);
            Answered { s: Some(s), answer }
        }
    }
}

/// Answers an item, for the session, if there is one.
pub fn answer_item<D: Desks, H: Chat, C: Clock, G: Draw>(
    alloc: Global,
    desks: &mut D,
    chat: &mut H,
    clock: &C,
    draw: &mut G,
    place: &Place,
    s: Option<SessionId>,
    heard: &Heard,
) -> Answered
    ensures { ItemAnswered place.now.node place.now.port s heard.now (C.moment clock.now) result.answer result.s (sides D.view H.left H.taken H.sent H.code H.faults desks.old chat.old) (sides D.view H.left H.taken H.sent H.code H.faults desks.new chat.new) (G.given draw.old) (G.given draw.new) }
{
    match heard {
        Heard::Text(text) => {
            answer_next(alloc, desks, chat, clock, draw, place, s, text.as_str())
        }
        Heard::Binary | Heard::TooLong => Answered {
            s,
            answer: Err(SessionEnd::Refused),
        },
        Heard::NotYet => Answered { s, answer: Ok(()) },
        Heard::End => Answered {
            s,
            answer: Err(SessionEnd::Left),
        },
        Heard::Failed => Answered {
            s,
            answer: Err(SessionEnd::ChatFault),
        },
        Heard::NoMemory => Answered {
            s,
            answer: Err(SessionEnd::NoMemory),
        },
    }
}
