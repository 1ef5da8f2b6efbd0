//! One pump of a session.
ghost use Rattle.std.specs.Prelude.{◌≡◌, ◌||◌, Option, Result, Ok, Some};
ghost use Rattle.session_drive.specs.Chats.{chat_view};
ghost use Rattle.session_drive.specs.Ends.{close_code};
ghost use Rattle.session_drive.specs.Runs.{sides};
ghost use Rattle.session_drive.specs.Shards.{shard_of};
ghost use Rattle.session_drive.specs.Turns.{TurnMade};
ghost use Rattle.session_drive.specs.declared.ends.SessionEnd.{SessionEnd};
ghost use Rattle.session_drive.specs.declared.turns.Turned.{Turned};
ghost use Rattle.session_front.specs.Pumps.{Finishes, Hears, Leaves, PumpMade, Serves, Shuts, ThenTurns, TurnsWhere, due_after, is_idle, is_not_yet, is_text, pumped, served};

use crate::greets::answer_item;
use crate::live::{Live, Place, Pumped};
use node_routes::NodeLink;
use push_model::{Desks, SessionId};
use push_outside::{Chat, Clock, Draw, Heard};
use session_drive::{SessionEnd, Turned, shut, turn};
use std::alloc::Global;

fn is_text(heard: &Heard) -> bool
    ensures { result ≡ is_text heard.now }
{
    matches!(heard, Heard::Text(_))
}

// Whether it is time for a turn, if a session is there.
fn is_time(due: bool, heard: &Heard) -> bool
    ensures { result ≡ (due || is_text heard.now) }
{
    due || is_text(heard)
}

fn is_not_yet(heard: &Heard) -> bool
    ensures { result ≡ is_not_yet heard.now }
{
    matches!(heard, Heard::NotYet)
}

fn is_idle(turned: Option<Turned>) -> bool
    ensures { result ≡ is_idle turned }
{
    match turned {
        None => true,
        Some(Turned::Idle) => true,
        Some(Turned::Sent(_)) => false,
    }
}

fn due_after(turned: Option<Turned>, due: bool) -> bool
    ensures { result ≡ due_after turned due }
{
    match turned {
        None => due,
        Some(_) => !is_idle(turned),
    }
}

// Takes one item.
fn take_one<H: Chat>(alloc: Global, chat: &mut H) -> Heard
    ensures { Hears result (chat_view H.left H.taken H.sent H.code H.faults chat.old) (chat_view H.left H.taken H.sent H.code H.faults chat.new) }
{
    chat.take(alloc)
}

// ---- a turn

fn turn_of<D: Desks, H: Chat>(
    alloc: Global,
    desks: &mut D,
    chat: &mut H,
    s: SessionId,
) -> Result<Option<Turned>, SessionEnd>
    ensures { (turned : Result Turned SessionEnd) × TurnMade (shard_of s.uaid (D.view desks.old).size) s turned (sides D.view H.left H.taken H.sent H.code H.faults desks.old chat.old) (sides D.view H.left H.taken H.sent H.code H.faults desks.new chat.new) × (result ≡ served (Ok tt) (Some turned)) }
{
    match turn(alloc, desks, chat, s) {
        Ok(turned) => Ok(Some(turned)),
        Err(end) => Err(end),
    }
}

// A turn, where it is time for one and a session is there.
fn turn_where<D: Desks, H: Chat>(
    alloc: Global,
    desks: &mut D,
    chat: &mut H,
    time: bool,
    s: Option<SessionId>,
) -> Result<Option<Turned>, SessionEnd>
    ensures { (turned : Option (Result Turned SessionEnd)) × TurnsWhere s time turned (sides D.view H.left H.taken H.sent H.code H.faults desks.old chat.old) (sides D.view H.left H.taken H.sent H.code H.faults desks.new chat.new) × (result ≡ served (Ok tt) turned) }
{
    match s {
        None => Ok(None),
        Some(s) => {
            if !time {
                return Ok(None);
            }
            turn_of(alloc, desks, chat, s)
        }
    }
}

fn then_turn<D: Desks, H: Chat>(
    alloc: Global,
    desks: &mut D,
    chat: &mut H,
    answer: Result<(), SessionEnd>,
    time: bool,
    s: Option<SessionId>,
) -> Result<Option<Turned>, SessionEnd>
    ensures { (turned : Option (Result Turned SessionEnd)) × ThenTurns answer time s turned (sides D.view H.left H.taken H.sent H.code H.faults desks.old chat.old) (sides D.view H.left H.taken H.sent H.code H.faults desks.new chat.new) × (result ≡ served answer turned) }
{
    match answer {
        Ok(()) => turn_where(alloc, desks, chat, time, s),
        Err(end) => Err(end),
    }
}

// ---- the end

fn finish<H: Chat>(chat: &mut H, end: SessionEnd)
    ensures { Finishes (close_code end) (chat_view H.left H.taken H.sent H.code H.faults chat.old) (chat_view H.left H.taken H.sent H.code H.faults chat.new) }
{
    match end.close_code() {
        Some(code) => {
            let _sent = chat.finish(code);
        }
        None => {}
    }
}

fn shut_all<D: Desks, L: NodeLink<D>>(
    alloc: Global,
    desks: &mut D,
    link: &mut L,
    s: Option<SessionId>,
)
    ensures { Shuts s (D.view desks.old) (D.view desks.new) (L.faults link.old) (L.faults link.new) }
{
    match s {
        Some(s) => {
            let _saved = shut(alloc, desks, link, s);
        }
        None => {}
    }
}

fn leave<D: Desks, H: Chat, L: NodeLink<D>>(
    alloc: Global,
    desks: &mut D,
    chat: &mut H,
    link: &mut L,
    s: Option<SessionId>,
    end: SessionEnd,
)
    ensures { Leaves end s (sides D.view H.left H.taken H.sent H.code H.faults desks.old chat.old) (sides D.view H.left H.taken H.sent H.code H.faults desks.new chat.new) (L.faults link.old) (L.faults link.new) }
{
    shut_all(alloc, desks, link, s);
    finish(chat, end);
}

// ---- the whole of it

fn pumped(heard: &Heard, turned: Option<Turned>) -> Pumped
    ensures { result ≡ pumped heard.now turned }
{
    if is_not_yet(heard) && is_idle(turned) {
        Pumped::Idle
    } else {
        Pumped::Moved
    }
}

/// One pump of a session: takes one item of the chat and answers it, and makes a turn where `live` is due or a text was
/// answered, and a session is attached.
///
/// A client's first text is to be a hello, which begins the session; what it says later is answered by `answer_text`.
/// `due` becomes false exactly at a turn that was idle, and true at any other. `Idle` comes exactly where nothing was
/// heard and there was no turn, or an idle one. At the first end the session that is attached is shut, and then the chat is
/// finished with the end's code, if it has one; whatever that answers, the pump is `Done` with that end, and `live` has no
/// session. The ends are those of `hello`, `answer_text` and `turn`; and `Left` exactly where the chat answered End,
/// `Refused` also where the item was no text, or the first text no hello, and `ChatFault` also where the take failed. The
/// pump makes no entries but those of `hello`, `answer_text`, `turn` and `shut`.
pub fn pump<D: Desks, H: Chat, L: NodeLink<D>, C: Clock, G: Draw>(
    alloc: Global,
    desks: &mut D,
    chat: &mut H,
    link: &mut L,
    clock: &C,
    draw: &mut G,
    place: &Place,
    live: &mut Live,
) -> Pumped
    ensures { PumpMade place.now live.old live.new (C.moment clock.now) result (sides D.view H.left H.taken H.sent H.code H.faults desks.old chat.old) (sides D.view H.left H.taken H.sent H.code H.faults desks.new chat.new) (G.given draw.old) (G.given draw.new) (L.faults link.old) (L.faults link.new) }
{
    let heard = take_one(alloc, chat);
    let answered = answer_item(alloc, desks, chat, clock, draw, place, live.s, &heard);
    let time = is_time(live.due, &heard);
    match then_turn(alloc, desks, chat, answered.answer, time, answered.s) {
        Ok(turned) => {
            live.s = answered.s;
            live.due = due_after(turned, live.due);
            return pumped(&heard, turned);
        }
        Err(end) => {
            leave(alloc, desks, chat, link, answered.s, end);
            *live = Live::new();
            return Pumped::Done(end);
        }
    }
}
