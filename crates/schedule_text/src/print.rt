//! The line of a step.
ghost use Rattle.std.specs.Prelude.{◌≡◌, ◌++◌, IfOk, decimal};
ghost use Rattle.std.specs.String.{string_bytes};
ghost use Rattle.schedule_text.specs.Spelling.{spell, user_words, session_words, op_words, actor_words, ask_words};
ghost use Rattle.schedule_text.specs.Words.{word, urgency_word, payload_word};

use crate::hex_text::{Hex, TokenWord};
use push_model::{Actor, Ask, Blob, NoMemory, Op, SessionId, Step, Text, Topic, Uaid, Urgency};
use std::alloc::{AllocError, Global};
use std::{fmt, str};

/// A session whose words `{}` writes, each behind a space.
#[derive(Clone, Copy)]
struct SessionWords(SessionId);

impl fmt::Display for SessionWords {
    ghost use Rattle.std.specs.Prelude.{Some};
    ghost use Rattle.schedule_text.specs.Spelling.{session_words};

    ghost output = { λ w. Some (session_words w.0) };

    fn fmt<W: fmt::Write>(&self, f: &mut fmt::Formatter<W>) -> fmt::Result {
        let session = &self.0;
        write!(
            f,
            " {} {} {}",
            Hex(session.uaid.0),
            session.node.get(),
            session.at
        )
    }
}

/// A flight whose words `{}` writes, each behind a space.
#[derive(Clone, Copy)]
struct OpWords(Op);

impl fmt::Display for OpWords {
    ghost use Rattle.std.specs.Prelude.{Some};
    ghost use Rattle.schedule_text.specs.Spelling.{op_words};

    ghost output = { λ w. Some (op_words w.0) };

    fn fmt<W: fmt::Write>(&self, f: &mut fmt::Formatter<W>) -> fmt::Result {
        write!(f, " {} {}", self.0.pass, self.0.k)
    }
}

/// An actor whose words `{}` writes, each behind a space.
#[derive(Clone, Copy)]
struct ActorWords(Actor);

impl fmt::Display for ActorWords {
    ghost use Rattle.std.specs.Prelude.{Some};
    ghost use Rattle.schedule_text.specs.Spelling.{actor_words};

    ghost output = { λ w. Some (actor_words w.0) };

    fn fmt<W: fmt::Write>(&self, f: &mut fmt::Formatter<W>) -> fmt::Result {
        match self.0 {
            Actor::Flight(op) => write!(f, " f{}", OpWords(op)),
            Actor::Saver(session) => write!(f, " s{}", SessionWords(session)),
        }
    }
}

/// A topic that `{}` writes, and a dot for none.
#[derive(Clone, Copy)]
struct TopicWord<'a>(&'a Option<Topic>);

impl<'a> fmt::Display for TopicWord<'a> {
    ghost use Rattle.std.specs.Prelude.{Some};
    ghost use Rattle.schedule_text.specs.Words.{topic_word};

    ghost output = { λ w. Some (topic_word w.0.now) };

    fn fmt<W: fmt::Write>(&self, f: &mut fmt::Formatter<W>) -> fmt::Result {
        match self.0 {
            None => write!(f, "."),
            Some(topic) => match str::from_utf8(topic.bytes()) {
                Ok(text) => write!(f, "{text}"),
                Err(_) => Err(fmt::Error),
            },
        }
    }
}

fn urgency_word(urgency: Urgency) -> &'static str
    ensures { result.now ≡ urgency_word urgency }
{
    match urgency {
        Urgency::VeryLow => "very-low",
        Urgency::Low => "low",
        Urgency::Normal => "normal",
        Urgency::High => "high",
    }
}

/// The digits of a payload, and a dot for none.
pub fn payload_word(alloc: Global, payload: &Blob) -> Result<String, AllocError>
    ensures { IfOk result (λ text. string_bytes text ≡ payload_word payload.now) }
{
    let bytes = payload.bytes();
    if bytes.is_empty() {
        String::from_str(alloc, ".")
    } else {
        hex::encode(alloc, bytes)
    }
}

fn ask_words(alloc: Global, ask: &Ask) -> Result<String, AllocError>
    ensures { IfOk result (λ text. string_bytes text ≡ ask_words ask.now) }
{
    let terms = &ask.terms;
    let urgency = urgency_word(terms.urgency);
    let payload = payload_word(alloc, &ask.payload)?;
    format!(in alloc;
        " {} {} {urgency} {payload}",
        terms.ttl,
        TopicWord(&terms.topic)
    )
}

fn session_line(alloc: Global, verb: &str, session: SessionId) -> Result<String, AllocError>
    ensures { IfOk result (λ text. string_bytes text ≡ verb.now ++ session_words session) }
{
    format!(in alloc; "{verb}{}", SessionWords(session))
}

fn op_line(alloc: Global, verb: &str, op: Op) -> Result<String, AllocError>
    ensures { IfOk result (λ text. string_bytes text ≡ verb.now ++ op_words op) }
{
    format!(in alloc; "{verb}{}", OpWords(op))
}

fn actor_line(alloc: Global, verb: &str, actor: Actor) -> Result<String, AllocError>
    ensures { IfOk result (λ text. string_bytes text ≡ verb.now ++ actor_words actor) }
{
    format!(in alloc; "{verb}{}", ActorWords(actor))
}

fn user_line(alloc: Global, verb: &str, user: Uaid) -> Result<String, AllocError>
    ensures { IfOk result (λ text. string_bytes text ≡ verb.now ++ user_words user) }
{
    format!(in alloc; "{verb} {}", Hex(user.0))
}

fn number_line(alloc: Global, verb: &str, number: u64) -> Result<String, AllocError>
    ensures { IfOk result (λ text. string_bytes text ≡ verb.now ++ word (decimal number)) }
{
    format!(in alloc; "{verb} {number}")
}

fn step_words(alloc: Global, step: &Step) -> Result<String, AllocError>
    ensures { IfOk result (λ text. string_bytes text ≡ spell step.now) }
{
    match step {
        Step::Create(s) => session_line(alloc, "create", *s),
        Step::Attach(s) => session_line(alloc, "attach", *s),
        Step::Register(s, h, t) => {
            format!(in alloc;
                "register{} {} {}",
                SessionWords(*s),
                Hex(h.0),
                TokenWord(*t)
            )
        }
        Step::Begin(o, t, ask) => {
            let ask = ask_words(alloc, ask)?;
            format!(in alloc; "begin{} {}{ask}", OpWords(*o), TokenWord(*t))
        }
        Step::Direct(o) => op_line(alloc, "direct", *o),
        Step::Store(o) => op_line(alloc, "store", *o),
        Step::GiveUp(o) => op_line(alloc, "giveup", *o),
        Step::Reread(actor) => actor_line(alloc, "reread", *actor),
        Step::Nudge(actor) => actor_line(alloc, "nudge", *actor),
        Step::Heard(actor) => actor_line(alloc, "heard", *actor),
        Step::Lost(actor) => actor_line(alloc, "lost", *actor),
        Step::TakeCheck(s) => session_line(alloc, "check", *s),
        Step::FetchTopic(s) => session_line(alloc, "topics", *s),
        Step::FetchPlain(s) => session_line(alloc, "plains", *s),
        Step::TakeDirect(s) => session_line(alloc, "take", *s),
        Step::Ack(s, h, i) => {
            format!(in alloc; "ack{} {} {}", SessionWords(*s), Hex(h.0), i.number)
        }
        Step::Tick(moment) => number_line(alloc, "tick", moment.seconds()),
        Step::Claim(s) => session_line(alloc, "claim", *s),
        Step::Unregister(s, h) => format!(in alloc; "unregister{} {}", SessionWords(*s), Hex(h.0)),
        Step::Renew(s) => session_line(alloc, "renew", *s),
        Step::Close(s) => session_line(alloc, "close", *s),
        Step::Release(s) => session_line(alloc, "release", *s),
        Step::SaveOne(s) => session_line(alloc, "save", *s),
        Step::Clear(actor) => actor_line(alloc, "clear", *actor),
        Step::Notif(node, user) => format!(in alloc; "notif {} {}", node.get(), Hex(user.0)),
        Step::Kill(node) => number_line(alloc, "kill", u64::from(node.get())),
        Step::Up(node) => number_line(alloc, "up", u64::from(node.get())),
        Step::Expire(user) => user_line(alloc, "expire", *user),
        Step::DropUser(user) => user_line(alloc, "drop", *user),
        Step::ListOrphans => String::from_str(alloc, "orphans"),
        Step::ListIdle => String::from_str(alloc, "idle"),
        Step::Report => String::from_str(alloc, "report"),
    }
}

/// The one line of the step, without LF. It is that of every step, also where no line is read as the step: where a
/// field is out of the grammar's range, or has no words, as the headers of an ask.
pub fn print_step(alloc: Global, step: &Step) -> Result<Text, NoMemory>
    ensures { IfOk result (λ t. t ≡ spell step.now) }
{
    match step_words(alloc, step) {
        Ok(words) => Ok(Text::from_string(words)),
        Err(_) => Err(NoMemory),
    }
}
