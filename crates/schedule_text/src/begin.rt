//! The line that begins a flight: the only one with a payload, which alone takes memory.
ghost use Rattle.std.specs.Prelude.{◌≡◌, ◌≤◌, Some, length};
ghost use Rattle.schedule_text.specs.Reading.{Gives, WantsFor, Takes, both, op_at, token_at, ask_of, begin_at};

use crate::fault::LineFault;
use crate::values;
use crate::words::Words;
use push_model::{Ask, Blob, Coding, Op, Step, Terms, Token, Topic, Urgency};
use std::alloc::Global;

// The ask of these, whose coding is known from its payload and which has no headers.
fn ask_of(alloc: Global, ttl: u32, topic: Option<Topic>, urgency: Urgency, payload: Blob) -> Ask
    requires kept { ttl ≤ 2592000 }
    requires short { length payload ≤ 4096 }
    ensures { result ≡ ask_of (ttl, (topic, (urgency, payload))) }
{
    let coding = if payload.bytes().is_empty() {
        Coding::Bare
    } else {
        Coding::Aes128gcm
    };
    Ask {
        terms: Terms {
            ttl,
            topic,
            urgency,
            coding,
        },
        encryption: Blob::from_vec(Vec::new(alloc)),
        crypto_key: Blob::from_vec(Vec::new(alloc)),
        payload,
    }
}

fn begin_head(words: &mut Words) -> Option<(Op, Token)>
    ensures { Takes (λ x. (x.0, x.1)) result (both op_at token_at words.old) words.new }
{
    let op = words.op()?;
    let token = words.token()?;
    Some((op, token))
}

/// The step of the words behind `begin`. The payload is copied last, where nothing else can be wrong any more.
#[tactic(auto, unfolding(crate::specs::Reading::begin_at, crate::specs::Reading::ask_at))]
pub fn begin(alloc: Global, mut words: Words) -> Result<Step, LineFault>
    ensures step { Gives (λ x. x) result (begin_at words.entry) }
    ensures memory { WantsFor (λ s. begin_at words.entry ≡ Some s) result }
{
    let (op, token) = begin_head(&mut words).ok_or(LineFault::Outside)?;
    let (ttl, topic, urgency) = words.terms().ok_or(LineFault::Outside)?;
    let digits = words.payload().ok_or(LineFault::Outside)?;
    if !words.is_empty() {
        return Err(LineFault::Outside);
    }
    match values::payload_of(alloc, digits) {
        Ok(payload) => {
            let ask = ask_of(alloc, ttl, topic, urgency, payload);
            Ok(Step::Begin(op, token, ask))
        }
        Err(_) => Err(LineFault::NoMemory),
    }
}
