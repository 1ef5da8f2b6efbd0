//! Lines of flights and of other actors.
ghost use Rattle.std.specs.Prelude.{◌≡◌};
ghost use Rattle.schedule_text.specs.Reading.{direct_at, store_at, give_up_at, reread_at, nudge_at, heard_at, lost_at, clear_at, by_verb, flight_verbs};

use crate::shard_lines::read_shard_line;
use crate::words::Words;
use push_model::Step;

#[tactic(auto, unfolding(crate::specs::Reading::direct_at))]
fn direct(mut words: Words) -> Option<Step>
    ensures { result ≡ direct_at words.entry }
{
    let op = words.op()?;
    words.end(Step::Direct(op))
}

#[tactic(auto, unfolding(crate::specs::Reading::store_at))]
fn store(mut words: Words) -> Option<Step>
    ensures { result ≡ store_at words.entry }
{
    let op = words.op()?;
    words.end(Step::Store(op))
}

#[tactic(auto, unfolding(crate::specs::Reading::give_up_at))]
fn give_up(mut words: Words) -> Option<Step>
    ensures { result ≡ give_up_at words.entry }
{
    let op = words.op()?;
    words.end(Step::GiveUp(op))
}

#[tactic(auto, unfolding(crate::specs::Reading::reread_at))]
fn reread(mut words: Words) -> Option<Step>
    ensures { result ≡ reread_at words.entry }
{
    let actor = words.actor()?;
    words.end(Step::Reread(actor))
}

#[tactic(auto, unfolding(crate::specs::Reading::nudge_at))]
fn nudge(mut words: Words) -> Option<Step>
    ensures { result ≡ nudge_at words.entry }
{
    let actor = words.actor()?;
    words.end(Step::Nudge(actor))
}

#[tactic(auto, unfolding(crate::specs::Reading::heard_at))]
fn heard(mut words: Words) -> Option<Step>
    ensures { result ≡ heard_at words.entry }
{
    let actor = words.actor()?;
    words.end(Step::Heard(actor))
}

#[tactic(auto, unfolding(crate::specs::Reading::lost_at))]
fn lost(mut words: Words) -> Option<Step>
    ensures { result ≡ lost_at words.entry }
{
    let actor = words.actor()?;
    words.end(Step::Lost(actor))
}

#[tactic(auto, unfolding(crate::specs::Reading::clear_at))]
fn clear(mut words: Words) -> Option<Step>
    ensures { result ≡ clear_at words.entry }
{
    let actor = words.actor()?;
    words.end(Step::Clear(actor))
}

/// The step of the words behind a verb of flights and of other actors, or of the shard.
pub fn read_flight_line(verb: &[u8], words: Words) -> Option<Step>
    ensures { result ≡ by_verb flight_verbs verb.now words.entry }
{
    if verb == b"direct".as_slice() {
        return direct(words);
    }
    if verb == b"store".as_slice() {
        return store(words);
    }
    if verb == b"giveup".as_slice() {
        return give_up(words);
    }
    if verb == b"reread".as_slice() {
        return reread(words);
    }
    if verb == b"nudge".as_slice() {
        return nudge(words);
    }
    if verb == b"heard".as_slice() {
        return heard(words);
    }
    if verb == b"lost".as_slice() {
        return lost(words);
    }
    if verb == b"clear".as_slice() {
        return clear(words);
    }
    read_shard_line(verb, words)
}
