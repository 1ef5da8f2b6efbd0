//! Lines of sessions.
ghost use Rattle.std.specs.Prelude.{◌≡◌};
ghost use Rattle.schedule_text.specs.Reading.{create_at, claim_at, attach_at, check_at, topics_at, plains_at, take_at, renew_at, close_at, release_at, save_at, register_at, unregister_at, ack_at, by_verb, session_verbs};

use crate::flight_lines::read_flight_line;
use crate::words::Words;
use push_model::Step;

#[tactic(auto, unfolding(crate::specs::Reading::create_at))]
fn create(mut words: Words) -> Option<Step>
    ensures { result ≡ create_at words.entry }
{
    let session = words.session()?;
    words.end(Step::Create(session))
}

#[tactic(auto, unfolding(crate::specs::Reading::claim_at))]
fn claim(mut words: Words) -> Option<Step>
    ensures { result ≡ claim_at words.entry }
{
    let session = words.session()?;
    words.end(Step::Claim(session))
}

#[tactic(auto, unfolding(crate::specs::Reading::attach_at))]
fn attach(mut words: Words) -> Option<Step>
    ensures { result ≡ attach_at words.entry }
{
    let session = words.session()?;
    words.end(Step::Attach(session))
}

#[tactic(auto, unfolding(crate::specs::Reading::check_at))]
fn check(mut words: Words) -> Option<Step>
    ensures { result ≡ check_at words.entry }
{
    let session = words.session()?;
    words.end(Step::TakeCheck(session))
}

#[tactic(auto, unfolding(crate::specs::Reading::topics_at))]
fn topics(mut words: Words) -> Option<Step>
    ensures { result ≡ topics_at words.entry }
{
    let session = words.session()?;
    words.end(Step::FetchTopic(session))
}

#[tactic(auto, unfolding(crate::specs::Reading::plains_at))]
fn plains(mut words: Words) -> Option<Step>
    ensures { result ≡ plains_at words.entry }
{
    let session = words.session()?;
    words.end(Step::FetchPlain(session))
}

#[tactic(auto, unfolding(crate::specs::Reading::take_at))]
fn take(mut words: Words) -> Option<Step>
    ensures { result ≡ take_at words.entry }
{
    let session = words.session()?;
    words.end(Step::TakeDirect(session))
}

#[tactic(auto, unfolding(crate::specs::Reading::renew_at))]
fn renew(mut words: Words) -> Option<Step>
    ensures { result ≡ renew_at words.entry }
{
    let session = words.session()?;
    words.end(Step::Renew(session))
}

#[tactic(auto, unfolding(crate::specs::Reading::close_at))]
fn close(mut words: Words) -> Option<Step>
    ensures { result ≡ close_at words.entry }
{
    let session = words.session()?;
    words.end(Step::Close(session))
}

#[tactic(auto, unfolding(crate::specs::Reading::release_at))]
fn release(mut words: Words) -> Option<Step>
    ensures { result ≡ release_at words.entry }
{
    let session = words.session()?;
    words.end(Step::Release(session))
}

#[tactic(auto, unfolding(crate::specs::Reading::save_at))]
fn save(mut words: Words) -> Option<Step>
    ensures { result ≡ save_at words.entry }
{
    let session = words.session()?;
    words.end(Step::SaveOne(session))
}

#[tactic(auto, unfolding(crate::specs::Reading::register_at))]
fn register(mut words: Words) -> Option<Step>
    ensures { result ≡ register_at words.entry }
{
    let session = words.session()?;
    let channel = words.channel()?;
    let token = words.token()?;
    words.end(Step::Register(session, channel, token))
}

#[tactic(auto, unfolding(crate::specs::Reading::unregister_at))]
fn unregister(mut words: Words) -> Option<Step>
    ensures { result ≡ unregister_at words.entry }
{
    let session = words.session()?;
    let channel = words.channel()?;
    words.end(Step::Unregister(session, channel))
}

#[tactic(auto, unfolding(crate::specs::Reading::ack_at))]
fn ack(mut words: Words) -> Option<Step>
    ensures { result ≡ ack_at words.entry }
{
    let session = words.session()?;
    let channel = words.channel()?;
    let id = words.id()?;
    words.end(Step::Ack(session, channel, id))
}

/// The step of the words behind a verb of sessions, of flights or of the shard; `begin` is none of these.
pub fn read_session_line(verb: &[u8], words: Words) -> Option<Step>
    ensures { result ≡ by_verb session_verbs verb.now words.entry }
{
    if verb == b"create".as_slice() {
        return create(words);
    }
    if verb == b"claim".as_slice() {
        return claim(words);
    }
    if verb == b"attach".as_slice() {
        return attach(words);
    }
    if verb == b"check".as_slice() {
        return check(words);
    }
    if verb == b"topics".as_slice() {
        return topics(words);
    }
    if verb == b"plains".as_slice() {
        return plains(words);
    }
    if verb == b"take".as_slice() {
        return take(words);
    }
    if verb == b"renew".as_slice() {
        return renew(words);
    }
    if verb == b"close".as_slice() {
        return close(words);
    }
    if verb == b"release".as_slice() {
        return release(words);
    }
    if verb == b"save".as_slice() {
        return save(words);
    }
    if verb == b"register".as_slice() {
        return register(words);
    }
    if verb == b"unregister".as_slice() {
        return unregister(words);
    }
    if verb == b"ack".as_slice() {
        return ack(words);
    }
    read_flight_line(verb, words)
}
