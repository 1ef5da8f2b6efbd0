//! Lines of the shard.
ghost use Rattle.std.specs.Prelude.{◌≡◌};
ghost use Rattle.schedule_text.specs.Reading.{tick_at, notif_at, kill_at, up_at, expire_at, drop_user_at, orphans_at, idle_at, report_at, by_verb, shard_verbs};

use crate::words::Words;
use push_model::Step;

#[tactic(auto, unfolding(crate::specs::Reading::tick_at))]
fn tick(mut words: Words) -> Option<Step>
    ensures { result ≡ tick_at words.entry }
{
    let moment = words.moment()?;
    words.end(Step::Tick(moment))
}

#[tactic(auto, unfolding(crate::specs::Reading::notif_at))]
fn notif(mut words: Words) -> Option<Step>
    ensures { result ≡ notif_at words.entry }
{
    let node = words.node()?;
    let user = words.user()?;
    words.end(Step::Notif(node, user))
}

#[tactic(auto, unfolding(crate::specs::Reading::kill_at))]
fn kill(mut words: Words) -> Option<Step>
    ensures { result ≡ kill_at words.entry }
{
    let node = words.node()?;
    words.end(Step::Kill(node))
}

#[tactic(auto, unfolding(crate::specs::Reading::up_at))]
fn up(mut words: Words) -> Option<Step>
    ensures { result ≡ up_at words.entry }
{
    let node = words.node()?;
    words.end(Step::Up(node))
}

#[tactic(auto, unfolding(crate::specs::Reading::expire_at))]
fn expire(mut words: Words) -> Option<Step>
    ensures { result ≡ expire_at words.entry }
{
    let user = words.user()?;
    words.end(Step::Expire(user))
}

#[tactic(auto, unfolding(crate::specs::Reading::drop_user_at))]
fn drop_user(mut words: Words) -> Option<Step>
    ensures { result ≡ drop_user_at words.entry }
{
    let user = words.user()?;
    words.end(Step::DropUser(user))
}

#[tactic(auto, unfolding(crate::specs::Reading::orphans_at))]
fn orphans(words: Words) -> Option<Step>
    ensures { result ≡ orphans_at words.entry }
{
    words.end(Step::ListOrphans)
}

#[tactic(auto, unfolding(crate::specs::Reading::idle_at))]
fn idle(words: Words) -> Option<Step>
    ensures { result ≡ idle_at words.entry }
{
    words.end(Step::ListIdle)
}

#[tactic(auto, unfolding(crate::specs::Reading::report_at))]
fn report(words: Words) -> Option<Step>
    ensures { result ≡ report_at words.entry }
{
    words.end(Step::Report)
}

/// The step of the words behind a verb of the shard.
pub fn read_shard_line(verb: &[u8], words: Words) -> Option<Step>
    ensures { result ≡ by_verb shard_verbs verb.now words.entry }
{
    if verb == b"tick".as_slice() {
        return tick(words);
    }
    if verb == b"notif".as_slice() {
        return notif(words);
    }
    if verb == b"kill".as_slice() {
        return kill(words);
    }
    if verb == b"up".as_slice() {
        return up(words);
    }
    if verb == b"expire".as_slice() {
        return expire(words);
    }
    if verb == b"drop".as_slice() {
        return drop_user(words);
    }
    if verb == b"orphans".as_slice() {
        return orphans(words);
    }
    if verb == b"idle".as_slice() {
        return idle(words);
    }
    if verb == b"report".as_slice() {
        return report(words);
    }
    None
}
