//! Pages: the messages that a session is shown next.
ghost use Rattle.std.specs.Prelude.{◌≡◌, ◌+◌, ◌≤◌, take, drop, vec_len, IfOk, OnOk};
ghost use Rattle.push_model.specs.Messages.{unexpired};
ghost use Rattle.session_core.specs.Pages.{page_with};

use clock_expiry::expired;
use push_model::{Moment, NoMemory, Shared};
use std::alloc::Global;

/// How many messages a page has at most.
const PAGE: usize = 10;

/// The first ten that aren't expired at that moment.
#[tactic(auto, using(crate::proofs::PageLemmas::page_more))]
pub(crate) fn first_unexpired(
    alloc: Global,
    inbox: &[Shared],
    now: Moment,
) -> Result<Vec<Shared>, NoMemory>
    ensures { IfOk result (λ v. v.items ≡ take 10 (unexpired now inbox.now)) }
{
    let mut page = Vec::new(alloc);
    for shared in inbox {
        add_unexpired(&mut page, shared, now)?;
    }
    Ok(page)
}

// adds a message to a page that has room, unless it is expired
fn add_unexpired(page: &mut Vec<Shared>, shared: &Shared, now: Moment) -> Result<(), NoMemory>
    ensures { OnOk result (page.new.items ≡ page_with now shared.now page.old.items) }
{
    if page.len() >= PAGE || expired(shared.message(), now) {
        return Ok(());
    }
    match page.push(shared.share()?) {
        Ok(()) => Ok(()),
        Err(_) => Err(NoMemory),
    }
}

/// The same messages once more.
pub(crate) fn share_all(alloc: Global, messages: &[Shared]) -> Result<Vec<Shared>, NoMemory>
    ensures { IfOk result (λ v. v.items ≡ messages.now) }
{
    let mut shared = Vec::new(alloc);
    for message in messages {
        if shared.push(message.share()?).is_err() {
            return Err(NoMemory);
        }
    }
    Ok(shared)
}

/// Keeps those that aren't expired at that moment.
pub(crate) fn drop_expired(inbox: &mut Vec<Shared>, now: Moment)
    ensures items { inbox.new.items ≡ unexpired now inbox.old.items }
    ensures len { vec_len inbox.new ≤ vec_len inbox.old }
{
    inbox.retain(|shared| !expired(shared.message(), now));
}

/// Drops the first ones, as many as `count`.
pub(crate) fn drop_front(inbox: &mut Vec<Shared>, count: usize)
    requires { count ≤ vec_len inbox.old }
    ensures items { inbox.new.items ≡ drop count inbox.old.items }
    ensures len { vec_len inbox.new + count ≡ vec_len inbox.old }
{
    let rest = inbox.len() - count;
    inbox.rotate_left(count);
    inbox.truncate(rest);
}
