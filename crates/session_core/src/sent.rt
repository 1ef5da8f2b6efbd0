//! What a session was sent: messages by their channels and ids.
ghost use Rattle.std.specs.Prelude.{◌≡◌, ◌++◌, not, filter, map, true, IfOk, IfSome, IfNone};
ghost use Rattle.std.specs.List.{list_any};
ghost use Rattle.push_model.specs.Names.{is_same_channel};
ghost use Rattle.push_model.specs.Sessions.{forgot, is_sent, sent_pair};

use crate::session::SessionCore;
use push_model::{ChannelId, IdList, MsgId, NoMemory, Pages};
use std::alloc::Global;

impl SessionCore {
    /// It was sent nothing of that channel.
    pub fn forget(&mut self, c: ChannelId)
        ensures { self.new ≡ forgot c self.old }
    {
        remove_channel(&mut self.sent, c);
    }
}

// takes out all of that channel; the others stay in order
fn remove_channel(ids: &mut IdList, c: ChannelId)
    ensures { ids.new ≡ filter (λ y. not (is_same_channel y.0 c)) ids.old }
{
    while let Some(id) = id_of_channel(ids, c) {
        ids.remove(c, id);
    }
}

// an id of that channel
fn id_of_channel(ids: &IdList, c: ChannelId) -> Option<MsgId>
    ensures found { IfSome result (λ i. list_any (is_sent c i) ids.now ≡ true) }
    ensures none { IfNone result (filter (λ y. not (is_same_channel y.0 c)) ids.now ≡ ids.now) }
{
    for place in 0..ids.len() {
        let (chid, id) = ids.at(place);
        if chid.0 == c.0 {
            return Some(id);
        }
    }
    None
}

/// The ids, and behind them those of the page.
pub(crate) fn sent_with(alloc: Global, ids: &IdList, page: &Pages) -> Result<IdList, NoMemory>
    ensures { IfOk result (λ l. l ≡ ids.now ++ map sent_pair page.now) }
{
    let copied = copy_ids(alloc, ids)?;
    add_ids(copied, page)
}

// the same ids once more
#[tactic(auto, using(crate::proofs::SentLemmas::copied_more))]
fn copy_ids(alloc: Global, ids: &IdList) -> Result<IdList, NoMemory>
    ensures { IfOk result (λ l. l ≡ ids.now) }
{
    let mut copied = IdList::new(alloc);
    for place in 0..ids.len() {
        let (chid, id) = ids.at(place);
        copied.push(chid, id)?;
    }
    Ok(copied)
}

// the ids, and behind them those of the page
fn add_ids(mut ids: IdList, page: &Pages) -> Result<IdList, NoMemory>
    ensures { IfOk result (λ l. l ≡ ids ++ map sent_pair page.now) }
{
    for place in 0..page.len() {
        let message = page.at(place);
        ids.push(message.chid, message.id)?;
    }
    Ok(ids)
}
