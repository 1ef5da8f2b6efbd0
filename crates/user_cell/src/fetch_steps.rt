//! How a session looks at the stored rows: the next ten with a topic, then the next ten without.
ghost use Rattle.std.specs.Prelude.{◌≡◌, ◌<◌, length, IfOk, OnOk, OnErr, true};
ghost use Rattle.push_model.specs.SessionKey.{SessionKey};
ghost use Rattle.push_model.specs.Rows.{row_page};
ghost use Rattle.push_model.specs.Sessions.{Session, fetched};
ghost use Rattle.push_model.specs.Outcomes.{outcome};
ghost use Rattle.push_model.specs.FetchSteps.{take_check, fetch_topic, fetch_plain, fetch_page};
ghost use Rattle.push_model.specs.Kinds.{costs_memory};
ghost use Rattle.session_core.specs.Fetches.{next_fetch};
ghost use Rattle.user_cell.specs.Places.{IsSessionAt};

use crate::cell::UserCell;
use message_rows::Rows;
use push_model::{Fetch, IdList, NoMemory, Pages, Reply, SessionId};
use session_core::{SessionCore, fetch_stage};
use std::alloc::Global;

impl UserCell {
    /// That session begins to look at the stored rows, if it is to.
    pub(crate) fn take_check(&mut self, s: SessionId) -> Reply
        ensures { take_check s self.old ≡ outcome self.new result }
    {
        let Some(place) = self.sessions.attached(s) else {
            return Reply::NoSession;
        };
        let session = &mut self.sessions.sessions[place];
        if !session.take_check() {
            return Reply::NotDue;
        }
        Reply::Due
    }

    /// Sends that session the next rows with a topic.
    pub(crate) fn fetch_topic(&mut self, alloc: Global, s: SessionId) -> Result<Reply, NoMemory>
        ensures ok { IfOk result (λ r. fetch_topic s self.old ≡ outcome self.new r) }
        ensures err { OnErr result ((self.new ≡ self.old) × (costs_memory (fetch_topic s self.old).reply ≡ true)) }
    {
        let Some(place) = self.sessions.attached(s) else {
            return Ok(Reply::NoSession);
        };
        match self.sessions.sessions[place].fetch() {
            Fetch::Topic => self.fetch_page(alloc, place, true),
            fetch => Ok(Reply::Stage(fetch_stage(fetch))),
        }
    }

    /// Sends that session the next rows without a topic.
    pub(crate) fn fetch_plain(&mut self, alloc: Global, s: SessionId) -> Result<Reply, NoMemory>
        ensures ok { IfOk result (λ r. fetch_plain s self.old ≡ outcome self.new r) }
        ensures err { OnErr result ((self.new ≡ self.old) × (costs_memory (fetch_plain s self.old).reply ≡ true)) }
    {
        let Some(place) = self.sessions.attached(s) else {
            return Ok(Reply::NoSession);
        };
        match self.sessions.sessions[place].fetch() {
            Fetch::Plain => self.fetch_page(alloc, place, false),
            fetch => Ok(Reply::Stage(fetch_stage(fetch))),
        }
    }

    // sends the session at that place the next rows, with a topic or without
    fn fetch_page(&mut self, alloc: Global, place: usize, topic: bool) -> Result<Reply, NoMemory>
        requires { place < length self.old.sessions }
        ensures ok { IfOk result (λ r. (s : SessionKey) (x : Session) → IsSessionAt s place x self.old → fetch_page topic (next_fetch x.fetch) x s self.old ≡ outcome self.new r) }
        ensures err { OnErr result (self.new ≡ self.old) }
    {
        let session = &mut self.sessions.sessions[place];
        let page = send_page(alloc, session, &self.rows, topic)?;
        Ok(Reply::Page(page))
    }
}

// the session is sent the next of those rows
fn send_page(
    alloc: Global,
    session: &mut SessionCore,
    rows: &Rows,
    topic: bool,
) -> Result<Pages, NoMemory>
    ensures page { IfOk result (λ p. p ≡ row_page topic session.old.sent rows.now.rows) }
    ensures ok { OnOk result (session.new ≡ fetched topic (next_fetch session.old.fetch) rows.now.rows session.old) }
    ensures err { OnErr result (session.new ≡ session.old) }
{
    let page = next_page(alloc, rows, session.sent(), topic)?;
    session.sent_page(&page)?;
    if rows.remaining(session.sent(), topic) {
        session.set_check();
    }
    Ok(page)
}

fn next_page(alloc: Global, rows: &Rows, sent: &IdList, topic: bool) -> Result<Pages, NoMemory>
    ensures { IfOk result (λ p. p ≡ row_page topic sent.now rows.now.rows) }
{
    if topic {
        rows.page_topic(alloc, sent)
    } else {
        rows.page_plain(alloc, sent)
    }
}
