//! How a session looks at the stored rows.
ghost use Rattle.std.specs.Prelude.{◌≡◌, Bool, List, OnOk, OnErr, if◌then◌else◌};
ghost use Rattle.push_model.specs.declared.parts.Row.{Row};
ghost use Rattle.push_model.specs.Rows.{is_unsent};
ghost use Rattle.push_model.specs.Sessions.{is_idle, is_due, fetching, checked};
ghost use Rattle.session_core.specs.Fetches.{next_fetch, sent_page, IsFetched};

use crate::sent::sent_with;
use crate::session::SessionCore;
use push_model::{Fetch, IdList, NoMemory, Pages, Row};

impl SessionCore {
    /// Whether it is to look at the rows, and nothing sent is unacknowledged, and no fetch is under way.
    pub fn is_due(&self) -> bool
        ensures { result ≡ is_due self.now }
    {
        self.check && self.sent.is_empty() && is_idle(self.fetch)
    }

    /// Begins to fetch where that is due, and says whether it was. Then it need not look at the rows again.
    pub fn take_check(&mut self) -> bool
        ensures due { result ≡ is_due self.old }
        ensures session { self.new ≡ (if is_due self.old then fetching self.old else self.old) }
    {
        if !self.is_due() {
            return false;
        }
        self.check = false;
        self.fetch = Fetch::Topic;
        true
    }

    /// It is to look at the stored rows.
    pub fn set_check(&mut self)
        ensures { self.new ≡ checked self.old }
    {
        self.check = true;
    }

    /// What it was sent and didn't acknowledge.
    pub fn sent(&self) -> &IdList
        ensures { result.now ≡ self.now.sent }
    {
        &self.sent
    }

    /// Whether it wasn't sent the row's message.
    pub fn is_unsent(&self, row: &Row) -> bool
        ensures { result ≡ is_unsent self.now.sent row.now }
    {
        !self.sent.has(row.message.message().id)
    }

    /// It was sent that page, and its fetch goes on. Where the page is the next one of some rows, and the session is told to
    /// look again where more of them remain, it has fetched it. At `NoMemory` it stays as it is.
    pub fn sent_page(&mut self, p: &Pages) -> Result<(), NoMemory>
        ensures ok { OnOk result (self.new ≡ sent_page p.now self.old) }
        ensures fetched { OnOk result ((topic : Bool) (rows : List Row) → IsFetched topic rows p.now self.old self.new) }
        ensures err { OnErr result (self.new ≡ self.old) }
    {
        let sent = sent_with(*self.saved.allocator(), &self.sent, p)?;
        self.sent = sent;
        self.fetch = next_fetch(self.fetch);
        Ok(())
    }
}

fn is_idle(fetch: Fetch) -> bool
    ensures { result ≡ is_idle fetch }
{
    matches!(fetch, Fetch::Idle)
}

// what it fetches after a page
fn next_fetch(fetch: Fetch) -> Fetch
    ensures { result ≡ next_fetch fetch }
{
    match fetch {
        Fetch::Topic => Fetch::Plain,
        Fetch::Plain | Fetch::Idle => Fetch::Idle,
    }
}
