//! A session, and the lists that it holds.
ghost use Rattle.std.specs.Prelude.{◌≡◌, ◌==◌, ◌&&◌, ◌||◌, not, length};
ghost use Rattle.push_model.specs.Sessions.{new_session, is_session, is_attached, is_attached_at, session_stage, fetch_stage, displaced, held, has_room};
ghost use Rattle.push_model.specs.Cells.{is_place};
ghost use Rattle.push_model.specs.Covering.{fetch_covers, stage_covers};

use push_model::{Fetch, IdList, MsgId, NodeId, Row, SessionId, Shared, Stage};
use std::alloc::Global;
use std::marker::Model;

/// How many messages a session holds at most.
const LIMIT: usize = 500;

/// A session of a user. A displaced one has lost its node to a newer session.
#[derive(Drop)]
pub struct SessionCore {
    pub(crate) node: NodeId,
    pub(crate) at: u64,
    displaced: bool,
    /// Messages that wait to be shown.
    pub(crate) inbox: Vec<Shared>,
    /// Messages that were shown and not acknowledged.
    pub(crate) direct: Vec<Shared>,
    /// Stored messages that were sent and not acknowledged.
    pub(crate) sent: IdList,
    /// Whether the stored rows are still to be looked at.
    pub(crate) check: bool,
    pub(crate) fetch: Fetch,
    /// Empty, with room for the ids of all the messages that it holds: its saver will keep them here.
    pub(crate) saved: Vec<MsgId>,
}

impl Model for SessionCore {
    ghost use Rattle.std.specs.Prelude.{◌≡◌, ◌+◌, ◌≤◌, vec_len, vec_capacity};
    ghost use Rattle.push_model.specs.Sessions.{Session};

    ghost Value = { Session };

    ghost view = { λ x. record { node = x.node; at = x.at; displaced = x.displaced; inbox = x.inbox.items; direct = x.direct.items; sent = x.sent; check = x.check; fetch = x.fetch } };

    ghost invariant = { λ x. (vec_len x.saved ≡ 0) × (vec_len x.direct + vec_len x.inbox ≤ vec_capacity x.saved) };
}

impl SessionCore {
    /// The session as it is attached: it holds nothing, and is to check the stored rows. It takes no memory.
    pub fn new(alloc: Global, s: SessionId) -> SessionCore
        ensures { result ≡ new_session s }
    {
        SessionCore {
            node: s.node,
            at: s.at,
            displaced: false,
            inbox: Vec::new(alloc),
            direct: Vec::new(alloc),
            sent: IdList::new(alloc),
            check: true,
            fetch: Fetch::Idle,
            saved: Vec::new(alloc),
        }
    }

    /// The node that serves it, or did until it was displaced.
    pub fn node(&self) -> NodeId
        ensures { result ≡ self.now.node }
    {
        self.node
    }

    /// The moment in milliseconds at which it was made.
    pub fn at(&self) -> u64
        ensures { result ≡ self.now.at }
    {
        self.at
    }

    /// Whether it has lost its node to a newer session.
    pub fn is_displaced(&self) -> bool
        ensures { result ≡ self.now.displaced }
    {
        self.displaced
    }

    /// Whether it is that session, attached or displaced.
    pub fn is_named(&self, s: SessionId) -> bool
        ensures { result ≡ is_session s self.now }
    {
        self.node == s.node && self.at == s.at
    }

    /// Whether it is that session, and attached.
    pub fn is_attached(&self, s: SessionId) -> bool
        ensures { result ≡ is_attached s self.now }
    {
        self.is_named(s) && !self.displaced
    }

    /// Whether it is attached at that node.
    pub fn is_attached_at(&self, node: NodeId) -> bool
        ensures { result ≡ is_attached_at node self.now }
    {
        !self.displaced && self.node == node
    }

    /// Whether it is of that node, attached or displaced.
    pub fn is_on(&self, node: NodeId) -> bool
        ensures { result ≡ (self.now.node == node) }
    {
        self.node == node
    }

    /// Whether a route row that names that place routes to it.
    pub fn is_routed(&self, place: Option<(NodeId, u64)>) -> bool
        ensures { result ≡ (not self.now.displaced && is_place self.now.node self.now.at place) }
    {
        match place {
            Some((node, at)) => !self.displaced && node == self.node && at == self.at,
            None => false,
        }
    }

    /// Its own stage, for those who ask it in an actor's place.
    pub fn stage(&self) -> Stage
        ensures { result ≡ session_stage self.now }
    {
        if self.displaced {
            return Stage::Displaced;
        }
        fetch_stage(self.fetch)
    }

    /// How it looks at the stored rows.
    pub fn fetch(&self) -> Fetch
        ensures { result ≡ self.now.fetch }
    {
        self.fetch
    }

    /// How many messages it holds: those that were shown and not acknowledged, and those that wait.
    pub fn held(&self) -> usize
        ensures { result ≡ length (held self.now) }
    {
        self.direct.len() + self.inbox.len()
    }

    /// Whether it can hold one message more: it holds 500 at most.
    pub fn has_room(&self) -> bool
        ensures { result ≡ has_room self.now }
    {
        self.held() < LIMIT
    }

    /// Whether it is itself to come to the row: it is to look at all of them, or its fetch has not passed that kind.
    pub fn comes_to(&self, row: &Row) -> bool
        ensures { result ≡ (self.now.check || fetch_covers self.now.fetch row.now) }
    {
        self.check || fetch_covers(self.fetch, row)
    }

    /// Whether an actor at that stage is to read the route row again, or to tell or unroute exactly that session.
    pub fn is_told_at(&self, stage: Stage) -> bool
        ensures { result ≡ stage_covers stage self.now }
    {
        match stage {
            Stage::Reread => true,
            Stage::Nudge(node, at) | Stage::Clear(node, at) => node == self.node && at == self.at,
            _ => false,
        }
    }

    /// Takes the node from it. What it holds stays.
    pub fn displace(&mut self)
        ensures { self.new ≡ displaced self.old }
    {
        self.displaced = true;
    }
}

/// The stage that names the fetch.
pub fn fetch_stage(fetch: Fetch) -> Stage
    ensures { result ≡ fetch_stage fetch }
{
    match fetch {
        Fetch::Idle => Stage::Idle,
        Fetch::Topic => Stage::Topic,
        Fetch::Plain => Stage::Plain,
    }
}

fn fetch_covers(fetch: Fetch, row: &Row) -> bool
    ensures { result ≡ fetch_covers fetch row.now }
{
    match fetch {
        Fetch::Idle => false,
        Fetch::Topic => true,
        Fetch::Plain => row.message.message().ask.terms.topic.is_none(),
    }
}
