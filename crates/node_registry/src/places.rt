//! The places of a user's sessions.
ghost use Rattle.std.specs.Prelude.{◌≡◌, Some, None, find, position, IfSome, IfNone};
ghost use Rattle.push_model.specs.Keyed.{IsPlace};
ghost use Rattle.push_model.specs.Sessions.{Session, is_attached, is_attached_at, is_session};
ghost use Rattle.node_registry.specs.Routed.{is_routed_by};

use crate::registry::Registry;
use push_model::{NodeId, SessionId};
use session_core::SessionCore;

impl Registry {
    /// The place of that session, if it is attached.
    pub fn attached(&self, s: SessionId) -> Option<usize>
        ensures { IsPlace (is_attached s) self.now.sessions.items result }
    {
        attached_place(&self.sessions, s)
    }

    /// The place of the session that is attached at that node, if one is.
    pub fn at(&self, node: NodeId) -> Option<usize>
        ensures { IsPlace (is_attached_at node) self.now.sessions.items result }
    {
        place_at(&self.sessions, node)
    }

    /// The place of that session, attached or displaced, if it is there.
    pub fn named(&self, s: SessionId) -> Option<usize>
        ensures { IsPlace (is_session s) self.now.sessions.items result }
    {
        named_place(&self.sessions, s)
    }

    /// The place of the session that is attached, and that a route row with that place names, if it is there.
    pub fn routed(&self, place: Option<(NodeId, u64)>) -> Option<usize>
        ensures { IsPlace (is_routed_by place) self.now.sessions.items result }
    {
        routed_place(&self.sessions, place)
    }

    /// The moment in milliseconds of the session that is attached at that node, if one is.
    pub fn find(&self, node: NodeId) -> Option<u64>
        ensures some { IfSome result (λ at. (x : Session) × (find (is_attached_at node) self.now.sessions.items ≡ Some x) × (x.at ≡ at)) }
        ensures none { IfNone result (find (is_attached_at node) self.now.sessions.items ≡ None) }
    {
        let place = place_at(&self.sessions, node)?;
        Some(self.sessions[place].at())
    }
}

fn first_attached(sessions: &[SessionCore], s: SessionId) -> Option<usize>
    ensures { result ≡ position (is_attached s) sessions.now }
{
    sessions.iter().position(|session| session.is_attached(s))
}

fn attached_place(sessions: &[SessionCore], s: SessionId) -> Option<usize>
    ensures { IsPlace (is_attached s) sessions.now result }
{
    first_attached(sessions, s)
}

fn first_at(sessions: &[SessionCore], node: NodeId) -> Option<usize>
    ensures { result ≡ position (is_attached_at node) sessions.now }
{
    sessions
        .iter()
        .position(|session| session.is_attached_at(node))
}

/// The place of the session that is attached at that node.
pub(crate) fn place_at(sessions: &[SessionCore], node: NodeId) -> Option<usize>
    ensures { IsPlace (is_attached_at node) sessions.now result }
{
    first_at(sessions, node)
}

fn first_named(sessions: &[SessionCore], s: SessionId) -> Option<usize>
    ensures { result ≡ position (is_session s) sessions.now }
{
    sessions.iter().position(|session| session.is_named(s))
}

/// The place of that session, attached or displaced.
pub(crate) fn named_place(sessions: &[SessionCore], s: SessionId) -> Option<usize>
    ensures { IsPlace (is_session s) sessions.now result }
{
    first_named(sessions, s)
}

fn first_routed(sessions: &[SessionCore], place: Option<(NodeId, u64)>) -> Option<usize>
    ensures { result ≡ position (is_routed_by place) sessions.now }
{
    sessions.iter().position(|session| session.is_routed(place))
}

fn routed_place(sessions: &[SessionCore], place: Option<(NodeId, u64)>) -> Option<usize>
    ensures { IsPlace (is_routed_by place) sessions.now result }
{
    first_routed(sessions, place)
}
