//! The sessions of a user, and what is done to all of them.
ghost use Rattle.std.specs.Prelude.{◌≡◌, ◌==◌, [], Some, None, filter, find, length, map, not, sum_by, IfSome, IfNone};
ghost use Rattle.std.specs.List.{list_any};
ghost use Rattle.push_model.specs.Keyed.{without_first};
ghost use Rattle.push_model.specs.Sessions.{forgot, held, is_session};
ghost use Rattle.push_model.specs.Tallies.{capped};

use crate::places::named_place;
use push_model::{ChannelId, NodeId, SessionId};
use session_core::SessionCore;
use std::alloc::Global;

/// The sessions of a user, in the order in which they were attached.
#[derive(Drop)]
pub struct Registry {
    /// These sessions.
    pub sessions: Vec<SessionCore>,
}

impl Registry {
    /// No sessions. It takes no memory.
    pub fn new(alloc: Global) -> Registry
        ensures { result.sessions.items ≡ [] }
    {
        Registry {
            sessions: Vec::new(alloc),
        }
    }

    /// Takes that session out, attached or displaced; the others stay in order. It takes no memory.
    pub fn leave(&mut self, s: SessionId) -> Option<SessionCore>
        ensures some { IfSome result (λ x. find (is_session s) self.old.sessions.items ≡ Some x) }
        ensures none { IfNone result (find (is_session s) self.old.sessions.items ≡ None) }
        ensures rest { self.new.sessions.items ≡ without_first (is_session s) self.old.sessions.items }
    {
        match named_place(&self.sessions, s) {
            Some(place) => Some(self.sessions.remove(place)),
            None => None,
        }
    }

    /// Whether some session is attached.
    pub fn has_attached(&self) -> bool
        ensures { result ≡ list_any (λ x. not x.displaced) self.now.sessions.items }
    {
        self.sessions.iter().any(|session| !session.is_displaced())
    }

    /// The sessions were sent nothing of that channel. It takes no memory.
    pub fn forget(&mut self, c: ChannelId)
        ensures { self.new.sessions.items ≡ map (forgot c) self.old.sessions.items }
    {
        forget_channel(&mut self.sessions, c);
    }

    /// The sessions of that node, attached and displaced, are no more; says how many messages they held, and from 2^64 - 1
    /// on that. The others stay in order. It takes no memory.
    pub fn end_on(&mut self, node: NodeId) -> u64
        ensures sessions { self.new.sessions.items ≡ filter (λ x. not (x.node == node)) self.old.sessions.items }
        ensures held { result ≡ capped (sum_by (λ x. length (held x)) (filter (λ x. x.node == node) self.old.sessions.items)) }
    {
        let held = held_on(&self.sessions, node);
        remove_on(&mut self.sessions, node);
        held
    }

    /// How many messages the sessions of that node hold; from 2^64 - 1 on it says that.
    pub fn held_on(&self, node: NodeId) -> u64
        ensures { result ≡ capped (sum_by (λ x. length (held x)) (filter (λ x. x.node == node) self.now.sessions.items)) }
    {
        held_on(&self.sessions, node)
    }

    /// How many messages the sessions hold; from 2^64 - 1 on it says that.
    pub fn held(&self) -> u64
        ensures { result ≡ capped (sum_by (λ x. length (held x)) self.now.sessions.items) }
    {
        held_by_all(&self.sessions)
    }
}

#[tactic(auto, using(crate::proofs::SessionLemmas::forgot_more))]
fn forget_channel(sessions: &mut Vec<SessionCore>, c: ChannelId)
    ensures { sessions.new.items ≡ map (forgot c) sessions.old.items }
{
    for session in sessions.iter_mut() {
        session.forget(c);
    }
}

fn held_by_all(sessions: &[SessionCore]) -> u64
    ensures { result ≡ capped (sum_by (λ x. length (held x)) sessions.now) }
{
    let mut total: u64 = 0;
    for session in sessions {
        total = total.saturating_add(session.held() as u64);
    }
    total
}

// how many messages the sessions of that node hold
fn held_on(sessions: &[SessionCore], node: NodeId) -> u64
    ensures { result ≡ capped (sum_by (λ x. length (held x)) (filter (λ x. x.node == node) sessions.now)) }
{
    let mut total: u64 = 0;
    for session in sessions {
        if session.is_on(node) {
            total = total.saturating_add(session.held() as u64);
        }
    }
    total
}

fn remove_on(sessions: &mut Vec<SessionCore>, node: NodeId)
    ensures { sessions.new.items ≡ filter (λ x. not (x.node == node)) sessions.old.items }
{
    sessions.retain(|session| !session.is_on(node));
}
