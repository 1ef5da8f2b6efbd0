//! What the steps of a session do: how it is attached, its channels, its messages, and how it is routed again.
ghost use Rattle.std.specs.Prelude.{◌≡◌, ◌++◌, ◌∷◌, [], IfOk, IfErr, IfSome, IfNone, OnOk, OnErr, find, false, is_some, true, position};
ghost use Rattle.push_model.specs.Keyed.{IsPlace};
ghost use Rattle.push_model.specs.Sessions.{is_attached_at};
ghost use Rattle.push_model.specs.Cells.{is_claim, unmarked_for};
ghost use Rattle.push_model.specs.Outcomes.{outcome};
ghost use Rattle.push_model.specs.SessionSteps.{attach, attached, register, lacks, unregister, take_direct, ack, renew};
ghost use Rattle.push_model.specs.Kinds.{costs_memory};
ghost use Rattle.node_registry.specs.Attaching.{IsJoined, is_outrun};
ghost use Rattle.user_cell.specs.Joining.{IsOutrunBy};

use crate::cell::UserCell;
use node_registry::{AttachFault, Registry};
use push_model::{
    AckedFrom, Channel, ChannelId, Claim, Moment, MsgId, NoMemory, NodeId, Reply, SessionId, Token,
};
use session_core::AckAnswer;
use std::alloc::Global;

impl UserCell {
    /// Attaches that session if its claim is open, in place of an older one that is attached at its node.
    pub(crate) fn attach(&mut self, alloc: Global, s: SessionId) -> Result<Reply, NoMemory>
        ensures ok { IfOk result (λ r. attach s self.old ≡ outcome self.new r) }
        ensures err { OnErr result ((self.new ≡ self.old) × (costs_memory (attach s self.old).reply ≡ true)) }
    {
        let Some(claim) = claim_place(&self.claims, s) else {
            return Ok(Reply::NotClaimed);
        };
        if let Some(at) = outrun_by(&self.sessions, s) {
            self.claims.remove(claim);
            return Ok(Reply::Outrun(at));
        }
        let before = self.join(alloc, s)?;
        self.claims.remove(claim);
        self.unmark_for(s.node, s.at);
        Ok(Reply::Attached(before))
    }

    // the session joins, with a place for its saver
    fn join(&mut self, alloc: Global, s: SessionId) -> Result<Option<u64>, NoMemory>
        requires { is_outrun s (find (is_attached_at s.node) self.old.sessions) ≡ false }
        ensures joined { IfOk result (λ before. IsJoined before s self.old.sessions self.new.sessions) }
        ensures others { OnOk result (self.new ≡ record self.old { sessions = self.new.sessions }) }
        ensures err { OnErr result (self.new ≡ self.old) }
    {
        self.savers.reserve(self.sessions.sessions.len() + 1)?;
        match self.sessions.attach(alloc, s) {
            Ok(before) => Ok(before),
            Err(AttachFault::NoMemory) => Err(NoMemory),
            Err(AttachFault::Outrun(_)) => unreachable!(),
        }
    }

    /// The rows lose their orphan marks, where the route row names that session.
    pub(crate) fn unmark_for(&mut self, node: NodeId, at: u64)
        ensures { self.new ≡ record self.old { user = unmarked_for node at self.old.user } }
    {
        let routed = match &self.route {
            Some(route) => route.is_routed_to(node, at),
            None => false,
        };
        if routed {
            self.rows.unmark_all();
        }
    }

    /// Registers the channel with that token, unless it is registered.
    pub(crate) fn register(
        &mut self,
        s: SessionId,
        chid: ChannelId,
        token: Token,
    ) -> Result<Reply, NoMemory>
        ensures ok { IfOk result (λ r. register s chid token self.old ≡ outcome self.new r) }
        ensures err { OnErr result ((self.new ≡ self.old) × (costs_memory (register s chid token self.old).reply ≡ true)) }
    {
        if self.sessions.attached(s).is_none() {
            return Ok(Reply::NoSession);
        }
        if let Some(registered) = self.channels.find(chid) {
            return Ok(Reply::Endpoint(registered));
        }
        if self.route.is_some() {
            self.channels.add(Channel { chid, token })?;
        }
        Ok(Reply::Endpoint(token))
    }

    /// Whether that session is attached.
    pub fn is_attached(&self, s: SessionId) -> bool
        ensures { result ≡ is_some (attached s self.now) }
    {
        self.sessions.attached(s).is_some()
    }

    /// Whether that session is attached, and its user has no such channel.
    pub fn lacks(&self, s: SessionId, chid: ChannelId) -> bool
        ensures { result ≡ lacks s chid self.now }
    {
        self.sessions.attached(s).is_some() && !self.channels.has(chid)
    }

    /// Takes out the channel, with its rows and what was sent of it.
    pub(crate) fn unregister(&mut self, s: SessionId, chid: ChannelId) -> Reply
        ensures { unregister s chid self.old ≡ outcome self.new result }
    {
        if self.sessions.attached(s).is_none() {
            return Reply::NoSession;
        }
        self.channels.remove(chid);
        self.rows.drop_channel(chid);
        self.sessions.forget(chid);
        Reply::Done
    }

    /// Shows that session its next messages.
    pub(crate) fn take_direct(
        &mut self,
        alloc: Global,
        moment: Moment,
        s: SessionId,
    ) -> Result<Reply, NoMemory>
        ensures ok { IfOk result (λ r. take_direct moment s self.old ≡ outcome self.new r) }
        ensures err { OnErr result ((self.new ≡ self.old) × (costs_memory (take_direct moment s self.old).reply ≡ true)) }
    {
        match self.sessions.attached(s) {
            Some(place) => {
                let session = &mut self.sessions.sessions[place];
                let page = session.take_direct(alloc, moment)?;
                Ok(Reply::Page(page))
            }
            None => Ok(Reply::NoSession),
        }
    }

    /// Takes a message that was shown or sent to that session out of its lists, and deletes its row.
    pub(crate) fn ack(&mut self, s: SessionId, chid: ChannelId, id: MsgId) -> Reply
        ensures { ack s chid id self.old ≡ outcome self.new result }
    {
        let Some(place) = self.sessions.attached(s) else {
            return Reply::NoSession;
        };
        let session = &mut self.sessions.sessions[place];
        let from = match session.ack(chid, id) {
            AckAnswer::Direct => AckedFrom::Direct,
            AckAnswer::Stored => AckedFrom::Stored,
            AckAnswer::Unknown => return Reply::Unknown,
        };
        self.rows.remove_id(id);
        Reply::Acked(from)
    }

    /// Routes the user to that session again, where the route row has lost its node, and lets it look at the rows.
    pub(crate) fn renew(&mut self, moment: Moment, s: SessionId) -> Reply
        ensures { renew moment s self.old ≡ outcome self.new result }
    {
        let Some(place) = self.sessions.attached(s) else {
            return Reply::NoSession;
        };
        let Some(route) = &mut self.route else {
            return Reply::Kept;
        };
        if !route.renew_if(s.node, s.at, moment) {
            return Reply::Kept;
        }
        self.rows.unmark_all();
        self.sessions.sessions[place].set_check();
        Reply::Renewed
    }
}

fn first_claim(claims: &[Claim], s: SessionId) -> Option<usize>
    ensures { result ≡ position (is_claim s) claims.now }
{
    claims
        .iter()
        .position(|claim| claim.node == s.node && claim.at == s.at)
}

fn claim_place(claims: &[Claim], s: SessionId) -> Option<usize>
    ensures { IsPlace (is_claim s) claims.now result }
{
    first_claim(claims, s)
}

// the moment of the session at its node, where that is greater
fn outrun_by(sessions: &Registry, s: SessionId) -> Option<u64>
    ensures some { IfSome result (λ at. IsOutrunBy at s sessions.now.sessions.items) }
    ensures none { IfNone result (is_outrun s (find (is_attached_at s.node) sessions.now.sessions.items) ≡ false) }
{
    match sessions.find(s.node) {
        Some(at) if s.at < at => Some(at),
        _ => None,
    }
}
