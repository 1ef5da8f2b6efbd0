//! How users are made, routed and dropped.
ghost use Rattle.std.specs.Prelude.{◌≡◌, ◌++◌, ◌∷◌, [], IfOk, OnOk, OnErr, option_map, true};
ghost use Rattle.push_model.specs.Outcomes.{outcome};
ghost use Rattle.push_model.specs.UserSteps.{create, claim, new_claim, dropped, drop_user, expire, is_idle_user};
ghost use Rattle.push_model.specs.Kinds.{costs_memory};

use crate::cell::UserCell;
use channel_rows::Channels;
use message_rows::Rows;
use node_registry::Registry;
use push_model::{Claim, Moment, NoMemory, NodeId, Reply, SessionId};
use router_rows::RouterRow;
use shutdown_save::SaverRows;
use std::alloc::Global;

/// After how many seconds a user is idle who isn't touched and has no attached session.
const IDLE: u64 = 5_184_000;

impl UserCell {
    /// Makes the user, routed to that session, and opens the session's claim.
    pub(crate) fn create(&mut self, moment: Moment, s: SessionId) -> Result<Reply, NoMemory>
        ensures ok { IfOk result (λ r. create moment s self.old ≡ outcome self.new r) }
        ensures err { OnErr result ((self.new ≡ self.old) × (costs_memory (create moment s self.old).reply ≡ true)) }
    {
        if self.route.is_some() {
            return Ok(Reply::Taken);
        }
        open_claim(&mut self.claims, s)?;
        self.route = Some(RouterRow::new(s, moment));
        Ok(Reply::Made)
    }

    /// Routes the user to that session, if it is newer than the route row, and opens the session's claim.
    pub(crate) fn claim(&mut self, moment: Moment, s: SessionId) -> Result<Reply, NoMemory>
        ensures ok { IfOk result (λ r. claim moment s self.old ≡ outcome self.new r) }
        ensures err { OnErr result ((self.new ≡ self.old) × (costs_memory (claim moment s self.old).reply ≡ true)) }
    {
        let Some(route) = &mut self.route else {
            return Ok(Reply::NoUser);
        };
        if s.at <= route.at {
            return Ok(Reply::Stale(route.at));
        }
        open_claim(&mut self.claims, s)?;
        match route.claim(s.node, s.at, moment) {
            Ok(before) => Ok(Reply::Claimed(before)),
            Err(_) => unreachable!(),
        }
    }

    /// Drops the user, if it is idle.
    pub(crate) fn expire(&mut self, alloc: Global, moment: Moment) -> Reply
        ensures { expire moment self.old ≡ outcome self.new result }
    {
        if !self.is_idle(moment) {
            return Reply::Kept;
        }
        self.drop_parts(alloc);
        Reply::Dropped
    }

    /// Drops the user, if there is one.
    pub(crate) fn drop_user(&mut self, alloc: Global) -> Reply
        ensures { drop_user self.old ≡ outcome self.new result }
    {
        if !self.has_user() {
            return Reply::Kept;
        }
        self.drop_parts(alloc);
        Reply::Dropped
    }

    // all but the flights goes, and its memory is given back
    fn drop_parts(&mut self, alloc: Global)
        ensures { self.new ≡ dropped self.old }
    {
        self.route = None;
        self.channels = Channels::new(alloc);
        self.rows = Rows::new(alloc);
        self.claims = Vec::new(alloc);
        self.sessions = Registry::new(alloc);
        self.savers = SaverRows::new(alloc);
    }

    /// Whether there is a user that has no attached session and wasn't touched for so long that it is to be dropped.
    pub fn is_idle(&self, moment: Moment) -> bool
        ensures { result ≡ is_idle_user moment self.now.user self.now.sessions }
    {
        match &self.route {
            Some(route) => {
                !self.sessions.has_attached() && route.touched.seconds() + IDLE <= moment.seconds()
            }
            None => false,
        }
    }

    /// The node and the moment of the user's route row, if there is a user.
    pub fn route(&self) -> Option<(Option<NodeId>, u64)>
        ensures { result ≡ option_map (λ u. (u.route.node, u.route.at)) self.now.user }
    {
        match &self.route {
            Some(route) => Some((route.node, route.at)),
            None => None,
        }
    }
}

// opens the claim of that session, as the last
fn open_claim(claims: &mut Vec<Claim>, s: SessionId) -> Result<(), NoMemory>
    ensures ok { OnOk result (claims.new.items ≡ claims.old.items ++ new_claim s ∷ []) }
    ensures err { OnErr result (claims.new.items ≡ claims.old.items) }
{
    let claim = Claim {
        node: s.node,
        at: s.at,
    };
    match claims.push(claim) {
        Ok(()) => Ok(()),
        Err(_) => Err(NoMemory),
    }
}
