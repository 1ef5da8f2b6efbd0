//! The route row of a user: which node serves the user, and since which session.
#![tactic(auto)]

ghost use Rattle.std.specs.Prelude.{◌≡◌, true, false, IfOk, IfErr, OnOk, OnErr};
ghost use Rattle.push_model.specs.Cells.{place_of};
ghost use Rattle.router_rows.specs.Routes.{cleared_if, is_open, is_outrun, is_routed, renewed_if, route_at, touched_at};

use push_model::{Moment, NodeId, SessionId};
use std::marker::Model;

/// The route row of a user. Contracts see it as the record `Route`.
#[derive(Clone, Copy, Debug, PartialEq, Eq)]
pub struct RouterRow {
    /// The node that serves the user, where one does.
    pub node: Option<NodeId>,
    /// The moment in milliseconds at which the user's newest session was made.
    pub at: u64,
    /// When the row was last touched.
    pub touched: Moment,
}

impl Model for RouterRow {
    ghost use Rattle.push_model.specs.Cells.{Route};

    ghost Value = { Route };

    ghost view = { λ r. record { node = r.node; at = r.at; touched = r.touched } };

    ghost inverse = { λ r. record { node = r.node; at = r.at; touched = r.touched } };
}

impl RouterRow {
    /// The row of a user whose first session is this one. It takes no memory.
    pub fn new(s: SessionId, now: Moment) -> RouterRow
        ensures { result ≡ route_at s.node s.at now }
    {
        RouterRow {
            node: Some(s.node),
            at: s.at,
            touched: now,
        }
    }

    /// Routes the user to the session of that node and moment, exactly where it is newer than the row's, and answers the
    /// node that served the user before. Where it isn't, the row stays as it is, and the error is the row's moment.
    pub fn claim(&mut self, node: NodeId, at: u64, now: Moment) -> Result<Option<NodeId>, u64>
        ensures newer { OnOk result (is_outrun at self.old ≡ true) }
        ensures before { IfOk result (λ before. before ≡ self.old.node) }
        ensures claimed { OnOk result (self.new ≡ route_at node at now) }
        ensures stale { OnErr result (is_outrun at self.old ≡ false) }
        ensures kept { IfErr result (λ kept. kept ≡ self.old.at) }
        ensures same { OnErr result (self.new ≡ self.old) }
    {
        if self.at >= at {
            return Err(self.at);
        }
        let before = self.node;
        *self = RouterRow {
            node: Some(node),
            at,
            touched: now,
        };
        Ok(before)
    }

    /// Takes the node out, exactly where the row names that node and moment; says whether it did. Else the row stays as it
    /// is.
    pub fn clear_if(&mut self, node: NodeId, at: u64) -> bool
        ensures value { result ≡ is_routed node at self.old }
        ensures row { self.new ≡ cleared_if node at self.old }
    {
        let routed = self.is_routed_to(node, at);
        if routed {
            self.node = None;
        }
        routed
    }

    /// Routes the user to that node again, exactly where the row has that moment and no node; says whether it did. Else the
    /// row stays as it is.
    pub fn renew_if(&mut self, node: NodeId, at: u64, now: Moment) -> bool
        ensures value { result ≡ is_open at self.old }
        ensures row { self.new ≡ renewed_if node at now self.old }
    {
        let open = self.at == at && self.node.is_none();
        if open {
            self.node = Some(node);
            self.touched = now;
        }
        open
    }

    /// The row was touched now; its node and its moment stay as they are.
    pub fn touch(&mut self, now: Moment)
        ensures { self.new ≡ touched_at now self.old }
    {
        self.touched = now;
    }

    /// The node and the moment that the row names, if it has a node.
    pub fn place(&self) -> Option<(NodeId, u64)>
        ensures { result ≡ place_of self.now.node self.now.at }
    {
        match self.node {
            Some(node) => Some((node, self.at)),
            None => None,
        }
    }

    /// Whether the row names exactly that node and moment.
    pub fn is_routed_to(&self, node: NodeId, at: u64) -> bool
        ensures { result ≡ is_routed node at self.now }
    {
        match self.place() {
            Some((routed, moment)) => routed == node && moment == at,
            None => false,
        }
    }
}
