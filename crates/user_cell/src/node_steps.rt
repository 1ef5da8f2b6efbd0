//! What happens to a user at one node: its session there is told to look at the rows, and the node is killed.
ghost use Rattle.std.specs.Prelude.{◌≡◌, ◌==◌, ◌&&◌, ◌≤◌, count_by, filter, find, is_some, map, not};
ghost use Rattle.push_model.specs.Sessions.{is_attached_at};
ghost use Rattle.push_model.specs.Outcomes.{outcome};
ghost use Rattle.push_model.specs.NodeSteps.{told, notif, killed, held_on, orphaned, orphaned_on, is_left_orphan};
ghost use Rattle.push_model.specs.Tallies.{capped};
ghost use Rattle.user_cell.specs.Nudges.{told_to};

use crate::cell::UserCell;
use message_rows::Rows;
use push_model::{Claim, NodeId, Reply, Row};
use shutdown_save::SaverRows;

impl UserCell {
    /// The session attached at that node is to look at the rows, and where the route row names it, the rows lose their
    /// orphan marks. Says whether there is one.
    pub(crate) fn tell(&mut self, node: NodeId) -> bool
        ensures found { result ≡ is_some (find (is_attached_at node) self.old.sessions) }
        ensures cell { self.new ≡ told node (find (is_attached_at node) self.old.sessions) self.old }
    {
        let Some(place) = self.sessions.at(node) else {
            return false;
        };
        let session = &mut self.sessions.sessions[place];
        let at = session.at();
        session.set_check();
        self.unmark_for(node, at);
        true
    }

    /// The reply of one who told a session, or found none.
    pub(crate) fn told_reply(&self, told: bool) -> Reply
        ensures { result ≡ told_to told self.now }
    {
        if told {
            Reply::Here(self.uaid)
        } else {
            Reply::NotHere
        }
    }

    /// Tells the session attached at that node to look at the rows.
    pub(crate) fn notif(&mut self, node: NodeId) -> Reply
        ensures { notif node self.old ≡ outcome self.new result }
    {
        let told = self.tell(node);
        self.told_reply(told)
    }

    /// How many messages are held on the node; from 2^64 - 1 on it says that.
    pub fn held_on(&self, node: NodeId) -> u64
        ensures { result ≡ capped (held_on node self.now) }
    {
        let shown = self.sessions.held_on(node);
        let closed = self.savers.held_on(node);
        shown.saturating_add(closed)
    }

    /// How many rows become orphans where the node is killed: savers there saved them, and have yet to tell of them.
    pub fn orphaned_on(&self, node: NodeId) -> u64
        ensures { result ≡ capped (orphaned_on node self.now) }
    {
        count_left(self.user_rows(), &self.savers, node)
    }

    /// The node is killed: what was on it goes, and the rows that its savers had yet to tell of become orphans. It takes
    /// no memory.
    pub fn kill(&mut self, node: NodeId)
        ensures { self.new ≡ killed node self.old }
    {
        mark_left(&mut self.rows, &self.savers, node);
        self.sessions.end_on(node);
        self.savers.end_on(node);
        end_claims(&mut self.claims, node);
    }
}

fn count_left(rows: &[Row], savers: &SaverRows, node: NodeId) -> u64
    ensures { result ≡ capped (count_by (λ r. not r.orphan && is_left_orphan node savers.now.savers r) rows.now) }
{
    rows.iter().filter(|row| is_left(row, savers, node)).count() as u64
}

// whether the row has no orphan mark, and gets one where the node is killed
fn is_left(row: &Row, savers: &SaverRows, node: NodeId) -> bool
    ensures { result ≡ (not row.now.orphan && is_left_orphan node savers.now.savers row.now) }
{
    !row.orphan && savers.saved_on(node, row.message.message().id)
}

// the rows that savers of that node saved, and had yet to tell of, get the orphan mark
fn mark_left(rows: &mut Rows, savers: &SaverRows, node: NodeId)
    ensures rows { rows.new.rows ≡ map (orphaned node savers.now.savers) rows.old.rows }
    ensures kept { rows.old.spare ≤ rows.new.spare }
{
    rows.mark_where(|row| savers.saved_on(node, row.message.message().id));
}

fn end_claims(claims: &mut Vec<Claim>, node: NodeId)
    ensures { claims.new.items ≡ filter (λ k. not (k.node == node)) claims.old.items }
{
    claims.retain(|claim| claim.node != node);
}
