//! What the savers of a user say of a node, and of a row.
ghost use Rattle.std.specs.Prelude.{◌≡◌, ◌==◌, ◌≤◌, filter, length, not, sum_by, vec_len, vec_capacity};
ghost use Rattle.std.specs.List.{list_any};
ghost use Rattle.push_model.specs.declared.parts.Row.{Row};
ghost use Rattle.push_model.specs.Sessions.{Session};
ghost use Rattle.push_model.specs.Covering.{saver_covers};
ghost use Rattle.push_model.specs.NodeSteps.{is_left_orphan};
ghost use Rattle.push_model.specs.Tallies.{capped};
ghost use Rattle.shutdown_save.specs.Savers.{covers_place, has_left};

use crate::rows::SaverRows;
use crate::saver::Saver;
use push_model::{MsgId, NodeId, Row};

impl SaverRows {
    /// The savers of that node are no more; says how many messages they held, and from 2^64 - 1 on that. The others stay in
    /// order. It takes no memory.
    pub fn end_on(&mut self, node: NodeId) -> u64
        ensures savers { self.new.savers ≡ filter (λ v. not (v.node == node)) self.old.savers }
        ensures held { result ≡ capped (sum_by (λ v. length v.held) (filter (λ v. v.node == node) self.old.savers)) }
        ensures spare { self.new.spare ≡ self.old.spare }
    {
        let held = held_on(&self.savers, node);
        remove_on(&mut self.savers, node);
        held
    }

    /// How many messages the savers of that node hold; from 2^64 - 1 on it says that.
    pub fn held_on(&self, node: NodeId) -> u64
        ensures { result ≡ capped (sum_by (λ v. length v.held) (filter (λ v. v.node == node) self.now.savers)) }
    {
        held_on(&self.savers, node)
    }

    /// Whether a saver of that node saved that message, and has told nobody: its row is to be an orphan once the node is
    /// killed.
    pub fn saved_on(&self, node: NodeId, id: MsgId) -> bool
        ensures { (r : Row) → r.message.id ≡ id → result ≡ is_left_orphan node self.now.savers r }
    {
        left_on(&self.savers, node, id)
    }

    /// Whether a saver has saved the row's message, and is about to tell the session of that node and moment of it.
    pub fn covers(&self, node: NodeId, at: u64, row: &Row) -> bool
        ensures { (x : Session) → x.node ≡ node → x.at ≡ at → result ≡ list_any (saver_covers x row.now) self.now.savers }
    {
        covers_id(&self.savers, node, at, row.message.message().id)
    }
}

fn left_on(savers: &[Saver], node: NodeId, id: MsgId) -> bool
    ensures { result ≡ list_any (has_left node id) savers.now }
{
    savers.iter().any(|saver| saver.has_left(node, id))
}

fn covers_id(savers: &[Saver], node: NodeId, at: u64, id: MsgId) -> bool
    ensures { result ≡ list_any (covers_place node at id) savers.now }
{
    savers.iter().any(|saver| saver.covers(node, at, id))
}

// how many messages the savers of that node hold
fn held_on(savers: &[Saver], node: NodeId) -> u64
    ensures { result ≡ capped (sum_by (λ v. length v.held) (filter (λ v. v.node == node) savers.now)) }
{
    let mut total: u64 = 0;
    for saver in savers {
        if saver.is_on(node) {
            total = total.saturating_add(saver.held() as u64);
        }
    }
    total
}

fn remove_on(savers: &mut Vec<Saver>, node: NodeId)
    ensures savers { savers.new.items ≡ filter (λ v. not (v.node == node)) savers.old.items }
    ensures len { vec_len savers.new ≤ vec_len savers.old }
    ensures capacity { vec_capacity savers.new ≡ vec_capacity savers.old }
{
    savers.retain(|saver| !saver.is_on(node));
}
