//! A saver: what is left of one closed session.
ghost use Rattle.std.specs.Prelude.{◌≡◌, ◌==◌, ◌∷◌, ◌++◌, ◌+◌, ◌<◌, ◌≤◌, [], length, reverse, vec_len, vec_capacity, IfSome, IfNone};
ghost use Rattle.std.specs.List.{list_any};
ghost use Rattle.push_model.specs.Names.{is_same_id};
ghost use Rattle.push_model.specs.Cells.{is_saver};
ghost use Rattle.push_model.specs.Covering.{is_saving};
ghost use Rattle.push_model.specs.NodeSteps.{is_told};
ghost use Rattle.push_model.specs.SaverSteps.{has_saved, saver_at, with_held, with_saved};
ghost use Rattle.shutdown_save.specs.Savers.{new_saver, rest, covers_place, has_left, tells_place};

use push_model::{Message, MsgId, NodeId, SessionId, Shared, Stage};
use std::marker::Model;

/// A closed session: what it still holds, the ids that it has saved, and how far it has come. What it holds stands in two
/// lists, those that were shown and those that waited, each with the next message at its end.
#[derive(Drop)]
pub struct Saver {
    node: NodeId,
    at: u64,
    direct: Vec<Shared>,
    inbox: Vec<Shared>,
    saved: Vec<MsgId>,
    stage: Stage,
}

impl Model for Saver {
    ghost use Rattle.std.specs.Prelude.{◌+◌, ◌≤◌, ◌++◌, reverse, vec_len, vec_capacity};
    ghost use Rattle.push_model.specs.Cells.{Saver};

    ghost Value = { Saver };

    ghost view = { λ v. record { node = v.node; at = v.at; held = reverse v.direct.items ++ reverse v.inbox.items; saved = v.saved.items; stage = v.stage } };

    ghost invariant = { λ v. vec_len v.saved + (vec_len v.direct + vec_len v.inbox) ≤ vec_capacity v.saved };
}

impl Saver {
    /// The saver of that session, which holds these messages and is to save them. It takes no memory.
    pub fn new(s: SessionId, direct: Vec<Shared>, inbox: Vec<Shared>, saved: Vec<MsgId>) -> Saver
        requires empty { saved.items ≡ [] }
        requires ids { vec_len direct + vec_len inbox ≤ vec_capacity saved }
        ensures { result ≡ new_saver s direct.items inbox.items }
    {
        let mut direct = direct;
        let mut inbox = inbox;
        direct.reverse();
        inbox.reverse();
        Saver {
            node: s.node,
            at: s.at,
            direct,
            inbox,
            saved,
            stage: Stage::Saving,
        }
    }

    /// Whether it is the saver of that session.
    pub fn is_of(&self, s: SessionId) -> bool
        ensures { result ≡ is_saver s self.now }
    {
        self.node == s.node && self.at == s.at
    }

    /// Whether its session was on that node.
    pub fn is_on(&self, node: NodeId) -> bool
        ensures { result ≡ (self.now.node == node) }
    {
        self.node == node
    }

    /// How far it has come.
    pub fn stage(&self) -> Stage
        ensures { result ≡ self.now.stage }
    {
        self.stage
    }

    /// It goes on at that stage.
    pub fn go_on(&mut self, stage: Stage)
        ensures { self.new ≡ saver_at stage self.old }
    {
        self.stage = stage;
    }

    /// Whether it has saved anything.
    pub fn has_saved(&self) -> bool
        ensures { result ≡ has_saved self.now }
    {
        !self.saved.is_empty()
    }

    /// How many messages it holds.
    pub fn held(&self) -> usize
        ensures { result ≡ length self.now.held }
    {
        self.direct.len() + self.inbox.len()
    }

    /// The next message that it is to save.
    pub fn next(&self) -> Option<&Message>
        ensures some { IfSome result (λ m. self.now.held ≡ m.now ∷ rest self.now.held) }
        ensures none { IfNone result (self.now.held ≡ []) }
    {
        match last_message(&self.direct) {
            Some(message) => Some(message),
            None => last_message(&self.inbox),
        }
    }

    /// The next message is left, if there is one.
    pub fn leave_next(&mut self)
        ensures { self.new ≡ with_held (rest self.old.held) self.old }
    {
        let _ = pop_next(&mut self.direct, &mut self.inbox);
    }

    /// The next message is saved: its id is kept, in room that was reserved.
    pub fn save_next(&mut self) -> Shared
        requires { 0 < length self.old.held }
        ensures message { self.old.held ≡ result ∷ rest self.old.held }
        ensures saver { self.new ≡ with_saved result.id (rest self.old.held) self.old }
    {
        let Some(shared) = pop_next(&mut self.direct, &mut self.inbox) else {
            unreachable!();
        };
        match self.saved.push(shared.message().id) {
            Ok(()) => {}
            Err(_) => unreachable!(),
        }
        shared
    }

    /// Whether it saved that message.
    fn has_saved_id(&self, id: MsgId) -> bool
        ensures { result ≡ list_any (λ i. is_same_id i id) self.now.saved }
    {
        self.saved.iter().any(|saved| saved.is_same(&id))
    }

    /// Whether it saved that message on that node, and has told nobody.
    pub fn has_left(&self, node: NodeId, id: MsgId) -> bool
        ensures { result ≡ has_left node id self.now }
    {
        self.is_on(node) && !is_told(self.stage) && self.has_saved_id(id)
    }

    /// Whether it has saved that message, and is about to tell the session of that place of it, as far as its stage says.
    pub fn covers(&self, node: NodeId, at: u64, id: MsgId) -> bool
        ensures { result ≡ covers_place node at id self.now }
    {
        self.has_saved_id(id) && (is_saving(self.stage) || tells_place(self.stage, node, at))
    }
}

fn is_told(stage: Stage) -> bool
    ensures { result ≡ is_told stage }
{
    matches!(stage, Stage::ToldNudge(_, _, _))
}

fn is_saving(stage: Stage) -> bool
    ensures { result ≡ is_saving stage }
{
    matches!(stage, Stage::Saving)
}

// whether an actor at that stage is to read the route row again, or to tell or unroute the session of that place
fn tells_place(stage: Stage, node: NodeId, at: u64) -> bool
    ensures { result ≡ tells_place node at stage }
{
    match stage {
        Stage::Reread => true,
        Stage::Nudge(to, moment) | Stage::Clear(to, moment) => to == node && moment == at,
        _ => false,
    }
}

fn last_message(messages: &[Shared]) -> Option<&Message>
    ensures some { IfSome result (λ m. reverse messages.now ≡ m.now ∷ rest (reverse messages.now)) }
    ensures none { IfNone result (messages.now ≡ []) }
{
    match messages.last() {
        Some(shared) => Some(shared.message()),
        None => None,
    }
}

// takes the last of the first list, or where there is none the last of the second
fn pop_next(direct: &mut Vec<Shared>, inbox: &mut Vec<Shared>) -> Option<Shared>
    ensures some { IfSome result (λ m. reverse direct.old.items ++ reverse inbox.old.items ≡ m ∷ (reverse direct.new.items ++ reverse inbox.new.items)) }
    ensures less { IfSome result (λ _. vec_len direct.new + vec_len inbox.new + 1 ≡ vec_len direct.old + vec_len inbox.old) }
    ensures none { IfNone result ((direct.old.items ≡ []) × (direct.new.items ≡ []) × (inbox.old.items ≡ []) × (inbox.new.items ≡ [])) }
{
    match direct.pop() {
        Some(shared) => Some(shared),
        None => inbox.pop(),
    }
}
