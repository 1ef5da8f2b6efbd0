//! What the router reads in replies.
ghost use Rattle.std.specs.Prelude.{◌≡◌, ◌==◌};
ghost use Rattle.endpoint_router.specs.Readings.{answer_to, begins_of, begins_unrouted, code_of, is_end, node_of};

use crate::answer::Answer;
use push_model::{MsgId, NodeId, Reply};

/// How a flight begins.
#[derive(Clone, Copy, Debug)]
pub enum Begins {
    /// It doesn't, or it ended at once.
    Ends(Answer),
    /// The message with that id is to be given to the session at that node.
    Gives(MsgId, NodeId),
    /// The message with that id is to be stored.
    Stores(MsgId),
}

/// How the flight of a message with that ttl begins, by the reply to its Begin.
pub fn beginning(ttl: u32, reply: &Reply) -> Begins
    ensures { result ≡ begins_of ttl reply.now }
{
    match reply {
        Reply::Begun(id, Some((node, _))) => Begins::Gives(*id, *node),
        Reply::Begun(id, None) => begins_unrouted(ttl, *id),
        Reply::IdsSpent => Begins::Ends(Answer::IdsSpent),
        _ => Begins::Ends(Answer::Gone),
    }
}

// The user isn't routed: a message with ttl 0 is never stored.
fn begins_unrouted(ttl: u32, id: MsgId) -> Begins
    ensures { result ≡ begins_unrouted (ttl == 0) id ttl }
{
    if ttl == 0 {
        Begins::Ends(Answer::Created(id, ttl))
    } else {
        Begins::Stores(id)
    }
}

/// The code with which the flight ended, if it did.
pub fn end_code(reply: &Reply) -> Option<u16>
    ensures { result ≡ code_of reply.now }
{
    match reply {
        Reply::End(code) => Some(*code),
        _ => None,
    }
}

/// Whether the flight ended.
pub fn ends(reply: &Reply) -> bool
    ensures { result ≡ is_end reply.now }
{
    matches!(reply, Reply::End(_))
}

/// The node of the session that the route row names, if it names one.
pub fn named_node(reply: &Reply) -> Option<NodeId>
    ensures { result ≡ node_of reply.now }
{
    match reply {
        Reply::Names(node, _) => Some(*node),
        _ => None,
    }
}

/// What the sender is answered where Store ended the flight with that code.
pub fn answer_to(id: MsgId, ttl: u32, code: u16) -> Answer
    ensures { result ≡ answer_to id ttl code }
{
    match code {
        410 => Answer::Gone,
        503 => Answer::Full,
        _ => Answer::Created(id, ttl),
    }
}
