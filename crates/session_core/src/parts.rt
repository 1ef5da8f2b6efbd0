//! What is left of a session that is closed.
ghost use Rattle.std.specs.Prelude.{◌≡◌, ◌+◌, ◌≤◌, [], vec_len, vec_capacity};

use crate::session::SessionCore;
use push_model::{MsgId, NodeId, Shared};

/// A session that is taken apart, for its saver.
#[derive(Drop)]
pub struct Parts {
    /// The node that served it.
    pub node: NodeId,
    /// The moment in milliseconds at which it was made.
    pub at: u64,
    /// Messages that were shown and not acknowledged.
    pub direct: Vec<Shared>,
    /// Messages that waited to be shown.
    pub inbox: Vec<Shared>,
    /// Empty, with room for the ids of all these messages.
    pub saved: Vec<MsgId>,
}

impl SessionCore {
    /// What is left of it, with room for the ids of the messages that it held. It takes no memory.
    pub fn into_parts(self) -> Parts
        ensures node { result.node ≡ self.node }
        ensures at { result.at ≡ self.at }
        ensures direct { result.direct.items ≡ self.direct }
        ensures inbox { result.inbox.items ≡ self.inbox }
        ensures saved { result.saved.items ≡ [] }
        ensures room { vec_len result.direct + vec_len result.inbox ≤ vec_capacity result.saved }
    {
        Parts {
            node: self.node,
            at: self.at,
            direct: self.direct,
            inbox: self.inbox,
            saved: self.saved,
        }
    }
}
