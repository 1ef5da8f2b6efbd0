//! The flight that a route makes the steps of.

use push_model::{MsgId, Op};

/// A flight: the shard that it is on, its name, and the id and the ttl of its message.
#[derive(Clone, Copy, Debug)]
pub struct Routing {
    /// The shard that it is on.
    pub shard: u8,
    /// Its name.
    pub op: Op,
    /// The id of its message.
    pub id: MsgId,
    /// The seconds for which its message is kept.
    pub ttl: u32,
}
