//! Answers to the sender of a message.

use push_model::MsgId;

/// What the sender of a message is answered.
#[derive(Clone, Copy, Debug, PartialEq, Eq)]
pub enum Answer {
    /// The message was taken: its id, and the seconds for which it is kept (RFC 8030, section 5.2).
    Created(MsgId, u32),
    /// No channel has the token.
    Gone,
    /// The user has as many stored messages as there may be.
    Full,
    /// Every message number of the shard was given.
    IdsSpent,
}
