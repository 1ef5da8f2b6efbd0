//! What a client says.

use crate::updates::Updates;
use push_model::{ChannelId, Uaid};
use thiserror::Error;

/// What a client says.
#[derive(Debug, Drop)]
pub enum ClientMsg {
    /// It begins a session, as that user if it names one.
    Hello(Option<Uaid>),
    /// It registers a channel.
    Register(ChannelId),
    /// It removes a channel.
    Unregister(ChannelId),
    /// It acknowledges messages.
    Ack(Updates),
    /// It could not read a message. Nothing changes.
    Nack,
    /// It asks for broadcasts, of which there are none. Nothing changes.
    BroadcastSubscribe,
    /// It asks whether the connection is alive.
    Ping,
}

/// A member that a message needs.
#[derive(Clone, Copy, Debug, PartialEq, Eq)]
pub enum Field {
    /// The member `channelID`, a channel.
    ChannelId,
    /// The member `updates`, a list.
    Updates,
}

/// Why a client's text was not read.
#[derive(Clone, Copy, Debug, Error)]
pub enum ClientFault {
    /// It is no JSON that `serde_json` takes.
    #[error("no JSON")]
    NotJson,
    /// It is no object, or is one that has members and no string under `messageType`.
    #[error("no message type")]
    NoType,
    /// The type is none that clients have.
    #[error("unknown message type")]
    UnknownType,
    /// A member that its type needs is missing or has another form.
    #[error("missing or malformed member")]
    BadField(Field),
    /// Memory ran out; of the text nothing is known.
    #[error("out of memory")]
    NoMemory,
}
