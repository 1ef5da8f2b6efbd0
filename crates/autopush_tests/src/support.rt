//! What several tests need: the words of a replay, the lines that open a session with a channel, a session's name and a
//! message.

use push_model::{
    Ask, Blob, ChannelId, Coding, Message, Moment, MsgId, NodeId, SessionId, Shared, Terms, Uaid,
    Urgency,
};
use std::alloc::{AllocError, Global};
use std::test::Fail;

/// The words of the command that replays.
pub fn replay_words(alloc: Global) -> Result<Vec<String>, AllocError> {
    let mut words = Vec::new(alloc);
    words.push(String::from_str(alloc, "replay")?)?;
    Ok(words)
}

/// Three lines that make a user, attach its session and register a channel.
pub const OPENING: &str = "create 1 1 100\nattach 1 1 100\nregister 1 1 100 5 1ab\n";

/// Their replies.
pub const OPENED: &str = "made\nattached .\nendpoint 1ab\n";

/// The session of user 1 at node 1 that was made at 100.
pub fn first_session() -> Result<SessionId, Fail> {
    session(1, 1)
}

/// The session of that user at that node that was made at 100.
pub fn session(uaid: u128, node: u8) -> Result<SessionId, Fail> {
    let node = NodeId::new(node).ok_or("a node")?;
    Ok(SessionId {
        uaid: Uaid(uaid),
        node,
        at: 100,
    })
}

/// A message of user 1 on channel 5, of 60 seconds and accepted at the start, with that number and payload.
pub fn message(alloc: Global, number: u64, payload: &[u8]) -> Result<Message, Fail> {
    if payload.is_empty() || payload.len() > 4096 {
        return Err(Fail::from("a payload of 1 to 4096 bytes"));
    }
    let ask = Ask {
        terms: Terms {
            ttl: 60,
            topic: None,
            urgency: Urgency::Normal,
            coding: Coding::Aes128gcm,
        },
        encryption: Blob::copy(alloc, b"")?,
        crypto_key: Blob::copy(alloc, b"")?,
        payload: Blob::copy(alloc, payload)?,
    };
    Ok(Message {
        id: MsgId { shard: 0, number },
        uaid: Uaid(1),
        chid: ChannelId(5),
        ask,
        accepted: Moment::zero(),
    })
}

/// The same message as its holders share it, of the payload `hi`.
pub fn shared(alloc: Global, number: u64) -> Result<Shared, Fail> {
    Ok(Shared::new(alloc, message(alloc, number, b"hi")?)?)
}
