//! The one user that there is, and the steps of its session.
ghost use Rattle.std.specs.Prelude.{◌≡◌, true};
ghost use Rattle.push_model.specs.Steps.{proper};
ghost use Rattle.http_front.specs.OpNumbers.{IsBelow};

use crate::scene::Scene;
use push_model::{ChannelId, NodeId, Reply, SessionId, Step, Token, Uaid};
use std::alloc::Global;

/// The token of the user's one channel.
pub const TOKEN: Token = Token([
    0, 0, 0, 0, 0, 0, 0, 0, 0, 0, 0, 0, 0, 0, 0, 0, 0, 0, 0, 0, 0, 0, 0, 1,
]);

// More pages than a session can fill, which holds at most 500 messages.
const PAGES: u32 = 100;

/// What sends messages to the one shard that there is, and makes the steps of the session.
pub trait Maker {
    /// Makes a step that begins no flight. None comes where memory is missing.
    fn make(&mut self, alloc: Global, asked: Step) -> Option<Reply>
        requires allowed { proper 0 asked ≡ true }
        requires quiet { IsBelow 0 asked };

    /// Sends so many messages in a row, each with the one topic or without, and tells how many were answered 201.
    fn send(&mut self, alloc: Global, has_topic: bool, count: u64) -> Option<u64>;
}

fn session() -> Option<SessionId> {
    Some(SessionId {
        uaid: Uaid(1),
        node: NodeId::new(1)?,
        at: 100,
    })
}

// Makes the user and its channel, with a session or, where the scene has none, with one that was closed and released.
fn open<M: Maker>(alloc: Global, maker: &mut M, scene: Scene) -> Option<()> {
    let session = session()?;
    let _ = maker.make(alloc, Step::Create(session))?;
    let _ = maker.make(alloc, Step::Attach(session))?;
    let _ = maker.make(alloc, Step::Register(session, ChannelId(7), TOKEN))?;
    if !scene.has_session {
        let _ = maker.make(alloc, Step::Close(session))?;
        let _ = maker.make(alloc, Step::Release(session))?;
    }
    Some(())
}

// Takes the session's next messages, acknowledges each, and tells whether there were any.
fn take_page<M: Maker>(alloc: Global, maker: &mut M, session: SessionId) -> Option<bool> {
    let Reply::Page(page) = maker.make(alloc, Step::TakeDirect(session))? else {
        return None;
    };
    for place in 0..page.len() {
        let message = page.at(place);
        let _ = maker.make(alloc, Step::Ack(session, message.chid, message.id))?;
    }
    Some(!page.is_empty())
}

// Takes all messages that the session holds, and acknowledges them.
fn take_all<M: Maker>(alloc: Global, maker: &mut M) -> Option<()> {
    let session = session()?;
    for _ in 0..PAGES {
        if !take_page(alloc, maker, session)? {
            return Some(());
        }
    }
    None
}

/// Makes the user of that scene, sends so many messages, and tells how many were answered 201. None comes where memory is missing, or
/// the user couldn't be made as the scene says.
pub fn send_all<M: Maker>(alloc: Global, maker: &mut M, scene: Scene, count: u64) -> Option<u64> {
    open(alloc, maker, scene)?;
    let rows = maker.send(alloc, false, scene.rows)?;
    let row = scene.in_a_row();
    let mut left = count;
    let mut taken: u64 = 0;
    for _ in 0..count.div_ceil(row) {
        let more = maker.send(alloc, !scene.has_session, row.min(left))?;
        taken = taken.saturating_add(more);
        left = left.saturating_sub(row);
        if scene.has_session {
            take_all(alloc, maker)?;
        }
    }
    (rows == scene.rows).then_some(taken)
}
