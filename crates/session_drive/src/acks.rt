//! Acknowledging messages.
ghost use Rattle.std.specs.Prelude.{◌<◌, true, Some};
ghost use Rattle.session_drive.specs.Runs.{Steps};
ghost use Rattle.session_drive.specs.Answers.{AckMade, AckSays, IsQuiet, acking, acks_of};

use crate::ends::SessionEnd;
use client_messages::Updates;
use push_model::{ChannelId, Desks, MsgId, Reply, SessionId, Step};
use std::alloc::Global;

fn acked_by(reply: &Reply) -> Result<(), SessionEnd>
    ensures { AckSays true result (Some reply.now) }
{
    match reply {
        Reply::NoSession => Err(SessionEnd::Ended),
        _ => Ok(()),
    }
}

// Acknowledges one message, if it is of this shard.
fn ack<D: Desks>(
    alloc: Global,
    desks: &mut D,
    shard: u8,
    s: SessionId,
    chid: ChannelId,
    id: MsgId,
) -> Result<(), SessionEnd>
    requires { shard < (D.view desks.old).size }
    ensures { AckMade shard s chid id result (D.view desks.old) (D.view desks.new) }
{
    if id.shard != shard {
        return Ok(());
    }
    match desks.call(alloc, shard, Step::Ack(s, chid, id)) {
        Ok(reply) => acked_by(&reply),
        Err(_) => unreachable!(),
    }
}

/// Acknowledges those messages that are of this shard, in order, unless a step replies NoSession.
pub fn ack_all<D: Desks>(
    alloc: Global,
    desks: &mut D,
    shard: u8,
    s: SessionId,
    updates: &Updates,
) -> Result<(), SessionEnd>
    requires { shard < (D.view desks.old).size }
    ensures steps { Steps (acking shard s (acks_of shard updates.now)) result (D.view desks.old) (D.view desks.new) }
    ensures quiet { IsQuiet result }
{
    for place in 0..updates.len() {
        let (chid, id) = updates.at(place);
        ack(alloc, desks, shard, s, chid, id)?;
    }
    Ok(())
}
