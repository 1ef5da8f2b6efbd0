//! What is replied, by what becomes of actors.
ghost use Rattle.std.specs.Prelude.{◌≡◌};
ghost use Rattle.push_model.specs.declared.reply.Reply.{Reply};
ghost use Rattle.push_model.specs.Outcomes.{advance_reply, read_reply};

use push_model::{Advance, Reply, Stage};

/// Where the actor stands, or how it ended, and `absent` where it isn't there.
pub(crate) fn advance_reply(advance: Advance, absent: Reply) -> Reply
    ensures { result ≡ advance_reply advance absent }
{
    match advance {
        Advance::Moved(stage) => Reply::Moved(stage),
        Advance::End(code) => Reply::End(code),
        Advance::Out(stage) => Reply::Stage(stage),
        Advance::Absent => absent,
    }
}

/// The same, but the session that the actor is to nudge is named.
pub(crate) fn read_reply(advance: Advance, absent: Reply) -> Reply
    ensures { result ≡ read_reply advance absent }
{
    match advance {
        Advance::Moved(stage) => read_stage(stage),
        _ => advance_reply(advance, absent),
    }
}

// the actor goes on at that stage
fn read_stage(stage: Stage) -> Reply
    ensures { (absent : Reply) → result ≡ read_reply (Advance.Moved stage) absent }
{
    match stage {
        Stage::Nudge(node, at) => Reply::Names(node, at),
        _ => Reply::Moved(stage),
    }
}
