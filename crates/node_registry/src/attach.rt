//! How a session is attached.
ghost use Rattle.std.specs.Prelude.{◌≡◌, ◌++◌, ◌∷◌, [], IfOk, IfErr, OnOk, OnErr};
ghost use Rattle.push_model.specs.Keyed.{with_first, FoundAt};
ghost use Rattle.push_model.specs.Sessions.{displaced, is_attached_at, new_session};
ghost use Rattle.node_registry.specs.Attaching.{IsJoined, IsRefused};

use crate::places::place_at;
use crate::registry::Registry;
use push_model::{NoMemory, SessionId};
use session_core::SessionCore;
use std::alloc::Global;

/// Why a session isn't attached.
#[derive(Clone, Copy, Debug)]
pub enum AttachFault {
    /// A session with this greater moment is attached at its node.
    Outrun(u64),
    /// There was no memory.
    NoMemory,
}

impl Registry {
    /// Attaches the session as the last, in place of the one that is attached at its node, which stays as displaced; says of
    /// which moment that was. Where that moment is greater, the session is `Outrun`, and all stays as it is; so it does at
    /// `NoMemory`, which comes only where none is greater.
    pub fn attach(&mut self, alloc: Global, s: SessionId) -> Result<Option<u64>, AttachFault>
        ensures ok { IfOk result (λ moment. IsJoined moment s self.old.sessions.items self.new.sessions.items) }
        ensures err { IfErr result (λ fault. IsRefused fault s self.old.sessions.items self.new.sessions.items) }
    {
        match place_at(&self.sessions, s.node) {
            Some(place) => {
                let at = self.sessions[place].at();
                if s.at < at {
                    return Err(AttachFault::Outrun(at));
                }
                match displace_by(alloc, &mut self.sessions, place, s) {
                    Ok(()) => Ok(Some(at)),
                    Err(NoMemory) => Err(AttachFault::NoMemory),
                }
            }
            None => match self.sessions.push(SessionCore::new(alloc, s)) {
                Ok(()) => Ok(None),
                Err(_) => Err(AttachFault::NoMemory),
            },
        }
    }
}

// the session of that place is displaced, and the new one joins
fn displace_by(
    alloc: Global,
    sessions: &mut Vec<SessionCore>,
    place: usize,
    s: SessionId,
) -> Result<(), NoMemory>
    requires { FoundAt (is_attached_at s.node) sessions.old.items place }
    ensures ok { OnOk result (sessions.new.items ≡ with_first (is_attached_at s.node) displaced sessions.old.items ++ new_session s ∷ []) }
    ensures err { OnErr result (sessions.new.items ≡ sessions.old.items) }
{
    if sessions.push(SessionCore::new(alloc, s)).is_err() {
        return Err(NoMemory);
    }
    sessions[place].displace();
    Ok(())
}
