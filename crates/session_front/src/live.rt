//! Where a session is served, and how far it has come.
ghost use Rattle.std.specs.Prelude.{◌≡◌, None, false};

use client_messages::Port;
use push_model::{NodeId, SessionId};
use session_drive::SessionEnd;

/// Where a session is served.
#[derive(Clone, Copy, Debug)]
pub struct Place {
    /// The node that serves it.
    pub node: NodeId,
    /// The port at which endpoints are reached.
    pub port: Port,
}

/// A client's session, as far as it has come.
#[derive(Clone, Copy, Debug)]
pub struct Live {
    /// The session, once its client said hello.
    pub s: Option<SessionId>,
    /// Whether a turn is to be made, though the client says nothing.
    pub due: bool,
}

impl Live {
    /// Before the client's hello.
    pub fn new() -> Live
        ensures { result ≡ record { s = None; due = false } }
    {
        Live {
            s: None,
            due: false,
        }
    }
}

/// What a pump did.
#[derive(Clone, Copy, Debug)]
pub enum Pumped {
    /// An item was answered, or a turn did something.
    Moved,
    /// Nothing was there to do.
    Idle,
    /// The session is over; the chat is finished.
    Done(SessionEnd),
}

/// How the serving of a session ended.
#[derive(Clone, Copy, Debug)]
pub enum SessionServed {
    /// The session is over.
    Done(SessionEnd),
    /// So many pumps were made as were asked for, and the session goes on.
    Paused,
}
