//! Why sessions end.
ghost use Rattle.std.specs.Prelude.{◌≡◌};
ghost use Rattle.session_drive.specs.Ends.{close_code};

use thiserror::Error;

/// Why a session ends, or could not begin.
#[derive(Clone, Copy, Debug, Error)]
pub enum SessionEnd {
    /// The user's route row is as new, with this moment in milliseconds.
    #[error("a session that is as new was claimed")]
    Stale(u64),
    /// A session with this greater moment in milliseconds is attached.
    #[error("a newer session is attached")]
    Outrun(u64),
    /// The node is down, or the session's claim isn't open any more.
    #[error("the node is down, or the claim was lost")]
    Down,
    /// Four drawn users were there already.
    #[error("no free user was drawn")]
    UaidSpent,
    /// Four drawn tokens were other channels' already.
    #[error("no free token was drawn")]
    TokenSpent,
    /// The session isn't there, or isn't attached any more.
    #[error("the session is gone")]
    Ended,
    /// The client said what it may not say.
    #[error("the client was refused")]
    Refused,
    /// The client left.
    #[error("the client left")]
    Left,
    /// The chat with the client failed.
    #[error("the chat failed")]
    ChatFault,
    /// There was no memory.
    #[error("out of memory")]
    NoMemory,
}

impl SessionEnd {
    /// The code with which the client's chat is closed (RFC 6455, section 7.4.2: 4000 to 4999 are free to use); none
    /// where the client left or the chat failed.
    pub fn close_code(&self) -> Option<u16>
        ensures { result ≡ close_code self.now }
    {
        match self {
            SessionEnd::Stale(_) | SessionEnd::Outrun(_) => Some(4409),
            SessionEnd::Down => Some(4503),
            SessionEnd::UaidSpent | SessionEnd::TokenSpent => Some(4507),
            SessionEnd::Ended => Some(4410),
            SessionEnd::Refused => Some(4400),
            SessionEnd::Left | SessionEnd::ChatFault => None,
            SessionEnd::NoMemory => Some(4500),
        }
    }
}
