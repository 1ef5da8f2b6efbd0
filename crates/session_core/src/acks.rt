//! Acknowledgements: in which of a session's lists the message was.
ghost use Rattle.std.specs.Prelude.{◌≡◌, ◌≤◌, vec_len, position};
ghost use Rattle.std.specs.List.{list_any};
ghost use Rattle.push_model.specs.Messages.{is_message};
ghost use Rattle.push_model.specs.Keyed.{without_first, IsPlace};
ghost use Rattle.push_model.specs.Sessions.{acked_in};
ghost use Rattle.session_core.specs.Acks.{IsAcked};

use crate::session::SessionCore;
use push_model::{ChannelId, MsgId, Shared};

/// In which of a session's lists an acknowledged message was.
#[derive(Clone, Copy, Debug)]
pub enum AckAnswer {
    /// Among the messages that it was shown from its inbox.
    Direct,
    /// Among the stored messages that it was sent, and not in the first list.
    Stored,
    /// In neither.
    Unknown,
}

impl SessionCore {
    /// Takes the message out of the lists of what was shown and what was sent, and says in which it was. A session that has
    /// no such message stays as it is.
    pub fn ack(&mut self, c: ChannelId, id: MsgId) -> AckAnswer
        ensures lists { self.new ≡ acked_in c id self.old }
        ensures answer { IsAcked c id self.old self.new result }
    {
        let shown = remove_message(&mut self.direct, c, id);
        let sent = self.sent.remove(c, id);
        if shown {
            AckAnswer::Direct
        } else if sent {
            AckAnswer::Stored
        } else {
            AckAnswer::Unknown
        }
    }
}

fn is_message(shared: &Shared, c: ChannelId, id: MsgId) -> bool
    ensures { result ≡ is_message c id shared.now }
{
    let message = shared.message();
    message.chid.0 == c.0 && message.id.is_same(&id)
}

fn first_message(messages: &[Shared], c: ChannelId, id: MsgId) -> Option<usize>
    ensures { result ≡ position (is_message c id) messages.now }
{
    messages.iter().position(|shared| is_message(shared, c, id))
}

fn message_place(messages: &[Shared], c: ChannelId, id: MsgId) -> Option<usize>
    ensures { IsPlace (is_message c id) messages.now result }
{
    first_message(messages, c, id)
}

// takes the first such message out, and says whether there was one
fn remove_message(messages: &mut Vec<Shared>, c: ChannelId, id: MsgId) -> bool
    ensures found { result ≡ list_any (is_message c id) messages.old.items }
    ensures rest { messages.new.items ≡ without_first (is_message c id) messages.old.items }
    ensures len { vec_len messages.new ≤ vec_len messages.old }
{
    match message_place(messages, c, id) {
        Some(place) => {
            messages.remove(place);
            true
        }
        None => false,
    }
}
