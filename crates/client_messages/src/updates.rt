//! What an acknowledgement names.
ghost use Rattle.std.specs.Prelude.{◌≡◌, ◌==◌, ◌<◌, ◌++◌, ◌∷◌, [], OnOk, OnErr, length, slice_get, Some};

use push_model::{ChannelId, IdList, MsgId, NoMemory};
use std::alloc::Global;
use std::marker::Model;

/// The messages that an acknowledgement names, each with its channel, in order. Contracts see the list of these pairs.
#[derive(Debug, Drop)]
pub struct Updates {
    named: IdList,
}

impl Model for Updates {
    ghost use Rattle.std.specs.Prelude.{List};
    ghost use Rattle.push_model.specs.declared.ids.ChannelId.{ChannelId};
    ghost use Rattle.push_model.specs.declared.ids.MsgId.{MsgId};

    ghost Value = { List (ChannelId × MsgId) };

    ghost view = { λ u. u.named };
}

impl Updates {
    /// No messages. It takes no memory.
    pub fn new(alloc: Global) -> Updates
        ensures { result ≡ [] }
    {
        Updates {
            named: IdList::new(alloc),
        }
    }

    /// Adds the message as the last. At `NoMemory` the others stay.
    pub fn push(&mut self, chid: ChannelId, id: MsgId) -> Result<(), NoMemory>
        ensures ok { OnOk result (self.new ≡ self.old ++ (chid, id) ∷ []) }
        ensures err { OnErr result (self.new ≡ self.old) }
    {
        self.named.push(chid, id)
    }

    /// How many there are.
    pub fn len(&self) -> usize
        ensures { result ≡ length self.now }
    {
        self.named.len()
    }

    /// Whether there is none.
    pub fn is_empty(&self) -> bool
        ensures { result ≡ (length self.now == 0) }
    {
        self.named.is_empty()
    }

    /// The channel and the message at that place, from 0.
    pub fn at(&self, place: usize) -> (ChannelId, MsgId)
        requires { place < length self.now }
        ensures { slice_get self.now place ≡ Some result }
    {
        self.named.at(place)
    }
}
