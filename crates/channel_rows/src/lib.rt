//! The channels of a user.
#![tactic(auto)]

ghost use Rattle.std.specs.Prelude.{◌≡◌, ◌<◌, ◌++◌, ◌∷◌, [], Some, None, IfSome, IfNone, OnOk, OnErr, filter, find, length, slice_get};
ghost use Rattle.std.specs.List.{list_any};
ghost use Rattle.std.specs.Option.{option_copied};
ghost use Rattle.push_model.specs.Cells.{is_channel, is_token};
ghost use Rattle.channel_rows.specs.Channels.{channel, is_both, is_other, tokens};

use push_model::{Channel, ChannelId, NoMemory, Token};
use std::alloc::Global;
use std::marker::Model;

/// The channels of a user, in the order of registering. Contracts see the list of them.
#[derive(Debug, Drop)]
pub struct Channels {
    rows: Vec<Channel>,
}

impl Model for Channels {
    ghost use Rattle.std.specs.Prelude.{List};
    ghost use Rattle.push_model.specs.declared.parts.Channel.{Channel};

    ghost Value = { List Channel };

    ghost view = { λ c. c.rows.items };
}

fn first_of(rows: &[Channel], chid: ChannelId) -> Option<&Channel>
    ensures { option_copied result ≡ find (is_channel chid) rows.now }
{
    rows.iter().find(|row| row.chid.0 == chid.0)
}

fn first_with<'a>(rows: &'a [Channel], token: &Token) -> Option<&'a Channel>
    ensures { option_copied result ≡ find (is_token token.now) rows.now }
{
    rows.iter().find(|row| row.token.is_same(token))
}

impl Channels {
    /// No channels. It takes no memory.
    pub fn new(alloc: Global) -> Channels
        ensures { result ≡ [] }
    {
        Channels {
            rows: Vec::new(alloc),
        }
    }

    /// Adds the channel as the last. Where there is no memory, the channels stay as they are.
    pub fn add(&mut self, channel: Channel) -> Result<(), NoMemory>
        ensures ok { OnOk result (self.new ≡ self.old ++ channel ∷ []) }
        ensures err { OnErr result (self.new ≡ self.old) }
    {
        match self.rows.push(channel) {
            Ok(()) => Ok(()),
            Err(_) => Err(NoMemory),
        }
    }

    /// The token of the first channel of that id; `None` where no channel has it.
    pub fn find(&self, chid: ChannelId) -> Option<Token>
        ensures found { IfSome result (λ token. find (is_channel chid) self.now ≡ Some (channel chid token)) }
        ensures none { IfNone result (find (is_channel chid) self.now ≡ None) }
    {
        match first_of(&self.rows, chid) {
            Some(row) => Some(row.token),
            None => None,
        }
    }

    /// Whether a channel has that id.
    pub fn has(&self, chid: ChannelId) -> bool
        ensures { result ≡ list_any (is_channel chid) self.now }
    {
        self.rows.iter().any(|row| row.chid.0 == chid.0)
    }

    /// Whether a channel has that id and that token.
    pub fn has_token(&self, chid: ChannelId, token: &Token) -> bool
        ensures { result ≡ list_any (is_both chid token.now) self.now }
    {
        self.rows
            .iter()
            .any(|row| row.chid.0 == chid.0 && row.token.is_same(token))
    }

    /// The id of the first channel with that token; `None` where no channel has it.
    pub fn channel_of(&self, token: &Token) -> Option<ChannelId>
        ensures found { IfSome result (λ chid. find (is_token token.now) self.now ≡ Some (channel chid token.now)) }
        ensures none { IfNone result (find (is_token token.now) self.now ≡ None) }
    {
        match first_with(&self.rows, token) {
            Some(row) => Some(row.chid),
            None => None,
        }
    }

    /// Whether a channel has that token.
    pub fn knows(&self, token: &Token) -> bool
        ensures { result ≡ list_any (is_token token.now) self.now }
    {
        self.rows.iter().any(|row| row.token.is_same(token))
    }

    /// Takes out each channel of that id, and answers the token of the first; `None` where no channel has the id, and then
    /// the channels stay as they are. The others keep their order.
    pub fn remove(&mut self, chid: ChannelId) -> Option<Token>
        ensures found { IfSome result (λ token. find (is_channel chid) self.old ≡ Some (channel chid token)) }
        ensures none { IfNone result (find (is_channel chid) self.old ≡ None) }
        ensures rows { self.new ≡ filter (is_other chid) self.old }
    {
        let token = self.find(chid);
        self.rows.retain(|row| row.chid.0 != chid.0);
        token
    }

    /// How many channels there are.
    pub fn len(&self) -> usize
        ensures { result ≡ length self.now }
    {
        self.rows.len()
    }

    /// The token of the channel at that place, counted from 0.
    pub fn token_at(&self, place: usize) -> Token
        requires { place < length self.now }
        ensures { slice_get (tokens self.now) place ≡ Some result }
    {
        self.rows[place].token
    }

    /// The channels, in the order of registering.
    pub fn as_slice(&self) -> &[Channel]
        ensures { result.now ≡ self.now }
    {
        &self.rows
    }
}
