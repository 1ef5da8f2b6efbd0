//! Whose channel each token of a shard is.
ghost use Rattle.std.specs.Prelude.{◌≡◌, [], Some, None, OnOk, OnErr, IfErr};
ghost use Rattle.endpoint_token.specs.TokenOwners.{ChangesOwner, IsFault, LosesUser, owner_of};

use push_model::{ChannelId, Token, Uaid};
use std::alloc::Global;
use std::collections::BTreeMap;
use std::marker::Model;
use thiserror::Error;

/// Why a token is not given to a channel.
#[derive(Clone, Copy, Debug, Error)]
pub enum InsertFault {
    /// It is a channel's already.
    #[error("the token is taken")]
    Taken,
    /// There was no memory.
    #[error("out of memory")]
    NoMemory,
}

/// Whose channel each token is. Contracts see the list of the tokens' bytes, in their order, each with the user and the
/// channel that have it.
#[derive(Drop)]
pub struct TokenRows {
    rows: BTreeMap<[u8; 24], (Uaid, ChannelId)>,
}

impl Model for TokenRows {
    ghost use Rattle.std.specs.Prelude.{List};
    ghost use Rattle.endpoint_token.specs.TokenOwners.{TokenRow};

    ghost Value = { List TokenRow };

    ghost view = { λ t. t.rows.entries };
}

impl TokenRows {
    /// No tokens. It takes no memory.
    pub fn new(alloc: Global) -> TokenRows
        ensures { result ≡ [] }
    {
        TokenRows {
            rows: BTreeMap::new(alloc),
        }
    }

    /// Gives the token to that channel of that user. `Taken` comes exactly where the token is a channel's already. After
    /// either error nothing has changed.
    pub fn insert(&mut self, token: Token, uaid: Uaid, chid: ChannelId) -> Result<(), InsertFault>
        ensures free { OnOk result (owner_of self.old token ≡ None) }
        ensures inserted { OnOk result (ChangesOwner self.old self.new token (Some (uaid, chid))) }
        ensures fault { IfErr result (IsFault self.old token) }
        ensures same { OnErr result (self.new ≡ self.old) }
    {
        if self.rows.contains_key(&token.0) {
            return Err(InsertFault::Taken);
        }
        match self.rows.insert(token.0, (uaid, chid)) {
            Ok(_) => Ok(()),
            Err(_) => Err(InsertFault::NoMemory),
        }
    }

    /// The user and the channel that have the token, in logarithmic time.
    pub fn find(&self, token: &Token) -> Option<(Uaid, ChannelId)>
        ensures { result ≡ owner_of self.now token.now }
    {
        self.rows.get(&token.0).copied()
    }

    /// Takes the token out, if it is there.
    pub fn remove(&mut self, token: &Token)
        ensures { ChangesOwner self.old self.new token.now None }
    {
        self.rows.remove(&token.0);
    }

    /// Takes each token of that user out. It goes over all tokens.
    pub fn drop_user(&mut self, uaid: Uaid)
        ensures { LosesUser self.old self.new uaid }
    {
        self.rows.retain(|_, owner| owner.0 != uaid);
    }
}
