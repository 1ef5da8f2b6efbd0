//! Which shard a token is on.
ghost use Rattle.std.specs.Prelude.{◌≡◌, ◌<◌, ◌⊎◌};
ghost use Rattle.endpoint_router.specs.Shards.{shard_of};

use push_model::{Desks, Token};

/// The shard of a token, of that many: the first byte of a token is its user's, and says so.
pub fn shard_of(token: &Token, count: u8) -> u8
    requires { (count ≡ 1) ⊎ (count ≡ 16) }
    ensures value { result ≡ shard_of token.now count }
    ensures within { result < count }
{
    token.0[0] / 16 % count
}

/// The shard of a token at these desks.
pub fn shard_at<D: Desks>(desks: &D, token: &Token) -> u8
    ensures value { result ≡ shard_of token.now (D.view desks.now).size }
    ensures within { result < (D.view desks.now).size }
{
    shard_of(token, desks.count())
}
