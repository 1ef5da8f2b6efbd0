//! On which shard a user is.
ghost use Rattle.std.specs.Prelude.{◌≡◌, ◌<◌};
ghost use Rattle.endpoint_token.specs.TokenTexts.{first_byte};
ghost use Rattle.session_drive.specs.Shards.{shard_of};

use push_model::{Desks, Uaid};

// The first byte of a uaid.
fn first_byte(uaid: Uaid) -> u8
    ensures { result ≡ first_byte uaid }
{
    (uaid.0 >> 120) as u8
}

/// The user's shard, among so many.
pub fn shard_of(uaid: Uaid, count: u8) -> u8
    requires { 0 < count }
    ensures value { result ≡ shard_of uaid count }
    ensures within { result < count }
{
    first_byte(uaid) / 16 % count
}

/// The user's shard, among those of the desks.
pub fn shard_on<D: Desks>(desks: &D, uaid: Uaid) -> u8
    ensures value { result ≡ shard_of uaid (D.view desks.now).size }
    ensures within { result < (D.view desks.now).size }
{
    shard_of(uaid, desks.count())
}
