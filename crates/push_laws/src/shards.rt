//! What a shard tells of the rows that wait.
ghost use Rattle.std.specs.Prelude.{◌≡◌};

use crate::laws::no_row_waits;
use shard_core::Shard;

/// How many stored rows of the shard a routed session wasn't sent while nothing covers them: none, whatever its steps were.
pub fn waiting(shard: &Shard) -> u64
    ensures { result ≡ 0 }
{
    no_row_waits();
    shard.is_reached();
    shard.waiting()
}
