//! Rows of which several go at once.
ghost use Rattle.std.specs.Prelude.{◌≡◌};
ghost use Rattle.message_rows.specs.Going.{stays};

use clock_expiry::expired;
use push_model::{ChannelId, Moment, Row};

/// Which rows go.
#[derive(Drop)]
pub(crate) enum Going {
    /// Those of the channel.
    Channel(ChannelId),
    /// Those that are expired at that moment.
    Due(Moment),
}

/// Whether the row stays.
pub(crate) fn stays(going: &Going, row: &Row) -> bool
    ensures { result ≡ stays going.now row.now }
{
    let message = row.message.message();
    match going {
        Going::Channel(chid) => message.chid.0 != chid.0,
        Going::Due(moment) => !expired(message, *moment),
    }
}
