//! The moments at which rows expire.
ghost use Rattle.std.specs.Prelude.{◌≡◌, ◌+◌, ◌<◌, ◌≤◌, filter, if◌then◌else◌};
ghost use Rattle.message_rows.specs.RowDues.{with_message, without_message, dues_of};
ghost use Rattle.message_rows.specs.Going.{stays};

use crate::going::{Going, stays};
use clock_expiry::{Due, expires_at};
use push_model::{Message, Row};

/// Adds the message's entry in room that was kept, if the message expires.
pub(crate) fn put_entry(dues: &mut Due, message: &Message)
    requires { 0 < dues.old.spare }
    ensures entries { dues.new.entries ≡ with_message message.now dues.old.entries }
    ensures kept { dues.old.spare ≤ dues.new.spare + 1 }
{
    if let Some(expires) = expires_at(message) {
        dues.put(expires, message.id);
    }
}

/// Takes the message's entry out, if the message expires.
pub(crate) fn remove_entry(dues: &mut Due, message: &Message)
    ensures entries { dues.new.entries ≡ without_message message.now dues.old.entries }
    ensures kept { dues.old.spare ≤ dues.new.spare }
{
    if let Some(expires) = expires_at(message) {
        dues.remove(expires, message.id);
    }
}

// takes the row's entry out, unless the row stays
fn drop_entry(dues: &mut Due, row: &Row, going: &Going)
    ensures entries { dues.new.entries ≡ (if stays going.now row.now then dues.old.entries else without_message row.now.message dues.old.entries) }
    ensures kept { dues.old.spare ≤ dues.new.spare }
{
    if !stays(going, row) {
        remove_entry(dues, row.message.message());
    }
}

/// Takes out the entries of the rows that go.
pub(crate) fn drop_entries(dues: &mut Due, rows: &[Row], going: &Going)
    requires { dues.old.entries ≡ dues_of rows.now }
    ensures entries { dues.new.entries ≡ dues_of (filter (stays going.now) rows.now) }
    ensures kept { dues.old.spare ≤ dues.new.spare }
{
    for row in rows {
        drop_entry(dues, row, going);
    }
}
