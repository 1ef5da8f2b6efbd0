//! Where rows stand.
ghost use Rattle.std.specs.Prelude.{◌≡◌, position};
ghost use Rattle.push_model.specs.Keyed.{IsPlace};
ghost use Rattle.push_model.specs.Rows.{is_row, shares_topic};

use push_model::{Message, MsgId, Row};
use topic_rules::is_of_topic;

/// Whether it is the row of that message.
pub(crate) fn is_row(row: &Row, id: MsgId) -> bool
    ensures { result ≡ is_row id row.now }
{
    row.message.message().id.is_same(&id)
}

fn first_row(rows: &[Row], id: MsgId) -> Option<usize>
    ensures { result ≡ position (is_row id) rows.now }
{
    rows.iter().position(|row| is_row(row, id))
}

/// The place of the row of that message.
pub(crate) fn row_place(rows: &[Row], id: MsgId) -> Option<usize>
    ensures { IsPlace (is_row id) rows.now result }
{
    first_row(rows, id)
}

// whether the row has the message's channel and topic
fn shares_topic(row: &Row, message: &Message) -> bool
    ensures { result ≡ shares_topic message.now row.now }
{
    is_of_topic(message, row.message.message())
}

fn first_of_topic(rows: &[Row], message: &Message) -> Option<usize>
    ensures { result ≡ position (shares_topic message.now) rows.now }
{
    rows.iter().position(|row| shares_topic(row, message))
}

/// The place of the row of the message's channel and topic.
pub(crate) fn topic_place(rows: &[Row], message: &Message) -> Option<usize>
    ensures { IsPlace (shares_topic message.now) rows.now result }
{
    first_of_topic(rows, message)
}
