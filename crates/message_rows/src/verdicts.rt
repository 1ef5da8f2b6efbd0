//! What comes of a message that is to become a row.
ghost use Rattle.std.specs.Prelude.{◌≡◌};
ghost use Rattle.push_model.specs.Rows.{verdict_by, verdict};

use crate::places::{row_place, topic_place};
use push_model::{Message, Row, Stands, Verdict};
use topic_rules::stands;

/// How many messages of a user a flight stores at most.
const STORED: usize = 1000;

// beside the row of its channel and topic
fn verdict_by(standing: Stands) -> Verdict
    ensures { result ≡ verdict_by standing }
{
    match standing {
        Stands::Same => Verdict::Stays,
        Stands::Apart | Stands::New => Verdict::Joins,
        Stands::Kept => Verdict::Older,
    }
}

/// What comes of a message that is to become a row beside these.
pub(crate) fn verdict_of(rows: &[Row], message: &Message) -> Verdict
    ensures { result ≡ verdict message.now rows.now }
{
    if row_place(rows, message.id).is_some() {
        return Verdict::Stays;
    }
    match topic_place(rows, message) {
        Some(place) => verdict_by(stands(message, rows[place].message.message())),
        None if STORED <= rows.len() => Verdict::Full,
        None => Verdict::Joins,
    }
}
