//! Which messages stand, and which become rows.

/// How a new message stands to one that is kept.
#[derive(Clone, Copy, Debug, PartialEq, Eq)]
pub enum Stands {
    /// Both are one message.
    Same,
    /// Neither replaces the other: their channels or topics differ, or one has no topic.
    Apart,
    /// The new one replaces the other: it has the channel and topic, and a greater id.
    New,
    /// The other stays: it has the channel and topic, and a greater id.
    Kept,
}

/// What comes of a message that is to become a row.
#[derive(Clone, Copy, Debug, PartialEq, Eq)]
pub enum Verdict {
    /// It is a row already, which stays.
    Stays,
    /// A row of its channel and topic has a greater id, and stays.
    Older,
    /// It would be one row more than the table holds.
    Full,
    /// It becomes the last row, in place of a row of its channel and topic.
    Joins,
}
