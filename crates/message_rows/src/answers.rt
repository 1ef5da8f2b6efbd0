//! What is answered where a message is stored or saved.

/// What came of a flight's message.
#[derive(Clone, Copy, Debug, PartialEq, Eq)]
pub enum StoreAnswer {
    /// It is a row, or was one already.
    Stored,
    /// A row of its channel and topic has a greater id, and stays.
    Older,
    /// It would be one row more than the table holds.
    Full,
}

/// What came of a saver's message.
#[derive(Clone, Copy, Debug, PartialEq, Eq)]
pub enum PutAnswer {
    /// It is a row, or was one already.
    Saved,
    /// A row of its channel and topic has a greater id, and stays.
    Older,
}
