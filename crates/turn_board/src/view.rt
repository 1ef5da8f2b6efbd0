//! What lies in a board's slot, and what a seat knows.

use push_model::{Entry, MailEntry};
use std::collections::LinkedList;

/// The object while no caller has the turn, and how many entries its history has.
#[derive(Drop)]
pub struct Home<T> {
    pub object: T,
    pub entries: u64,
}

/// Where a seat stands: it has no ticket, it waits with this one, or this one is served and the object is out with it.
pub enum Place {
    Free,
    Waits(u64),
    Serves(u64),
}

/// What one of two seats had seen before they were joined, and its numbers.
pub struct Part<S, R> {
    pub seen: LinkedList<Entry<S, R>>,
    pub numbers: LinkedList<u64>,
    pub mail: LinkedList<LinkedList<MailEntry>>,
}

/// What a seat knows. It exists in contracts alone.
pub struct View<T, S, R> {
    /// The world in which the board began.
    pub first: Option<T>,
    /// The beginning of the history that was seen.
    pub seen: LinkedList<Entry<S, R>>,
    /// In the seat's turn, the whole history.
    pub known: LinkedList<Entry<S, R>>,
    /// The seat's own number, and those of the seats joined into it.
    pub numbers: LinkedList<u64>,
    /// A number that was drawn for a new seat.
    pub spare: LinkedList<u64>,
    pub place: Place,
    /// How often the numbers were counted.
    pub counts: u64,
    /// How many were drawn at the last count, or 0 where a number was drawn or joined since.
    pub counted: u64,
    /// The two parts of a seat that was just joined.
    pub parts: LinkedList<Part<S, R>>,
    /// What was seen of each slot's mail.
    pub mail: LinkedList<LinkedList<MailEntry>>,
}
