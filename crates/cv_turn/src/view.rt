//! What a seat at the table knows.
use std::collections::LinkedList;

/// What a seat knows of the list and of its own turn. No value of it is made.
pub struct View<F, E> {
    /// The part that never changes. A seat that was joined to another has none, and knows nothing.
    pub fixed: Option<F>,
    /// The first of its numbers.
    pub first: u64,
    pub count: u64,
    /// For each of its numbers the entries with that number.
    pub own: LinkedList<LinkedList<E>>,
    /// The list as it was seen last.
    pub seen: LinkedList<E>,
    /// The list that another seat had seen, which was joined and isn't looked at yet.
    pub told: LinkedList<E>,
    /// Whether it has a ticket, and which.
    pub waits: bool,
    pub ticket: u64,
    /// Whether its turn has come.
    pub inside: bool,
    /// In its turn, the list as it was taken, with the entry that was counted since.
    pub taken: LinkedList<E>,
    /// How many of its numbers it is about to hand over.
    pub plan: u64,
}
