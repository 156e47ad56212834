//! Entries of which the first are taken.
use event_form::Entry;
use spool_answers::{Receipt, TakeFault};

/// What came of a take of the first of some entries.
#[derive(Drop)]
pub struct Front {
    /// All the entries, as they were given.
    pub entries: Vec<Entry>,
    /// How many of them were taken, or refused, as one group. It is at least one.
    pub count: usize,
    /// The answer to the take of these.
    pub answer: Result<Receipt, TakeFault>,
}
