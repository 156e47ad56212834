//! An entry with its number.
use event_form::Entry;

/// An entry with its number.
#[derive(Drop)]
pub struct Numbered {
    /// The entry's number, which no other entry of the spool has.
    pub number: u64,
    pub entry: Entry,
}
