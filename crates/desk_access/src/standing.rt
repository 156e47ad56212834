//! The numbers of a spool.

/// What a spool has, in numbers: those that a call met, or that stood after it.
#[derive(Clone, Copy, PartialEq, Eq)]
pub struct Standing {
    /// The number of the first entry.
    pub base: u64,
    /// The number after the last entry.
    pub end: u64,
    /// The number up to which all entries are known as confirmed.
    pub cursor: u64,
    /// How many numbers above the cursor are known.
    pub known_count: u64,
    /// The bytes that are free in the active slot.
    pub room: u64,
}
