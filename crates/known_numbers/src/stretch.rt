//! A stretch of numbers.

/// How many stretches are known above a cursor at most.
pub const MOST_STRETCHES: usize = 240;

/// The numbers from `from` up to and without `to`. Where `to` isn't above `from` it is empty.
#[derive(Clone, Copy, PartialEq, Eq)]
pub struct Stretch {
    /// The first number.
    pub from: u64,
    /// The number after the last.
    pub to: u64,
}
