//! What a take answers.

/// The numbers of the entries that were taken.
#[derive(Clone, Copy, PartialEq, Eq)]
pub struct Receipt {
    /// The number of the first.
    pub first: u64,
    /// How many they are.
    pub count: u64,
}
