//! How far a walk has come.

/// How far a walk through the source's entries has come.
#[derive(Clone, Copy)]
pub(crate) struct Course {
    /// The number behind the last entry that was walked, or 0 where none was.
    pub(crate) upto: u64,
    /// How many entries the target took.
    pub(crate) taken: u64,
}
