//! Where the last reading began and ended.
ghost use Rattle.std.specs.Prelude.{◌≡◌, ◌⊎◌};

use spool_slots::Mark;

/// Two marks in the open slot with an ordinal: where the last reading of its entries began, and where it
/// ended. From the one the entries are read again, from the other those after them, and none of the slot's
/// heads is passed over before. Where there is no such slot any more it says nothing.
#[derive(Clone, Copy, PartialEq, Eq)]
pub struct Bookmark {
    /// The ordinal of the slot.
    pub ordinal: u64,
    /// The mark of the first entry that was read.
    pub began: Mark,
    /// The mark after the last entry that was read.
    pub ended: Mark,
}

impl Bookmark {
    /// The mark nearest to `from`: where the reading ended, or where it began, if it ended after `from`.
    pub(crate) fn nearest(self, from: u64) -> Mark
        ensures { (result ≡ self.began) ⊎ (result ≡ self.ended) }
    {
        if self.ended.number <= from {
            self.ended
        } else {
            self.began
        }
    }
}
