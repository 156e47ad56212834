//! A place in a slot from which its entries can be read on.

/// Entry `number` begins at offset `at` of the slot, with `rest` entries of its group left. Where `rest`
/// is 0 a gate stands there: that of the entry's group, or the closed gate after the slot's last one.
#[derive(Clone, Copy, PartialEq, Eq)]
pub struct Mark {
    /// The entry's number.
    pub number: u64,
    /// The offset in the slot, in bytes.
    pub at: u64,
    /// How many entries of the group are left, this one among them.
    pub rest: u32,
}
