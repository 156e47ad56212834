//! The lengths of the heads in a slot. `docs/DEVICE.md` describes the layout in prose.

/// How many bytes a slot has before its groups: its gate, its ordinal and its first number.
pub(crate) const SLOT_HEAD: usize = 17;

/// How many bytes a group has before its entries: its gate, their length and their count.
pub(crate) const GROUP_HEAD: usize = 9;
