//! The numbers that memory keeps of a spool.
ghost use Rattle.std.specs.Prelude.{◌≡◌, ℕ, ◌+◌, ◌≤◌, vec_capacity, All};
ghost use Rattle.known_numbers.specs.Numbers.{AreApart, EndBy};
ghost use Rattle.spool_log.specs.Device.{LiesIn, GoOn, GoOn-prop, AreApart-prop, EndBy-prop};

use crate::Bookmark;
use disk_cell::Register;
use spool_slots::Slot;

/// What memory keeps of a spool: its numbers, and no entry.
#[derive(Drop)]
pub struct Memory {
    /// How many bytes a slot has: 4,096 to 1,073,741,824.
    pub size: u64,
    /// How many slots the device has: 1 to 1,024.
    pub slots: u32,
    /// The run and the known numbers.
    pub register: Register,
    /// The open slots but the active one, in order of ordinal. There is room for all slots.
    pub older: Vec<Slot>,
    /// The open slot with the greatest ordinal, to which groups are added.
    pub active: Slot,
    /// Where the last reading of entries began and ended.
    pub bookmark: Option<Bookmark>,
    pub ghost large: { 4096 ≤ size },
    pub ghost small: { size ≤ 1073741824 },
    pub ghost some: { 1 ≤ slots },
    pub ghost few: { slots ≤ 1024 },
    pub ghost spare: { slots ≤ vec_capacity older },
    pub ghost older_lie: { All (LiesIn slots size) older.items },
    pub ghost active_lies: { LiesIn slots size active },
    pub ghost go_on: { GoOn older.items active.first } by { GoOn-prop older.items active.first },
    pub ghost early: { active.ordinal ≤ active.first + active.count + 1 },
    pub ghost apart: { AreApart register.content.cursor register.content.known.items } by { AreApart-prop register.content.cursor register.content.known.items },
    pub ghost cursor_upto: { register.content.cursor ≤ active.first + active.count },
    pub ghost known_upto: { EndBy (active.first + active.count) register.content.known.items } by { EndBy-prop (active.first + active.count) register.content.known.items },
}
