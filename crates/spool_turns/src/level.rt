//! Where a spool stands, in numbers.
ghost use Rattle.std.specs.Prelude.{◌≡◌, ◌↔◌, ◌+◌, ◌<◌, IsTrue};
ghost use Rattle.spool_turns.specs.Levels.{count_held, level_in};

use desk_access::Standing;
use edge_disk::Disk;
use spool_desk::Alone;
use spool_slots::Slot;

/// Where a spool stands, as memory has it. In doubt it is as before the call that failed.
#[derive(Clone, Copy, PartialEq, Eq)]
pub struct Level {
    /// The numbers of its entries, and the bytes that are free in the slot to which groups are added.
    pub standing: Standing,
    /// How many slots its device has: 1 to 1,024.
    pub slots: u32,
    /// How many of them are free, in which a take may begin a new segment: those that are not open, and those all of whose entries are
    /// below the cursor.
    pub free_slots: u32,
    /// How many bytes a group may need in an empty slot, which is the most that any group may need.
    pub most: u64,
}

// Whether the slot has an entry whose number isn't below the cursor.
fn is_held(slot: &Slot, cursor: u64) -> bool
    ensures { IsTrue result ↔ cursor < slot.now.first + slot.now.count }
{
    match cursor.checked_sub(slot.first) {
        Some(passed) => passed < slot.count,
        None => true,
    }
}

// How many of the slots have one.
fn count_held(slots: &[Slot], cursor: u64) -> u64
    ensures { result ≡ count_held cursor slots.now }
{
    let mut held = 0;
    for slot in slots {
        if is_held(slot, cursor) {
            held += 1;
        }
    }
    held
}

impl Level {
    /// That of a desk's spool.
    pub(crate) fn of<D: Disk>(alone: &Alone<D>) -> Level
        ensures { result ≡ level_in alone.now.desk.spool.memory }
    {
        let spool = &alone.desk.spool;
        let slots = spool.memory.slots;
        let held = count_held(&spool.memory.older, spool.cursor());
        let free = u64::from(slots).saturating_sub(held).saturating_sub(1);
        Level {
            standing: alone.standing(),
            slots,
            free_slots: free as u32,
            most: spool.most(),
        }
    }
}
