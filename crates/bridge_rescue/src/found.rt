//! What was found of a slot.
ghost use Rattle.std.specs.Prelude.{◌<◌, ◌≤◌};
ghost use Rattle.spool_state.specs.Layout.{most_size};
ghost use Rattle.bridge_rescue.specs.Looking.{IsSameBut};

use spool_slots::Slot;

/// A slot of which entries are printed.
#[derive(Clone, Copy)]
pub struct Found {
    /// Its numbers: of all of it, or of what stands before its fault.
    pub slot: Slot,
    /// Whether it is sound.
    pub is_whole: bool,
}

/// The same numbers of a slot that begins at this offset and has this many bytes.
pub fn placed(slot: Slot, at: u64, size: u64) -> Slot
    requires room { slot.gate < size }
    requires small { size ≤ most_size }

    ensures { IsSameBut slot result at size }
{
    Slot {
        at,
        size,
        ordinal: slot.ordinal,
        first: slot.first,
        gate: slot.gate,
        count: slot.count,
    }
}
