//! A slot of the device: begun, and shut.
ghost use Rattle.std.specs.Prelude.{◌≡◌, ◌≢◌, ℕ, ◌+◌, ◌-◌, ◌<◌, ◌≤◌, List, [], ◌∷◌, ◌++◌, length, slice_index, IsErr, OnOk, IfOk};
ghost use Rattle.spool_state.specs.Segment.{Segment, head_text, empty_segment};
ghost use Rattle.spool_state.specs.Image.{HoldsSegment};
ghost use Rattle.spool_state.specs.Layout.{slot_head, least_size, most_size};
ghost use Rattle.edge_disk.specs.Calls.{Calls};
ghost use Rattle.edge_disk.specs.Disk.{IsSettled, LeavesOnly};
ghost use Rattle.edge_disk.specs.Gate.{ComesFrom};
ghost use Rattle.edge_disk.specs.Leave.{Lets};

use crate::layout::SLOT_HEAD;
use edge_disk::{Disk, DiskFault, close_gate, write_behind};

/// What memory knows of a slot whose gate is open. `begin` and `scan` give one, and `append_entries` keeps
/// it true; each later call is given the same device. It is plain numbers, which may be copied: after a
/// `shut` that failed, its caller still answers by them.
#[derive(Clone, Copy)]
pub struct Slot {
    /// The offset on the device at which it begins, in bytes.
    pub at: u64,
    /// How many bytes it has, 4,096 to 1,073,741,824.
    pub size: u64,
    /// Its place in the order of the open slots, whose ordinals go on one by one.
    pub ordinal: u64,
    /// The number of its first entry.
    pub first: u64,
    /// The offset in the slot, in bytes, of the closed gate after its last group.
    pub gate: u64,
    /// How many entries it has.
    pub count: u64,
    ghost inside: { gate < size },
    ghost small: { size ≤ most_size },
    ghost counted: { count ≤ gate },
}

/// The ordinal and the first number of a slot, and the closed gate of its first group.
fn head(ordinal: u64, first: u64) -> [u8; SLOT_HEAD]
    ensures { 1 ∷ result ≡ head_text ordinal first ++ 0 ∷ [] }
{
    let mut piece = [0; SLOT_HEAD];
    piece[..8].copy_from_slice(&ordinal.to_be_bytes());
    piece[8..16].copy_from_slice(&first.to_be_bytes());
    piece
}

impl Slot {
    ghost use Rattle.spool_slots.specs.Slot.{IsSlot, Knows, IsClosedOrHolds, GoesBegun};

    /// Begins an empty segment in the `size` bytes from offset `at` of the device on, where a closed slot
    /// lies: a write, a sync, and the same of its gate. It takes no memory. An error comes only where a call
    /// of the disk failed; the slot is then closed, or holds the empty segment.
    pub fn begin<D: Disk>(
        disk: &mut D,
        at: u64,
        size: u64,
        ordinal: u64,
        first: u64,
    ) -> Result<Slot, DiskFault>
        requires large { least_size ≤ size }
        requires small { size ≤ most_size }
        requires place { at + size ≤ (D.moment disk.old).size }
        requires closed { D.tells → (c : List ℕ) → (D.moment disk.old).image c → slice_index c at ≢ 1 }
        requires leave { Lets D.tells D.moment D.may_tear (GoesBegun (D.moment disk.old) at size (empty_segment ordinal first)) }

        ensures calls { Calls (IsErr result) (D.moment disk.old) (D.moment disk.new) }
        ensures slot { IfOk result (IsSlot at size ordinal first slot_head 0) }
        ensures durable { OnOk result (D.tells → IsSettled (D.moment disk.new)) }
        ensures closed { IfOk result (λ slot. D.tells → (c : List ℕ) → (D.moment disk.new).image c → slice_index c (slot.at + slot.gate) ≢ 1) }
        ensures known { IfOk result (λ slot. D.tells → Knows slot (empty_segment ordinal first) (D.moment disk.new).reads) }
        ensures any_moment { D.tells
            → LeavesOnly (ComesFrom (D.moment disk.old) (IsClosedOrHolds at size (empty_segment ordinal first)))
            (D.moment disk.old) (D.moment disk.new) }
    {
        write_behind(disk, at, &head(ordinal, first))?;
        Ok(Slot {
            at,
            size,
            ordinal,
            first,
            gate: SLOT_HEAD as u64,
            count: 0,
        })
    }

    /// How many bytes a group may need: its length (4), its count (4), its entries and the closed gate
    /// after it (1). It takes no memory.
    pub fn room(&self) -> u64
        ensures { result ≡ self.now.size - self.now.gate - 1 }
    {
        self.size - self.gate - 1
    }

    /// Closes the slot's gate: a write, a sync. It takes no memory. An error comes only where a call of the
    /// disk failed; the slot is then closed, or holds what it held.
    pub fn shut<D: Disk>(self, disk: &mut D) -> Result<(), DiskFault>
        requires place { self.at + self.size ≤ (D.moment disk.old).size }
        requires leave { ∥ D.may_tear disk.old self.at 1 ∥₁ }

        ensures calls { Calls (IsErr result) (D.moment disk.old) (D.moment disk.new) }
        ensures durable { OnOk result (D.tells → IsSettled (D.moment disk.new)) }
        ensures closed { OnOk result (D.tells → slice_index (D.moment disk.new).reads self.at ≢ 1) }
        ensures any_moment { (segment : Segment) → D.tells → ((c : List ℕ) → (D.moment disk.old).image c → HoldsSegment self.at self.size segment c)
            → LeavesOnly (ComesFrom (D.moment disk.old) (IsClosedOrHolds self.at self.size segment)) (D.moment disk.old) (D.moment disk.new) }
    {
        close_gate(disk, self.at)
    }
}
