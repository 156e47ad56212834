//! A slot read as a segment.
ghost use Rattle.std.specs.Prelude.{◌≡◌, ◌≢◌, ◌+◌, ◌^◌, ◌<◌, ◌≤◌, slice_index, All, IsErr, IfOk, IfErr, IfSome, IsErrOf, MatchOption};
ghost use Rattle.foundation.specs.Bytes.{part};
ghost use Rattle.spool_state.specs.Segment.{IsGroup, Segment, head_text};
ghost use Rattle.spool_state.specs.Image.{HoldsSegment};
ghost use Rattle.spool_state.specs.Layout.{slot_head, least_size, most_size};
ghost use Rattle.edge_disk.specs.Calls.{Calls};
ghost use Rattle.edge_disk.specs.Disk.{IsUntouched};
ghost use Rattle.spool_slots.specs.Scan.{KnowsSome, IsScanFault, IsScanOf};

use crate::group::{Step, step_at};
use crate::layout::{GROUP_HEAD, SLOT_HEAD};
use crate::window::Window;
use crate::{ScanFault, Slot};
use edge_disk::{Disk, DiskFault};
use foundation::u64_at;

/// What stands after the open gate of a slot.
#[derive(Clone, Copy)]
struct SlotHead {
    ordinal: u64,
    first: u64,
}

/// The head of the slot at offset `at` of the device, where its gate is open.
fn read_head<D: Disk>(disk: &mut D, at: u64) -> Result<Option<SlotHead>, DiskFault>
    requires { at + slot_head ≤ (D.moment disk.old).size }

    ensures calls { Calls (IsErr result) (D.moment disk.old) (D.moment disk.new) }
    ensures told { D.tells → IsUntouched (D.moment disk.old) (D.moment disk.new) }
    ensures found { IfOk result
        (λ found. D.tells
        → MatchOption found (slice_index (D.moment disk.old).reads at ≢ 1)
        (λ head. part at slot_head (D.moment disk.old).reads ≡ head_text head.ordinal head.first)) }
{
    let mut head = [0; SLOT_HEAD];
    disk.read_at(at, &mut head)?;
    if head[0] != 1 {
        return Ok(None);
    }
    Ok(Some(SlotHead {
        ordinal: u64_at(&head, 1),
        first: u64_at(&head, 9),
    }))
}

impl Slot {
    /// Reads the slot in the `size` bytes from offset `at` of the device on: its numbers, and how many
    /// entries it has in how many bytes. Nothing comes exactly where its gate isn't open. It reads the
    /// slot's first 17 bytes, and where the gate is open each byte up to its first gate that isn't once,
    /// through the window, and less than 262,144 after that one. It takes no memory. `NotSpool` comes exactly
    /// where the slot breaks the rule of its groups, with the device's offset of the first gate at fault;
    /// `DiskFault` only where a call of the disk failed. Nothing is written.
    pub fn scan<D: Disk>(
        disk: &mut D,
        window: &mut Window,
        at: u64,
        size: u64,
    ) -> Result<Option<Slot>, ScanFault>
        requires large { least_size ≤ size }
        requires small { size ≤ most_size }
        requires place { at + size ≤ (D.moment disk.old).size }

        ensures calls { Calls (IsErrOf result ScanFault.DiskFault) (D.moment disk.old) (D.moment disk.new) }
        ensures told { D.tells → IsUntouched (D.moment disk.old) (D.moment disk.new) }
        ensures no_memory { result ≢ Err ScanFault.NoMemory }

        ensures slot { IfOk result (λ found. IfSome found (λ slot. (slot.at ≡ at) × (slot.size ≡ size))) }
        // Nothing comes exactly where the slot's gate isn't open.
        ensures found { IfOk result
            (λ found. D.tells → MatchOption found (slice_index (D.moment disk.old).reads at ≢ 1) (λ slot. KnowsSome slot (D.moment disk.old).reads)) }
        // NotSpool comes only where the slot breaks the rule of its groups, with the place.
        ensures broken { IfErr result (λ fault. D.tells → IsScanFault at size (D.moment disk.old).reads fault) }
        // Of a slot that holds a segment it knows that one, and never says NotSpool.
        ensures known { (segment : Segment) → D.tells → HoldsSegment at size segment (D.moment disk.old).reads → All IsGroup segment.groups
            → segment.ordinal < 2 ^ 64 → segment.first < 2 ^ 64
            → IsScanOf segment (D.moment disk.old).reads result }
    {
        let Some(head) = read_head(disk, at)? else {
            return Ok(None);
        };
        window.empty();
        let mut gate = SLOT_HEAD as u64;
        let mut count = 0;
        'groups: loop {
            match step_at(window, disk, at, size, gate)? {
                Step::End => {
                    return Ok(Some(Slot {
                        at,
                        size,
                        ordinal: head.ordinal,
                        first: head.first,
                        gate,
                        count,
                    }));
                }
                Step::Broken => return Err(ScanFault::NotSpool { at: at + gate }),
                Step::Group(group) => {
                    gate += GROUP_HEAD as u64 + u64::from(group.size);
                    count += u64::from(group.count);
                }
            }
        }
    }
}
