//! What stands before the fault of a slot.
ghost use Rattle.std.specs.Prelude.{◌≡◌, ◌+◌, ◌≤◌, IsErr, IfOk, IfSome};
ghost use Rattle.spool_state.specs.Layout.{least_size, most_size};
ghost use Rattle.spool_state.specs.Broken.{BreaksAt};
ghost use Rattle.edge_disk.specs.Calls.{Calls};
ghost use Rattle.edge_disk.specs.Disk.{IsUntouched};
ghost use Rattle.bridge_rescue.specs.Looking.{IsFrontOf};

use crate::found::placed;
use crate::held::Held;
use edge_disk::{Disk, DiskFault};
use spool_slots::{ScanFault, Slot, Window};
use std::alloc::Global;

/// Finds the groups before a gate at fault, at offset `at` of the device, of the slot in the `size` bytes from offset `begin` on: the
/// numbers of a slot that ends there. They are read into memory, and nothing comes where none is found for them, or where others have
/// changed the device meanwhile. The error says that a call of the disk failed.
pub(crate) fn find_before<D: Disk>(
    alloc: Global,
    disk: &mut D,
    window: &mut Window,
    begin: u64,
    size: u64,
    at: u64,
) -> Result<Option<Slot>, DiskFault>
    requires large { least_size ≤ size }
    requires small { size ≤ most_size }
    requires place { begin + size ≤ (D.moment disk.old).size }

    ensures calls { Calls (IsErr result) (D.moment disk.old) (D.moment disk.new) }
    ensures told { D.tells → IsUntouched (D.moment disk.old) (D.moment disk.new) }
    ensures slot { IfOk result (λ found. IfSome found (λ slot. (slot.at ≡ begin) × (slot.size ≡ size))) }
    ensures front { IfOk result (λ found. IfSome found (λ slot. D.tells → BreaksAt begin size at (D.moment disk.old).reads
        → IsFrontOf begin size at (D.moment disk.old).reads slot)) }
{
    let n = at.saturating_sub(begin).min(size - 1);
    let mut held = match Held::read(alloc, disk, begin, n) {
        Ok(held) => held,
        Err(ScanFault::DiskFault) => return Err(DiskFault),
        Err(_) => return Ok(None),
    };
    let held_size = held.len();
    match Slot::scan(&mut held, window, 0, held_size) {
        Ok(Some(slot)) => Ok(Some(placed(slot, begin, size))),
        Ok(None) => Ok(None),
        Err(_) => Ok(None),
    }
}
