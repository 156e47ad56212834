//! A whole device read as a spool.
ghost use Rattle.std.specs.Prelude.{◌≡◌, ◌≤◌, IfOk, IfErr, IsErrOf};
ghost use Rattle.spool_state.specs.Image.{slot_at};
ghost use Rattle.edge_disk.specs.Calls.{Calls};
ghost use Rattle.edge_disk.specs.Disk.{IsUntouched};
ghost use Rattle.disk_cell.specs.Cell.{place_of};
ghost use Rattle.spool_log.specs.Reading.{IsReadFault, KnowsState};

use crate::reading::header::Header;
use crate::reading::judge::fault_place;
use crate::reading::slots::read_slots;
use crate::{Memory, PendFault};
use disk_cell::{Cell, Register};
use edge_disk::Disk;
use spool_slots::Window;
use std::alloc::Global;

// The offset on the device of the cell.
fn offset_of(cell: Cell) -> u64
    ensures { result ≡ place_of cell }
{
    match cell {
        Cell::First => 4096,
        Cell::Second => 8192,
    }
}

/// Reads a device: its header, the register, and each slot once. `NotSpool` comes exactly where the device
/// breaks a rule of the layout, at the place of the first one; else it stands for one state, and memory
/// then knows that. Nothing is written. There is room for all slots in `older`.
pub(crate) fn read_device<D: Disk>(
    alloc: Global,
    disk: &mut D,
    window: &mut Window,
) -> Result<Memory, PendFault>
    ensures calls { Calls (IsErrOf result PendFault.DiskFault) (D.moment disk.old) (D.moment disk.new) }
    ensures told { D.tells → IsUntouched (D.moment disk.old) (D.moment disk.new) }

    ensures long { IfOk result (λ memory. (D.moment disk.old).size ≡ slot_at memory.size memory.slots) }
    ensures found { IfOk result (λ memory. D.tells → KnowsState (D.moment disk.old).reads memory) }
    ensures broken { IfErr result (λ fault. D.tells → IsReadFault (D.moment disk.old).reads fault) }
{
    let header = Header::read(disk)?;
    let register = Register::load(alloc, disk)?;
    let mut older = read_slots(alloc, disk, window, header.slots, header.size)?;
    let cell = offset_of(register.counting);
    if let Some(at) = fault_place(&older, &register.content, cell) {
        return Err(PendFault::NotSpool { at });
    }
    let Some(active) = older.pop() else {
        unreachable!();
    };
    Ok(Memory {
        size: header.size,
        slots: header.slots,
        register,
        older,
        active,
        bookmark: None,
    })
}
