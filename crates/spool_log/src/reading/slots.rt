//! The slots of a device, read one after another.
ghost use Rattle.std.specs.Prelude.{◌≡◌, ℕ, ◌+◌, ◌<◌, ◌≤◌, All, OnOk, IfOk, IfErr, IsErrOf, vec_capacity, nat_le};
ghost use Rattle.std.specs.List.{prefix_len, insert};
ghost use Rattle.spool_state.specs.Image.{slot_at};
ghost use Rattle.edge_disk.specs.Calls.{Calls};
ghost use Rattle.edge_disk.specs.Disk.{IsUntouched};
ghost use Rattle.spool_log.specs.Reading.{IsPlaced, IsSlotsFault, KnowsOpened};

use crate::PendFault;
use crate::reading::header::FIRST_SLOT;
use crate::reading::judge::count_upto;
use edge_disk::Disk;
use spool_slots::{Slot, Window};
use std::alloc::{AllocError, Global};

// Puts the slot after those with at most its ordinal.
fn keep(opened: &mut Vec<Slot>, slot: Slot) -> Result<(), AllocError>
    ensures kept { OnOk result (opened.new.items ≡ insert opened.old.items (prefix_len (λ other. nat_le other.ordinal slot.ordinal) opened.old.items) slot) }
    ensures capacity { vec_capacity opened.old ≤ vec_capacity opened.new }
{
    let index = count_upto(opened, slot.ordinal);
    match opened.insert(index, slot) {
        Ok(()) => Ok(()),
        Err(_) => Err(AllocError),
    }
}

// Reads the slot at a place, and keeps it where it is open.
fn read_one<D: Disk>(
    disk: &mut D,
    window: &mut Window,
    opened: &mut Vec<Slot>,
    place: u32,
    size: u64,
) -> Result<(), PendFault>
    requires few { place < 1024 }
    requires large { 4096 ≤ size }
    requires small { size ≤ 1073741824 }
    requires inside { slot_at size place + size ≤ (D.moment disk.old).size }

    ensures calls { Calls (IsErrOf result PendFault.DiskFault) (D.moment disk.old) (D.moment disk.new) }
    ensures told { D.tells → IsUntouched (D.moment disk.old) (D.moment disk.new) }

    ensures capacity { vec_capacity opened.old ≤ vec_capacity opened.new }
    ensures placed { OnOk result ((slots : ℕ) → place < slots → All (IsPlaced slots size) opened.old.items → All (IsPlaced slots size) opened.new.items) }
    ensures known { OnOk result
        (D.tells → KnowsOpened place size opened.old.items (D.moment disk.old).reads
        → KnowsOpened (place + 1) size opened.new.items (D.moment disk.old).reads) }
    ensures broken { IfErr result
        (λ fault. (slots : ℕ) → D.tells → place < slots → KnowsOpened place size opened.old.items (D.moment disk.old).reads
        → IsSlotsFault slots size (D.moment disk.old).reads fault) }
{
    let at = FIRST_SLOT + u64::from(place) * size;
    let Some(slot) = Slot::scan(disk, window, at, size)? else {
        return Ok(());
    };
    keep(opened, slot)?;
    Ok(())
}

/// Reads every slot of a device of so many slots of `size` bytes, in order of place, and gives the open
/// ones in order of ordinal; slots of one ordinal stand in order of place. There is room for all slots.
/// `NotSpool` comes only where a slot breaks the rule of its groups, with the place in the first one that
/// does. Nothing is written.
pub(crate) fn read_slots<D: Disk>(
    alloc: Global,
    disk: &mut D,
    window: &mut Window,
    slots: u32,
    size: u64,
) -> Result<Vec<Slot>, PendFault>
    requires few { slots ≤ 1024 }
    requires large { 4096 ≤ size }
    requires small { size ≤ 1073741824 }
    requires long { (D.moment disk.old).size ≡ slot_at size slots }

    ensures calls { Calls (IsErrOf result PendFault.DiskFault) (D.moment disk.old) (D.moment disk.new) }
    ensures told { D.tells → IsUntouched (D.moment disk.old) (D.moment disk.new) }

    ensures spare { IfOk result (λ opened. slots ≤ vec_capacity opened) }
    ensures placed { IfOk result (λ opened. All (IsPlaced slots size) opened.items) }
    ensures known { IfOk result (λ opened. D.tells → KnowsOpened slots size opened.items (D.moment disk.old).reads) }
    ensures broken { IfErr result (λ fault. D.tells → IsSlotsFault slots size (D.moment disk.old).reads fault) }
{
    let mut opened = Vec::with_capacity(alloc, slots as usize)?;
    for place in 0..slots {
        read_one(disk, window, &mut opened, place, size)?;
    }
    Ok(opened)
}
