//! The entries that were found, stored into another spool.
ghost use Rattle.std.specs.Prelude.{◌≡◌, ◌+◌, ◌^◌, ◌≤◌, ℕ, List, [], All, false, length, IfErr, IsErrOf};
ghost use Rattle.event_form.specs.Entry.{IsEntry};
ghost use Rattle.spool_state.specs.Segment.{Segment};
ghost use Rattle.spool_state.specs.SpoolState.{OpenSlot, SpoolState};
ghost use Rattle.spool_faults.specs.declared.fault.TakeFault.TheVariants as Take;
ghost use Rattle.edge_disk.specs.Calls.{Calls};
ghost use Rattle.edge_disk.specs.Disk.{IsUntouched};
ghost use Rattle.spool_log.specs.State.{view, IsIn};
ghost use Rattle.spool_slots.specs.Slot.{Knows};
ghost use Rattle.spool_slots.specs.declared.fault.ScanFault.TheVariants as Scan;
ghost use Rattle.bridge_rescue.specs.Looking.{IsReadableSlot, AreReadable, KnowsFound, AreKnown};
ghost use Rattle.bridge_restore.specs.declared.fault.StoreFault.TheVariants.{Unread, Untaken};
ghost use Rattle.bridge_restore.specs.Told.{told_from, told_of, told};
ghost use Rattle.bridge_restore.specs.Storing.{Stores, TakesEach, IsOfStoring};

use crate::fault::StoreFault;
use bridge_rescue::{Found, Held, placed};
use edge_disk::Disk;
use event_form::Entry;
use spool_log::{Numbered, Spool, TakeFault};
use spool_move::take_one;
use spool_slots::{Slot, Window};
use std::alloc::Global;

/// How many entries are read at a time.
const PART: u32 = 256;

// Stores the entries, which have consecutive numbers from this one on, one by one and in order, up to the first one that isn't taken.
fn store_entries<E: Disk>(
    target: &mut Spool<E>,
    tag: u32,
    first: u64,
    entries: Vec<Entry>,
) -> Result<(), TakeFault>
    requires limits { All IsEntry entries.items }
    requires ends { first + length entries.items ≤ 2 ^ 63 }

    ensures calls { Calls (IsErrOf result Take.DiskFault) (E.moment target.old.disk) (E.moment target.new.disk) }
    ensures stored { (t : SpoolState) → E.tells → IsIn t [] (view target.old.memory target.old.doubt (E.moment target.old.disk))
        → TakesEach t (told_from tag first entries.items) result
        (view target.old.memory target.old.doubt (E.moment target.old.disk)) (view target.new.memory target.new.doubt (E.moment target.new.disk)) }
{
    let mut number = first;
    for entry in entries {
        take_one(target, tag, Numbered { number, entry })?;
        number += 1;
    }
    Ok(())
}

// Reads the entries of the slot, and stores them.
fn store_slot<D: Disk, E: Disk>(
    alloc: Global,
    disk: &mut D,
    window: &mut Window,
    slot: &Slot,
    tag: u32,
    target: &mut Spool<E>,
) -> Result<(), StoreFault>
    requires readable { IsReadableSlot (D.moment disk.old).size slot.now }

    ensures known { IfErr result IsOfStoring }
    ensures calls { Calls (IsErrOf result (Unread Scan.DiskFault)) (D.moment disk.old) (D.moment disk.new) }
    ensures target_calls { Calls (IsErrOf result (Untaken Take.DiskFault)) (E.moment target.old.disk) (E.moment target.new.disk) }
    ensures told { D.tells → IsUntouched (D.moment disk.old) (D.moment disk.new) }
    ensures stored { (segment : Segment) (t : SpoolState) → D.tells → E.tells → Knows slot.now segment (D.moment disk.old).reads
        → IsIn t [] (view target.old.memory target.old.doubt (E.moment target.old.disk)) → Stores t (told_of tag segment) result
        (view target.old.memory target.old.doubt (E.moment target.old.disk)) (view target.new.memory target.new.doubt (E.moment target.new.disk)) }
{
    let end = slot.first + slot.count;
    let mut mark = slot.start();
    'parts: while mark.number < end {
        let part = match slot.read_part(alloc, disk, window, mark, PART) {
            Ok(part) => part,
            Err(fault) => return Err(StoreFault::Unread(fault)),
        };
        if let Err(fault) = store_entries(target, tag, mark.number, part.entries) {
            return Err(StoreFault::Untaken(fault));
        }
        mark = part.mark;
    }
    Ok(())
}

// The same of what stands before the fault of a slot, which is read into memory.
fn store_front<D: Disk, E: Disk>(
    alloc: Global,
    disk: &mut D,
    window: &mut Window,
    slot: &Slot,
    tag: u32,
    target: &mut Spool<E>,
) -> Result<(), StoreFault>
    requires readable { IsReadableSlot (D.moment disk.old).size slot.now }

    ensures known { IfErr result IsOfStoring }
    ensures calls { Calls (IsErrOf result (Unread Scan.DiskFault)) (D.moment disk.old) (D.moment disk.new) }
    ensures target_calls { Calls (IsErrOf result (Untaken Take.DiskFault)) (E.moment target.old.disk) (E.moment target.new.disk) }
    ensures told { D.tells → IsUntouched (D.moment disk.old) (D.moment disk.new) }
    ensures stored { (segment : Segment) (t : SpoolState) → D.tells → E.tells
        → KnowsFound (record { slot = slot.now; is_whole = false }) segment (D.moment disk.old).reads
        → IsIn t [] (view target.old.memory target.old.doubt (E.moment target.old.disk)) → Stores t (told_of tag segment) result
        (view target.old.memory target.old.doubt (E.moment target.old.disk)) (view target.new.memory target.new.doubt (E.moment target.new.disk)) }
{
    let mut held = match Held::read(alloc, disk, slot.at, slot.gate) {
        Ok(held) => held,
        Err(fault) => return Err(StoreFault::Unread(fault)),
    };
    let front = placed(*slot, 0, held.len());
    store_slot(alloc, &mut held, window, &front, tag, target)
}

// The same of what was found of a slot.
fn store_found<D: Disk, E: Disk>(
    alloc: Global,
    disk: &mut D,
    window: &mut Window,
    found: &Found,
    tag: u32,
    target: &mut Spool<E>,
) -> Result<(), StoreFault>
    requires readable { IsReadableSlot (D.moment disk.old).size found.now.slot }

    ensures known { IfErr result IsOfStoring }
    ensures calls { Calls (IsErrOf result (Unread Scan.DiskFault)) (D.moment disk.old) (D.moment disk.new) }
    ensures target_calls { Calls (IsErrOf result (Untaken Take.DiskFault)) (E.moment target.old.disk) (E.moment target.new.disk) }
    ensures told { D.tells → IsUntouched (D.moment disk.old) (D.moment disk.new) }
    ensures stored { (segment : Segment) (t : SpoolState) → D.tells → E.tells → KnowsFound found.now segment (D.moment disk.old).reads
        → IsIn t [] (view target.old.memory target.old.doubt (E.moment target.old.disk)) → Stores t (told_of tag segment) result
        (view target.old.memory target.old.doubt (E.moment target.old.disk)) (view target.new.memory target.new.doubt (E.moment target.new.disk)) }
{
    if found.is_whole {
        store_slot(alloc, disk, window, &found.slot, tag, target)
    } else {
        store_front(alloc, disk, window, &found.slot, tag, target)
    }
}

/// Stores the entries that were found of these slots, in order, each as a group of its own, up to the first one that isn't taken or isn't read
/// again; the error says why. In the target each has the connection of the tag, its number as index, the unit 0, and its event.
pub(crate) fn store_slots<D: Disk, E: Disk>(
    alloc: Global,
    disk: &mut D,
    window: &mut Window,
    founds: &[Found],
    tag: u32,
    target: &mut Spool<E>,
) -> Result<(), StoreFault>
    requires readable { AreReadable (D.moment disk.old).size founds.now }

    ensures known { IfErr result IsOfStoring }
    ensures calls { Calls (IsErrOf result (Unread Scan.DiskFault)) (D.moment disk.old) (D.moment disk.new) }
    ensures target_calls { Calls (IsErrOf result (Untaken Take.DiskFault)) (E.moment target.old.disk) (E.moment target.new.disk) }
    ensures told { D.tells → IsUntouched (D.moment disk.old) (D.moment disk.new) }
    ensures stored { (slots : List OpenSlot) (t : SpoolState) → D.tells → E.tells → AreKnown slots founds.now (D.moment disk.old).reads
        → IsIn t [] (view target.old.memory target.old.doubt (E.moment target.old.disk)) → Stores t (told tag slots) result
        (view target.old.memory target.old.doubt (E.moment target.old.disk)) (view target.new.memory target.new.doubt (E.moment target.new.disk)) }
{
    for found in founds {
        store_found(alloc, disk, window, found, tag, target)?;
    }
    Ok(())
}
