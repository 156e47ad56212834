//! The entries that were found, printed.
ghost use Rattle.std.specs.Prelude.{◌≡◌, ◌≤◌, ℕ, List, false, length, IfErr, IsErrOf};
ghost use Rattle.spool_state.specs.Layout.{most_slots};
ghost use Rattle.spool_state.specs.Segment.{Segment, entries_of};
ghost use Rattle.spool_state.specs.SpoolState.{OpenSlot, entries_in};
ghost use Rattle.edge_disk.specs.Calls.{Calls};
ghost use Rattle.edge_disk.specs.Disk.{IsUntouched};
ghost use Rattle.spool_slots.specs.Slot.{Knows};
ghost use Rattle.conn_serve.specs.Endings.{CountsFaults};
ghost use Rattle.bridge_rescue.specs.Lines.{GathersMore, PrintsCounted, IsPrintNote};
ghost use Rattle.bridge_rescue.specs.Looking.{IsReadableSlot, AreReadable, KnowsFound, AreKnown, note_of_scan};

use crate::found::{Found, placed};
use crate::held::Held;
use crate::lines::{add_entries, write_rest};
use edge_disk::Disk;
use edge_io::Sink;
use notes::Note;
use spool_slots::{ScanFault, Slot, Window};
use std::alloc::Global;

/// How many entries are read at a time.
const PART: u32 = 256;

/// The note of the same name.
pub fn note_of_scan(fault: ScanFault) -> Note
    ensures { result ≡ note_of_scan fault }
{
    match fault {
        ScanFault::NotSpool { at } => Note::NotSpool { at },
        ScanFault::DiskFault => Note::DiskFault,
        ScanFault::NoMemory => Note::NoMemory,
    }
}

// Reads the entries of the slot, and adds their lines to those that are held, of which many are written.
fn print_slot<D: Disk, K: Sink>(
    alloc: Global,
    disk: &mut D,
    window: &mut Window,
    slot: &Slot,
    output: &mut K,
    lines: &mut Vec<u8>,
) -> Result<(), Note>
    requires prints { (k : K) (text : List ℕ) → K.permits k text }
    requires readable { IsReadableSlot (D.moment disk.old).size slot.now }

    ensures known { IfErr result IsPrintNote }
    ensures calls { Calls (IsErrOf result Note.DiskFault) (D.moment disk.old) (D.moment disk.new) }
    ensures told { D.tells → IsUntouched (D.moment disk.old) (D.moment disk.new) }
    ensures writes { CountsFaults (IsErrOf result Note.WriteFault) (K.write_faults output.old) (K.write_faults output.new) }
    ensures gathered { (segment : Segment) → D.tells → Knows slot.now segment (D.moment disk.old).reads
        → GathersMore (entries_of segment) result (K.taken output.old) (K.taken output.new) lines.old.items lines.new.items }
{
    let end = slot.first + slot.count;
    let mut mark = slot.start();
    'parts: while mark.number < end {
        let part = match slot.read_part(alloc, disk, window, mark, PART) {
            Ok(part) => part,
            Err(fault) => return Err(note_of_scan(fault)),
        };
        add_entries(alloc, output, &part.entries, lines)?;
        mark = part.mark;
    }
    Ok(())
}

// The same of what stands before the fault of a slot, which is read into memory.
fn print_front<D: Disk, K: Sink>(
    alloc: Global,
    disk: &mut D,
    window: &mut Window,
    slot: &Slot,
    output: &mut K,
    lines: &mut Vec<u8>,
) -> Result<(), Note>
    requires prints { (k : K) (text : List ℕ) → K.permits k text }
    requires readable { IsReadableSlot (D.moment disk.old).size slot.now }

    ensures known { IfErr result IsPrintNote }
    ensures calls { Calls (IsErrOf result Note.DiskFault) (D.moment disk.old) (D.moment disk.new) }
    ensures told { D.tells → IsUntouched (D.moment disk.old) (D.moment disk.new) }
    ensures writes { CountsFaults (IsErrOf result Note.WriteFault) (K.write_faults output.old) (K.write_faults output.new) }
    ensures gathered { (segment : Segment) → D.tells → KnowsFound (record { slot = slot.now; is_whole = false }) segment (D.moment disk.old).reads
        → GathersMore (entries_of segment) result (K.taken output.old) (K.taken output.new) lines.old.items lines.new.items }
{
    let mut held = match Held::read(alloc, disk, slot.at, slot.gate) {
        Ok(held) => held,
        Err(fault) => return Err(note_of_scan(fault)),
    };
    let front = placed(*slot, 0, held.len());
    print_slot(alloc, &mut held, window, &front, output, lines)
}

// The same of what was found of a slot.
fn print_found<D: Disk, K: Sink>(
    alloc: Global,
    disk: &mut D,
    window: &mut Window,
    found: &Found,
    output: &mut K,
    lines: &mut Vec<u8>,
) -> Result<(), Note>
    requires prints { (k : K) (text : List ℕ) → K.permits k text }
    requires readable { IsReadableSlot (D.moment disk.old).size found.now.slot }

    ensures known { IfErr result IsPrintNote }
    ensures calls { Calls (IsErrOf result Note.DiskFault) (D.moment disk.old) (D.moment disk.new) }
    ensures told { D.tells → IsUntouched (D.moment disk.old) (D.moment disk.new) }
    ensures writes { CountsFaults (IsErrOf result Note.WriteFault) (K.write_faults output.old) (K.write_faults output.new) }
    ensures gathered { (segment : Segment) → D.tells → KnowsFound found.now segment (D.moment disk.old).reads
        → GathersMore (entries_of segment) result (K.taken output.old) (K.taken output.new) lines.old.items lines.new.items }
{
    if found.is_whole {
        print_slot(alloc, disk, window, &found.slot, output, lines)
    } else {
        print_front(alloc, disk, window, &found.slot, output, lines)
    }
}

/// Prints the events of the entries that were found of these slots, in order, and answers how many there are. The error is the note that says why not all
/// were printed: `WriteFault` exactly where a write failed, `DiskFault` exactly where a call of the disk did, `NoMemory`, or `NotSpool` where
/// a slot is another one than it was.
pub(crate) fn print_slots<D: Disk, K: Sink>(
    alloc: Global,
    disk: &mut D,
    window: &mut Window,
    founds: &[Found],
    output: &mut K,
) -> Result<u64, Note>
    requires prints { (k : K) (text : List ℕ) → K.permits k text }
    requires few { length founds.now ≤ most_slots }
    requires readable { AreReadable (D.moment disk.old).size founds.now }

    ensures known { IfErr result IsPrintNote }
    ensures calls { Calls (IsErrOf result Note.DiskFault) (D.moment disk.old) (D.moment disk.new) }
    ensures told { D.tells → IsUntouched (D.moment disk.old) (D.moment disk.new) }
    ensures writes { CountsFaults (IsErrOf result Note.WriteFault) (K.write_faults output.old) (K.write_faults output.new) }
    ensures printed { (slots : List OpenSlot) → D.tells → AreKnown slots founds.now (D.moment disk.old).reads
        → PrintsCounted (entries_in slots) result (K.taken output.old) (K.taken output.new) }
{
    let mut lines = Vec::new(alloc);
    let mut count = 0;
    for found in founds {
        print_found(alloc, disk, window, found, output, &mut lines)?;
        count += found.slot.count;
    }
    write_rest(output, &lines)?;
    Ok(count)
}
