//! The top call of the word `rescue`.
ghost use Rattle.std.specs.Prelude.{◌≡◌, ◌≤◌, ℕ, List, [], None, IfOk, IfErr, IsErrOf, vec_capacity};
ghost use Rattle.edge_disk.specs.Calls.{Calls};
ghost use Rattle.edge_disk.specs.Disk.{IsUntouched};
ghost use Rattle.conn_serve.specs.Endings.{CountsFaults};
ghost use Rattle.notes.specs.Notes.{status_of};
ghost use Rattle.bridge_parts.specs.Run.{disk_run, output_run, IsSilent};
ghost use Rattle.bridge_rescue.specs.Layout.{IsHeaderNote};
ghost use Rattle.bridge_rescue.specs.Looking.{HasRoom};
ghost use Rattle.bridge_rescue.specs.RescueRun.{IsLayoutOf, IsRescueNote, FailsRead, HasNoLayout, RescuesBy, IsRescueRun};

use crate::fault::verdict;
use crate::gaps::{Span, find_gaps};
use crate::layout::Layout;
use crate::looking::{Looked, look_at_all};
use crate::printing::print_slots;
use crate::rescued::{Report, Rescued};
use edge_disk::Disk;
use edge_io::Sink;
use notes::Note;
use spool_slots::Window;
use std::alloc::{AllocError, Global};

/// What is reserved before a slot is read: room for what becomes of the slots, the window through which they are read, and room for what
/// is missing between them. The error says that no memory was found.
pub fn reserve(alloc: Global, slots: u32) -> Result<(Looked, Window, Vec<Span>), AllocError>
    ensures looked { IfOk result (λ reserved. HasRoom slots 0 reserved.0) }
    ensures gaps { IfOk result (λ reserved. (slots ≤ vec_capacity reserved.2) × (reserved.2.items ≡ [])) }
{
    let gaps = Vec::with_capacity(alloc, slots as usize)?;
    Ok((Looked::reserve(alloc, slots)?, Window::new(alloc)?, gaps))
}

/// The layout that is given, or where none is, the one that the header tells. The error is the note: `NotSpool` where the header tells
/// none, and `DiskFault` where it wasn't read.
pub fn layout_of<D: Disk>(given: Option<Layout>, disk: &mut D) -> Result<Layout, Note>
    ensures calls { Calls (IsErrOf result Note.DiskFault) (D.moment disk.old) (D.moment disk.new) }
    ensures told { D.tells → IsUntouched (D.moment disk.old) (D.moment disk.new) }
    ensures found { IfOk result (λ layout. D.tells → IsLayoutOf given (D.moment disk.old).reads layout.slots layout.size) }
    ensures known { IfErr result IsHeaderNote }
    ensures broken { IfErr result (λ note. D.tells → HasNoLayout given (D.moment disk.old).reads note) }
{
    match given {
        Some(layout) => Ok(layout),
        None => Layout::read(disk),
    }
}

// Looks at the slots of a device of this layout, prints the entries that were found, and answers why that ended and what was found, where
// the slots were looked at.
fn rescue_slots<D: Disk, K: Sink>(
    alloc: Global,
    layout: Layout,
    disk: &mut D,
    output: &mut K,
) -> (Note, Option<Report>)
    requires prints { (k : K) (text : List ℕ) → K.permits k text }

    ensures known { IsRescueNote result.0 }
    ensures calls { Calls (FailsRead result.1 result.0) (D.moment disk.old) (D.moment disk.new) }
    ensures told { D.tells → IsUntouched (D.moment disk.old) (D.moment disk.new) }
    ensures writes { CountsFaults (result.0 ≡ Note.WriteFault) (K.write_faults output.old) (K.write_faults output.new) }
    ensures silent { result.1 ≡ None → IsSilent (output_run K.taken K.write_faults output.old output.new) }
    ensures done { D.tells → RescuesBy layout (D.moment disk.old).reads result.1 (output_run K.taken K.write_faults output.old output.new) result.0 }
{
    let Ok((mut looked, mut window, mut gaps)) = reserve(alloc, layout.slots) else {
        return (Note::NoMemory, None);
    };
    look_at_all(alloc, disk, &mut window, layout, &mut looked);
    let Looked {
        found,
        faults,
        sound,
    } = looked;
    find_gaps(&found, &mut gaps);
    match print_slots(alloc, disk, &mut window, &found, output) {
        Ok(count) => {
            let note = verdict(&faults, &gaps);
            let report = Report {
                slots: layout.slots,
                sound,
                faults,
                gaps,
                printed: Some(count),
            };
            (note, Some(report))
        }
        Err(note) => {
            let report = Report {
                slots: layout.slots,
                sound,
                faults,
                gaps,
                printed: None,
            };
            (note, Some(report))
        }
    }
}

/// Does what the word `rescue` asks for: prints the event of each entry of each sound slot, and of each entry that stands before the fault of
/// a broken one, as a JSON object and LF, as `list --as json` prints it, in order of the slots' first numbers. The register isn't read, so
/// entries that are known as confirmed are printed too, where they stand in a slot still.
///
/// Each slot is looked at by itself. It is sound where it stands whole on the device, its gate is open, each of its groups is whole, and
/// the number after its last entry is at most 2^63. Where a group isn't whole the slot is broken, and what stands before that group is printed;
/// of any other slot that isn't sound nothing is. Where the slots lie is told by `given`, or where that is nothing by the header. The device
/// may be shorter than its slots.
///
/// **Nothing is written to the disk**, at no moment: no leave to write is asked for.
///
/// The result has the disk, the report of what was found, the note that says why the run ended, and the exit status, which is the note's:
///
/// - `Fine` comes where each slot is sound or closed, and no number is missing between their entries, which were all printed.
/// - `NotSpool` with a report comes where a slot is at fault, with the first one's offset, or where none is and numbers are missing between
///   the slots, as where a slot reads as closed that was not; all entries that were found were printed. With no report it comes where the
///   header tells no layout, at 0 where the magic is missing and at 8 where a number is out of its range.
/// - `WriteFault` comes exactly where a write of the output failed: not all was written.
/// - `DiskFault` comes where a call of the disk failed. Where that was a read of a slot that was looked at, all entries that were found
///   were printed, as the report says; else the first ones were.
/// - `NoMemory` says that no memory was found. With no report nothing was printed; else the lines of the first entries were, each whole.
pub fn bridge_rescue<D: Disk, K: Sink>(
    alloc: Global,
    given: Option<Layout>,
    mut disk: D,
    output: &mut K,
) -> Rescued<D>
    // Any text may be printed. No leave to write to the disk is asked for, so none can be written to it.
    requires prints { (k : K) (text : List ℕ) → K.permits k text }

    ensures status { result.status ≡ status_of result.note }

    // What was found and printed, what was left alone, and what failed meanwhile.
    ensures run { IsRescueRun given (disk_run D.tells D.moment disk result.disk) (output_run K.taken K.write_faults output.old output.new)
        result.report result.note }
{
    match layout_of(given, &mut disk) {
        Ok(layout) => {
            let (note, report) = rescue_slots(alloc, layout, &mut disk, output);
            Rescued::of(note, report, disk)
        }
        Err(note) => Rescued::of(note, None, disk),
    }
}
