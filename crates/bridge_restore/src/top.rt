//! The top call of the words `rescue --into TARGET --tag TAG`.
ghost use Rattle.std.specs.Prelude.{◌≡◌};
ghost use Rattle.spool_answers.specs.Leave.{LetsKeep};
ghost use Rattle.notes.specs.Notes.{status_of};
ghost use Rattle.bridge_parts.specs.Run.{disk_run};
ghost use Rattle.bridge_restore.specs.RestoreRun.{EndsWith, IsRestoreRun, RestoresRun};

use crate::into::{Stored, store_into};
use crate::restored::Restored;
use bridge_rescue::{
    Layout, Looked, Report, SlotFault, Span, find_gaps, layout_of, look_at_all, reserve, verdict,
};
use edge_disk::Disk;
use notes::Note;
use std::alloc::Global;

// The note of a rescue, and how many entries were found where all of them were stored: these, unless it is said why not all were.
fn ending_of(
    why: Option<Note>,
    count: u64,
    faults: &[SlotFault],
    gaps: &[Span],
) -> (Note, Option<u64>)
    ensures { EndsWith why count faults.now gaps.now result }
{
    match why {
        None => (verdict(faults, gaps), Some(count)),
        Some(note) => (note, None),
    }
}

// Looks at the slots of a device of this layout, and stores the entries that were found into the spool of the other disk.
fn restore_slots<D: Disk, E: Disk>(
    alloc: Global,
    layout: Layout,
    tag: u32,
    mut disk: D,
    target: E,
) -> Restored<D, E>
    requires tears { LetsKeep E.tells E.moment E.may_tear E.may_release }

    ensures status { result.status ≡ status_of result.note }
    ensures run { RestoresRun layout tag (disk_run D.tells D.moment disk result.disk) (disk_run E.tells E.moment target result.target)
        result.report result.stored result.note }
{
    let Ok((mut looked, mut window, mut gaps)) = reserve(alloc, layout.slots) else {
        return Restored::of(Note::NoMemory, None, 0, disk, target);
    };
    look_at_all(alloc, &mut disk, &mut window, layout, &mut looked);
    let Looked {
        found,
        faults,
        sound,
    } = looked;
    find_gaps(&found, &mut gaps);
    let Stored { why, count, target } = store_into(
        alloc,
        &mut disk,
        &mut window,
        &found,
        tag,
        target,
    );
    let (note, printed) = ending_of(why, count, &faults, &gaps);
    let report = Report {
        slots: layout.slots,
        sound,
        faults,
        gaps,
        printed,
    };
    Restored::of(note, Some(report), count, disk, target)
}

/// Does what the words `rescue --into TARGET --tag TAG` ask for: stores each entry that `rescue` finds into the spool of `target`, after all
/// that it has, one by one and in order of the slots' first numbers. There an entry has the connection 2^63 + TAG, as its index its number,
/// the unit 0, and the event that it had, as an entry that `move` moves; its text isn't changed.
///
/// Which entries are found, and how `given` tells where the slots lie, is as [`bridge_rescue`](bridge_rescue::bridge_rescue) says. **Nothing is
/// written to `disk`**, at no moment: no leave to write to it is asked for.
///
/// At each moment, and whatever the note, `target` stands for the spool that it was or for that with the first of these entries after it, in
/// order, also where a call fails or the machine stops. An entry counts as stored once it is durable. The result says how many were stored.
/// It has both disks, the report of what was found, the note that says why the run ended, and the exit status, which is the note's:
///
/// - `Fine` comes where each slot is sound or closed, no number is missing between their entries, and all of them were stored.
/// - `NotSpool`, as of `bridge_rescue`, comes where a slot is at fault or numbers are missing, and all entries that were found were stored. It
///   comes also where `target` breaks a rule of the layout, or where the header of `disk` tells no layout; then nothing is changed.
/// - `Strange` comes where `target` has an entry of this TAG pending already, with its index; nothing is changed then.
/// - `TooLarge`, `Spent` and `Full` come where `target` has no room for the next entry. The entries before it are stored.
/// - `DiskFault` comes where a call of one of the disks failed. Where that was a read of a slot that was looked at, all entries that were
///   found were stored, as the report says; else the first ones were.
/// - `RunsSpent` and `Worn` don't come, since `target` is opened as it is. `NoMemory` says that no memory was found. What was stored by then
///   stays so.
pub fn bridge_restore<D: Disk, E: Disk>(
    alloc: Global,
    given: Option<Layout>,
    tag: u32,
    mut disk: D,
    target: E,
) -> Restored<D, E>
    // To the other disk what keeps its spool may be written. No leave to write to the first one is asked for, so none can be written to it.
    requires tears { LetsKeep E.tells E.moment E.may_tear E.may_release }

    ensures status { result.status ≡ status_of result.note }

    // What was found and stored, what was left alone, and what failed meanwhile.
    ensures run { IsRestoreRun given tag (disk_run D.tells D.moment disk result.disk) (disk_run E.tells E.moment target result.target)
        result.report result.stored result.note }
{
    match layout_of(given, &mut disk) {
        Ok(layout) => restore_slots(alloc, layout, tag, disk, target),
        Err(note) => Restored::of(note, None, 0, disk, target),
    }
}
