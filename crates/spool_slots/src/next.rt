//! The entries of a slot, one at a time.
ghost use Rattle.std.specs.Prelude.{◌≡◌, ◌≢◌, ℕ, ◌+◌, ◌-◌, ◌^◌, ◌<◌, ◌≤◌, List, length, min, All, IfOk, IfErr, OnOk, IsErrOf};
ghost use Rattle.foundation.specs.Bytes.{part};
ghost use Rattle.event_form.specs.declared.event.Entry.{Entry};
ghost use Rattle.event_form.specs.Entry.{IsEntry};
ghost use Rattle.event_form.specs.Reading.{Begins};
ghost use Rattle.spool_state.specs.Segment.{IsGroup, Segment, entries_of};
ghost use Rattle.spool_state.specs.Image.{HoldsSegment};
ghost use Rattle.spool_state.specs.Layout.{group_head, most_size};
ghost use Rattle.edge_disk.specs.Calls.{Calls};
ghost use Rattle.edge_disk.specs.Disk.{IsUntouched};
ghost use Rattle.spool_slots.specs.Fault.{IsPartFault};
ghost use Rattle.spool_slots.specs.Mark.{IsMark, FindsGroup, IsEntered, IsReading, IsNextOf};
ghost use Rattle.spool_slots.specs.Window.{IsWindow};

use crate::entry::length_at;
use crate::group::{GroupHead, head_at};
use crate::layout::GROUP_HEAD;
use crate::window::Window;
use crate::{Mark, ScanFault};
use edge_disk::Disk;
use event_form::{Entry, EntryFault, Took, read_entry};
use std::alloc::Global;

/// The fault of what isn't there at offset `from` of the slot; past the slot it is the slot's end.
pub(crate) fn missing_at(at: u64, size: u64, from: u64) -> ScanFault
    requires { at + size < 2 ^ 64 }
    ensures { result ≡ ScanFault.NotSpool (at + min from size) }
{
    ScanFault::NotSpool {
        at: at + from.min(size),
    }
}

/// The head of the group at whose gate the mark stands.
pub(crate) fn group_at<D: Disk>(
    window: &mut Window,
    disk: &mut D,
    at: u64,
    size: u64,
    mark: Mark,
) -> Result<GroupHead, ScanFault>
    requires place { at + size ≤ (D.moment disk.old).size }
    requires small { size ≤ most_size }
    requires window { D.tells → IsWindow at window.old (D.moment disk.old).reads }

    ensures calls { Calls (IsErrOf result ScanFault.DiskFault) (D.moment disk.old) (D.moment disk.new) }
    ensures told { D.tells → IsUntouched (D.moment disk.old) (D.moment disk.new) }
    ensures no_memory { result ≢ Err ScanFault.NoMemory }
    ensures window { OnOk result (D.tells → IsWindow at window.new (D.moment disk.new).reads) }
    ensures inside { IfOk result (λ head. (0 < head.count) × (mark.at + group_head + head.size < size)) }
    ensures broken { IfErr result (λ fault. D.tells → IsPartFault (at + size) (D.moment disk.old).reads fault) }
    ensures group { (segment : Segment) → D.tells → HoldsSegment at size segment (D.moment disk.old).reads → All IsGroup segment.groups
        → IsMark segment mark → mark.rest ≡ 0 → mark.number < segment.first + length (entries_of segment) → FindsGroup segment mark result }
{
    match head_at(window, disk, at, size, mark.at)? {
        Some(head) => Ok(head),
        None => Err(missing_at(at, size, mark.at)),
    }
}

/// The mark's entry, whose group begins at the mark where no entries are left of the one before.
fn enter<D: Disk>(
    window: &mut Window,
    disk: &mut D,
    at: u64,
    size: u64,
    mark: Mark,
) -> Result<Mark, ScanFault>
    requires place { at + size ≤ (D.moment disk.old).size }
    requires small { size ≤ most_size }
    requires window { D.tells → IsWindow at window.old (D.moment disk.old).reads }

    ensures calls { Calls (IsErrOf result ScanFault.DiskFault) (D.moment disk.old) (D.moment disk.new) }
    ensures told { D.tells → IsUntouched (D.moment disk.old) (D.moment disk.new) }
    ensures window { OnOk result (D.tells → IsWindow at window.new (D.moment disk.new).reads) }
    ensures some { IfOk result (λ entered. (0 < entered.rest) × (entered.number ≡ mark.number)) }
    ensures broken { IfErr result (λ fault. D.tells → IsPartFault (at + size) (D.moment disk.old).reads fault) }
    ensures entered { (segment : Segment) → D.tells → HoldsSegment at size segment (D.moment disk.old).reads → All IsGroup segment.groups
        → IsMark segment mark → mark.number < segment.first + length (entries_of segment) → IsEntered segment mark result }
{
    if mark.rest != 0 {
        return Ok(mark);
    }
    let head = group_at(window, disk, at, size, mark)?;
    Ok(Mark {
        number: mark.number,
        at: mark.at + GROUP_HEAD as u64,
        rest: head.count,
    })
}

/// The entry whose text begins at offset `from` of the slot.
fn read_from<D: Disk>(
    window: &mut Window,
    disk: &mut D,
    alloc: Global,
    at: u64,
    size: u64,
    from: u64,
) -> Result<Took, ScanFault>
    requires place { at + size ≤ (D.moment disk.old).size }
    requires window { D.tells → IsWindow at window.old (D.moment disk.old).reads }

    ensures calls { Calls (IsErrOf result ScanFault.DiskFault) (D.moment disk.old) (D.moment disk.new) }
    ensures told { D.tells → IsUntouched (D.moment disk.old) (D.moment disk.new) }
    ensures window { OnOk result (D.tells → IsWindow at window.new (D.moment disk.new).reads) }
    ensures inside { IfOk result (λ took. from + took.used ≤ size) }
    ensures limits { IfOk result (λ took. IsEntry took.entry) }
    ensures broken { IfErr result (λ fault. D.tells → IsPartFault (at + size) (D.moment disk.old).reads fault) }
    ensures read { (e : Entry) (rest : List ℕ) → D.tells → Begins e (part (at + from) (size - from) (D.moment disk.old).reads) rest → IsReading e result }
{
    let Some(length) = length_at(window, disk, at, size, from, size)? else {
        return Err(missing_at(at, size, from));
    };
    window.cover(disk, at, size, from, length)?;
    match read_entry(alloc, window.bytes(from, length)) {
        Ok(took) => Ok(took),
        Err(EntryFault::BadEntry { at: _ }) => Err(missing_at(at, size, from)),
        Err(EntryFault::NoMemory) => Err(ScanFault::NoMemory),
    }
}

/// The mark's entry, and the mark after it.
pub(crate) fn next_entry<D: Disk>(
    window: &mut Window,
    disk: &mut D,
    alloc: Global,
    at: u64,
    size: u64,
    mark: Mark,
) -> Result<(Entry, Mark), ScanFault>
    requires place { at + size ≤ (D.moment disk.old).size }
    requires small { size ≤ most_size }
    requires number { mark.number < 2 ^ 63 }
    requires window { D.tells → IsWindow at window.old (D.moment disk.old).reads }

    ensures calls { Calls (IsErrOf result ScanFault.DiskFault) (D.moment disk.old) (D.moment disk.new) }
    ensures told { D.tells → IsUntouched (D.moment disk.old) (D.moment disk.new) }
    ensures window { OnOk result (D.tells → IsWindow at window.new (D.moment disk.new).reads) }
    ensures number { IfOk result (λ next. next.1.number ≡ mark.number + 1) }
    ensures limits { IfOk result (λ next. IsEntry next.0) }
    ensures broken { IfErr result (λ fault. D.tells → IsPartFault (at + size) (D.moment disk.old).reads fault) }
    ensures next { (segment : Segment) → D.tells → HoldsSegment at size segment (D.moment disk.old).reads → All IsGroup segment.groups
        → IsMark segment mark → mark.number < segment.first + length (entries_of segment) → IsNextOf segment mark result }
{
    let entered = enter(window, disk, at, size, mark)?;
    let Took { entry, used } = read_from(window, disk, alloc, at, size, entered.at)?;
    let next = Mark {
        number: mark.number + 1,
        at: entered.at + used as u64,
        rest: entered.rest - 1,
    };
    Ok((entry, next))
}
