//! The entries of a slot, passed over by their heads.
ghost use Rattle.std.specs.Prelude.{◌≡◌, ◌≢◌, ◌+◌, ◌-◌, ◌^◌, ◌<◌, ◌≤◌, length, All, IfOk, IfErr, OnOk, IsErrOf};
ghost use Rattle.spool_state.specs.Segment.{IsGroup, Segment, entries_of};
ghost use Rattle.spool_state.specs.Image.{HoldsSegment};
ghost use Rattle.spool_state.specs.Layout.{most_size};
ghost use Rattle.edge_disk.specs.Calls.{Calls};
ghost use Rattle.edge_disk.specs.Disk.{IsUntouched};
ghost use Rattle.spool_slots.specs.Fault.{IsPartFault};
ghost use Rattle.spool_slots.specs.Mark.{IsInGroup, IsMark, IsPassed};
ghost use Rattle.spool_slots.specs.Window.{IsWindow};

use crate::entry::length_at;
use crate::layout::GROUP_HEAD;
use crate::next::{group_at, missing_at};
use crate::window::Window;
use crate::{Mark, ScanFault, Slot};
use edge_disk::Disk;

/// The mark after the mark's entry, which is one of a group.
fn pass_entry<D: Disk>(
    window: &mut Window,
    disk: &mut D,
    at: u64,
    size: u64,
    mark: Mark,
) -> Result<Mark, ScanFault>
    requires place { at + size ≤ (D.moment disk.old).size }
    requires number { mark.number < 2 ^ 64 - 1 }
    requires some { 0 < mark.rest }
    requires window { D.tells → IsWindow at window.old (D.moment disk.old).reads }

    ensures calls { Calls (IsErrOf result ScanFault.DiskFault) (D.moment disk.old) (D.moment disk.new) }
    ensures told { D.tells → IsUntouched (D.moment disk.old) (D.moment disk.new) }
    ensures no_memory { result ≢ Err ScanFault.NoMemory }
    ensures window { OnOk result (D.tells → IsWindow at window.new (D.moment disk.new).reads) }
    ensures number { IfOk result (λ passed. passed.number ≡ mark.number + 1) }
    ensures broken { IfErr result (λ fault. D.tells → IsPartFault (at + size) (D.moment disk.old).reads fault) }
    ensures passed { (segment : Segment) → D.tells → HoldsSegment at size segment (D.moment disk.old).reads → All IsGroup segment.groups
        → IsInGroup segment mark → IsPassed segment result }
{
    match length_at(window, disk, at, size, mark.at, size)? {
        Some(length) => Ok(Mark {
            number: mark.number + 1,
            at: mark.at + length as u64,
            rest: mark.rest - 1,
        }),
        None => Err(missing_at(at, size, mark.at)),
    }
}

/// The mark after the mark's group, where that ends at entry `number` or before it; else the one after the
/// mark's entry.
fn pass_some<D: Disk>(
    window: &mut Window,
    disk: &mut D,
    at: u64,
    size: u64,
    mark: Mark,
    number: u64,
) -> Result<Mark, ScanFault>
    requires place { at + size ≤ (D.moment disk.old).size }
    requires small { size ≤ most_size }
    requires number { mark.number < number }
    requires window { D.tells → IsWindow at window.old (D.moment disk.old).reads }

    ensures calls { Calls (IsErrOf result ScanFault.DiskFault) (D.moment disk.old) (D.moment disk.new) }
    ensures told { D.tells → IsUntouched (D.moment disk.old) (D.moment disk.new) }
    ensures no_memory { result ≢ Err ScanFault.NoMemory }
    ensures window { OnOk result (D.tells → IsWindow at window.new (D.moment disk.new).reads) }
    ensures number { IfOk result (λ passed. (mark.number < passed.number) × (passed.number ≤ number)) }
    ensures broken { IfErr result (λ fault. D.tells → IsPartFault (at + size) (D.moment disk.old).reads fault) }
    ensures passed { (segment : Segment) → D.tells → HoldsSegment at size segment (D.moment disk.old).reads → All IsGroup segment.groups
        → IsMark segment mark → number ≤ segment.first + length (entries_of segment) → IsPassed segment result }
{
    if mark.rest != 0 {
        return pass_entry(window, disk, at, size, mark);
    }
    let head = group_at(window, disk, at, size, mark)?;
    if u64::from(head.count) > number - mark.number {
        let entered = Mark {
            number: mark.number,
            at: mark.at + GROUP_HEAD as u64,
            rest: head.count,
        };
        return pass_entry(window, disk, at, size, entered);
    }
    Ok(Mark {
        number: mark.number + u64::from(head.count),
        at: mark.at + GROUP_HEAD as u64 + u64::from(head.size),
        rest: 0,
    })
}

impl Slot {
    ghost use Rattle.spool_slots.specs.Slot.{Knows};

    /// The mark of entry `number`, from the mark of an entry before it or of that one on; the number after
    /// the slot's last entry gives the mark at its end. Groups are passed over by their heads, and the
    /// entries of the last one by theirs, through the window; it takes no memory. The mark is one of this
    /// slot, and so is what is given. `NotSpool` comes only where the bytes that were read break a rule of
    /// the slot's groups, with the device's offset at which no group or no entry begins; `DiskFault` only
    /// where a call of the disk failed. Nothing is written.
    pub fn pass<D: Disk>(
        &self,
        disk: &mut D,
        window: &mut Window,
        mark: Mark,
        number: u64,
    ) -> Result<Mark, ScanFault>
        requires place { self.now.at + self.now.size ≤ (D.moment disk.old).size }
        requires begins { mark.number ≤ number }
        requires ends { number ≤ self.now.first + self.now.count }

        ensures calls { Calls (IsErrOf result ScanFault.DiskFault) (D.moment disk.old) (D.moment disk.new) }
        ensures told { D.tells → IsUntouched (D.moment disk.old) (D.moment disk.new) }
        ensures no_memory { result ≢ Err ScanFault.NoMemory }

        ensures number { IfOk result (λ passed. passed.number ≡ number) }
        ensures broken { IfErr result (λ fault. D.tells → IsPartFault (self.now.at + (self.now.gate + 1)) (D.moment disk.old).reads fault) }
        // In a segment that the slot knows it is a mark again, and NotSpool never comes.
        ensures mark { (segment : Segment) → D.tells → Knows self.now segment (D.moment disk.old).reads → IsMark segment mark → IsPassed segment result }
    {
        let size = self.gate + 1;
        window.empty();
        let mut here = mark;
        while here.number < number {
            here = pass_some(window, disk, self.at, size, here, number)?;
        }
        Ok(here)
    }
}
