//! The entries of a slot, read in parts.
ghost use Rattle.std.specs.Prelude.{◌≡◌, ℕ, ◌+◌, ◌-◌, ◌^◌, ◌<◌, ◌≤◌, List, length, min, All, IfOk, IfErr, IsErrOf};
ghost use Rattle.event_form.specs.Entry.{IsEntry};
ghost use Rattle.spool_state.specs.Segment.{Segment};
ghost use Rattle.edge_disk.specs.Calls.{Calls};
ghost use Rattle.edge_disk.specs.Disk.{IsUntouched};
ghost use Rattle.spool_slots.specs.Fault.{IsPartFault};

use crate::layout::SLOT_HEAD;
use crate::next::next_entry;
use crate::window::Window;
use crate::{Mark, ScanFault, Slot};
use edge_disk::Disk;
use event_form::Entry;
use std::alloc::Global;

/// Some entries of a slot, in order.
#[derive(Drop)]
pub struct Part {
    /// The entries, the one of the lowest number first.
    pub entries: Vec<Entry>,
    /// The mark after them.
    pub mark: Mark,
}

impl Slot {
    ghost use Rattle.spool_slots.specs.Slot.{Knows};
    ghost use Rattle.spool_slots.specs.Mark.{IsMark};
    ghost use Rattle.spool_slots.specs.Part.{IsPartOf};

    /// The mark of the slot's first number. It takes no memory.
    pub fn start(&self) -> Mark
        ensures number { result.number ≡ self.now.first }
        ensures mark { (segment : Segment) (c : List ℕ) → Knows self.now segment c → IsMark segment result }
    {
        Mark {
            number: self.first,
            at: SLOT_HEAD as u64,
            rest: 0,
        }
    }

    /// The entries from the mark on: the first `most` of them, or all where they are fewer, and the mark
    /// after them. The mark is one of this slot, and stays one after `append_entries`. They are read through
    /// the window: no byte is read twice, and of `n` bytes of entries at most 4,096 + `n` bytes more are read
    /// than these, and less than 262,144 more. So reading part after part is linear, and large parts cost
    /// little more than their bytes. `NotSpool` comes only where the bytes that were read break a rule of the
    /// slot's groups, with the device's offset at which no group or no entry begins; `DiskFault` only where a
    /// call of the disk failed; `NoMemory` where the entries found none. Nothing is written.
    pub fn read_part<D: Disk>(
        &self,
        alloc: Global,
        disk: &mut D,
        window: &mut Window,
        mark: Mark,
        most: u32,
    ) -> Result<Part, ScanFault>
        requires place { self.now.at + self.now.size ≤ (D.moment disk.old).size }
        requires ends { self.now.first + self.now.count ≤ 2 ^ 63 }

        ensures calls { Calls (IsErrOf result ScanFault.DiskFault) (D.moment disk.old) (D.moment disk.new) }
        ensures told { D.tells → IsUntouched (D.moment disk.old) (D.moment disk.new) }

        ensures count { IfOk result (λ part. length part.entries.items ≡ min most (self.now.first + self.now.count - mark.number)) }
        ensures number { IfOk result (λ part. part.mark.number ≡ mark.number + length part.entries.items) }
        // Whatever the device held, each entry keeps its limits.
        ensures limits { IfOk result (λ part. All IsEntry part.entries.items) }
        // NotSpool comes only where a group or an entry should begin and none does, with that place.
        ensures broken { IfErr result (λ fault. D.tells → IsPartFault (self.now.at + (self.now.gate + 1)) (D.moment disk.old).reads fault) }
        // Of a segment that the slot knows it gives these entries, and never says NotSpool.
        ensures part { (segment : Segment) → D.tells → Knows self.now segment (D.moment disk.old).reads → IsMark segment mark
            → IsPartOf segment mark most result }
    {
        let left = (self.first + self.count).saturating_sub(mark.number);
        let wanted = u64::from(most).min(left);
        let size = self.gate + 1;
        window.empty();
        let mut entries = Vec::new(alloc);
        let mut here = mark;
        for i in 0..wanted {
            let (entry, next) = next_entry(window, disk, alloc, self.at, size, here)?;
            let Ok(()) = entries.push(entry) else {
                return Err(ScanFault::NoMemory);
            };
            here = next;
        }
        Ok(Part {
            entries,
            mark: here,
        })
    }
}
