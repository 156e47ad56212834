//! A segment begun in a closed slot, with its first group.
ghost use Rattle.std.specs.Prelude.{◌≡◌, ◌≢◌, ℕ, ◌+◌, ◌-◌, ◌^◌, ◌<◌, ◌≤◌, List, length, slice_index, All, OnOk, IfOk, IsErr};
ghost use Rattle.foundation.specs.Bytes.{SameBut};
ghost use Rattle.event_form.specs.Entry.{IsEntry};
ghost use Rattle.spool_state.specs.Segment.{need_of};
ghost use Rattle.spool_state.specs.Layout.{most_number};
ghost use Rattle.spool_state.specs.SpoolState.{SpoolState, end};
ghost use Rattle.spool_state.specs.Change.{added, begun};
ghost use Rattle.spool_state.specs.Image.{StandsFor};
ghost use Rattle.edge_disk.specs.Calls.{Calls};
ghost use Rattle.edge_disk.specs.Disk.{IsSettled, LeavesOnly};
ghost use Rattle.spool_slots.specs.Slot.{IsSlot};
ghost use Rattle.spool_log.specs.Knows.{KnowsSlot};
ghost use Rattle.spool_log.specs.Changing.Next.{IsNext};
ghost use Rattle.spool_answers.specs.Leave.{LetsKeep};
ghost use Rattle.spool_answers.specs.Stages.{StandsForOne, begin_stages};

use edge_disk::{Disk, DiskFault};
use event_form::Entry;
use spool_slots::Slot;

/// Where on the device a segment is begun, and its numbers.
#[derive(Clone, Copy)]
pub(crate) struct Head {
    pub at: u64,
    pub size: u64,
    pub ordinal: u64,
    pub first: u64,
}

/// Begins a segment in a closed slot of a settled disk, and adds the entries to it as one group.
pub(crate) fn begin_with<D: Disk>(
    disk: &mut D,
    head: Head,
    entries: &[Entry],
    buffer: &mut [u8],
) -> Result<Slot, DiskFault>
    requires large { 4096 ≤ head.size }
    requires small { head.size ≤ 1073741824 }
    requires place { head.at + head.size ≤ (D.moment disk.old).size }
    requires settled { D.tells → IsSettled (D.moment disk.old) }
    requires closed { D.tells → slice_index (D.moment disk.old).reads head.at ≢ 1 }
    requires some { 0 < length entries.now }
    requires few { length entries.now < 2 ^ 32 }
    requires limits { All IsEntry entries.now }
    requires room { need_of entries.now ≤ head.size - 18 }
    requires buffer { length buffer.old ≡ 65536 }
    requires next { D.tells → ∥ ((s : SpoolState) × (place : ℕ) × StandsFor s (D.moment disk.old).reads × IsNext s place head
        × (end s + length entries.now ≤ most_number)) ∥₁ }
    requires leave { LetsKeep D.tells D.moment D.may_tear D.may_release }

    ensures calls { Calls (IsErr result) (D.moment disk.old) (D.moment disk.new) }
    ensures slot { IfOk result (IsSlot head.at head.size head.ordinal head.first (17 + need_of entries.now) (length entries.now)) }
    ensures durable { OnOk result (D.tells → IsSettled (D.moment disk.new)) }
    ensures outside { OnOk result (D.tells → SameBut head.at head.size (D.moment disk.old).reads (D.moment disk.new).reads) }

    ensures stands { IfOk result
        (λ slot. (s : SpoolState) (place : ℕ) → D.tells → StandsFor s (D.moment disk.old).reads → IsNext s place head
        → end s + length entries.now ≤ most_number
        → StandsFor (added (begun s place) entries.now) (D.moment disk.new).reads × KnowsSlot s.size (added (begun s place) entries.now).active slot) }
    ensures any_moment { (s : SpoolState) (place : ℕ) → D.tells → StandsFor s (D.moment disk.old).reads → IsNext s place head
        → end s + length entries.now ≤ most_number
        → LeavesOnly (StandsForOne s (begin_stages s place entries.now)) (D.moment disk.old) (D.moment disk.new) }
{
    let mut slot = Slot::begin(disk, head.at, head.size, head.ordinal, head.first)?;
    match slot.append_entries(disk, entries, buffer) {
        Ok(()) => Ok(slot),
        Err(_) => Err(DiskFault),
    }
}
