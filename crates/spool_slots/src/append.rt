//! A group of entries added to a slot.
ghost use Rattle.std.specs.Prelude.{◌≡◌, ◌≢◌, ℕ, ◌+◌, ◌-◌, ◌^◌, ◌<◌, ◌≤◌, List, [], ◌∷◌, ◌++◌, length, slice_index, All, IsErr};
ghost use Rattle.std.specs.Prelude.{OnOk, OnErr, IsErrOf, MatchResult};
ghost use Rattle.std.specs.Int.{w32, to_be_bytes};
ghost use Rattle.foundation.specs.Bytes.{put, SameBut};
ghost use Rattle.event_form.specs.Entry.{IsEntry};
ghost use Rattle.spool_state.specs.Segment.{Segment, entries_text, group_text, need_of, with_group};
ghost use Rattle.edge_disk.specs.Calls.{Calls};
ghost use Rattle.edge_disk.specs.Disk.{IsSettled, LeavesOnly};
ghost use Rattle.edge_disk.specs.Gate.{ComesFrom, GoesBehind};
ghost use Rattle.edge_disk.specs.Leave.{Lets};
ghost use Rattle.spool_slots.specs.Fault.{CameOf};
ghost use Rattle.spool_slots.specs.Pen.{HasWritten, GoesFilling};
ghost use Rattle.spool_slots.specs.Slot.{IsSlot, Knows, HoldsOldOrNew};

use crate::layout::GROUP_HEAD;
use crate::pen::Pen;
use crate::{Slot, SlotFault};
use edge_disk::{Disk, DiskFault, open_gate};
use event_form::{Entry, entry_head, entry_size};

/// How many bytes a group of these entries needs of a slot's room: the length of its entries (4), their
/// count (4), the entries' texts and the closed gate after them (1). It takes no memory.
pub fn group_need(entries: &[Entry]) -> u64
    requires few { length entries.now < 2 ^ 32 }
    requires limits { All IsEntry entries.now }
    ensures { result ≡ need_of entries.now }
{
    let mut need = GROUP_HEAD as u64;
    for entry in entries {
        need += entry_size(entry);
    }
    need
}

/// Takes the entries' texts.
fn write_entries<D: Disk>(
    pen: &mut Pen,
    disk: &mut D,
    buffer: &mut [u8],
    entries: &[Entry],
) -> Result<(), DiskFault>
    requires buffer { length buffer.old ≡ 65536 }
    requires limits { All IsEntry entries.now }
    requires room { pen.old.at + pen.old.filled + length (entries_text entries.now) ≤ (D.moment disk.old).size }
    requires leave { Lets D.tells D.moment D.may_tear
        (GoesFilling (D.moment disk.old) pen.old.at (pen.old.filled + length (entries_text entries.now))) }

    ensures calls { Calls (IsErr result) (D.moment disk.old) (D.moment disk.new) }
    ensures took { OnOk result (pen.new.at + pen.new.filled ≡ pen.old.at + pen.old.filled + length (entries_text entries.now)) }
    ensures goes_on { pen.old.at ≤ pen.new.at }
    ensures written { OnOk result ((start : ℕ) (base done : List ℕ) → D.tells
        → HasWritten start base done pen.old.at pen.old.filled buffer.old (D.moment disk.old).reads
        → HasWritten start base (done ++ entries_text entries.now) pen.new.at pen.new.filled buffer.new (D.moment disk.new).reads) }
    ensures any_moment { D.tells
        → LeavesOnly (ComesFrom (D.moment disk.old) (SameBut pen.old.at (pen.old.filled + length (entries_text entries.now))))
        (D.moment disk.old) (D.moment disk.new) }
{
    for entry in entries {
        pen.write(disk, buffer, &entry_head(entry))?;
        pen.write(disk, buffer, entry.event.text.bytes())?;
    }
    Ok(())
}

/// The length of a group's entries and their count.
fn group_head(size: u32, count: u32) -> [u8; 8]
    ensures { result ≡ to_be_bytes w32 size ++ to_be_bytes w32 count }
{
    let mut piece = [0; 8];
    piece[..4].copy_from_slice(&size.to_be_bytes());
    piece[4..].copy_from_slice(&count.to_be_bytes());
    piece
}

/// Writes from offset `at` of the device on what stands after a group's gate, and a closed gate.
fn write_group<D: Disk>(
    disk: &mut D,
    at: u64,
    entries: &[Entry],
    size: u32,
    buffer: &mut [u8],
) -> Result<(), DiskFault>
    requires buffer { length buffer.old ≡ 65536 }
    requires few { length entries.now < 2 ^ 32 }
    requires limits { All IsEntry entries.now }
    requires size { size ≡ length (entries_text entries.now) }
    requires room { at + need_of entries.now ≤ (D.moment disk.old).size }
    requires leave { Lets D.tells D.moment D.may_tear (GoesFilling (D.moment disk.old) at (need_of entries.now)) }

    ensures calls { Calls (IsErr result) (D.moment disk.old) (D.moment disk.new) }
    ensures written { OnOk result (D.tells → (D.moment disk.new).reads ≡ put at (group_text entries.now ++ 0 ∷ []) (D.moment disk.old).reads) }
    ensures any_moment { D.tells → LeavesOnly (ComesFrom (D.moment disk.old) (SameBut at (need_of entries.now))) (D.moment disk.old) (D.moment disk.new) }
{
    let mut pen = Pen { at, filled: 0 };
    pen.write(disk, buffer, &group_head(size, entries.len() as u32))?;
    write_entries(&mut pen, disk, buffer, entries)?;
    pen.write(disk, buffer, &[0])?;
    pen.finish(disk, buffer)?;
    Ok(())
}

impl Slot {
    /// Adds a group of these entries: writes it after the slot's closed gate by way of the buffer, in
    /// pieces of 65,536 bytes and a last one of the rest, with a closed gate after it; syncs; and opens the
    /// gate before it: a write, a sync. So a group that needs at most 65,536 bytes takes four calls of the
    /// disk. It takes no memory. `NoRoom` comes exactly where the group needs more than `room`, before any
    /// call, and `DiskFault` only where a call of the disk failed. After an error the slot is as it was, and
    /// after `DiskFault` the device holds the segment as it was or with the group more.
    pub fn append_entries<D: Disk>(
        &mut self,
        disk: &mut D,
        entries: &[Entry],
        buffer: &mut [u8],
    ) -> Result<(), SlotFault>
        requires some { 0 < length entries.now }
        requires few { length entries.now < 2 ^ 32 }
        requires limits { All IsEntry entries.now }
        requires buffer { length buffer.old ≡ 65536 }
        requires place { self.old.at + self.old.size ≤ (D.moment disk.old).size }
        requires closed { D.tells → (c : List ℕ) → (D.moment disk.old).image c → slice_index c (self.old.at + self.old.gate) ≢ 1 }
        requires leave { Lets D.tells D.moment D.may_tear
            (GoesBehind (D.moment disk.old) (self.old.at + self.old.gate) (group_text entries.now ++ 0 ∷ [])) }

        // NoRoom comes exactly where the group needs more than there is room, with these numbers and before
        // any call.
        ensures no_room { MatchResult result (λ _. need_of entries.now ≤ self.old.size - self.old.gate - 1)
            (CameOf (need_of entries.now) (self.old.size - self.old.gate - 1)) }
        ensures no_call { self.old.size - self.old.gate - 1 < need_of entries.now → disk.new ≡ disk.old }
        ensures calls { Calls (IsErrOf result SlotFault.DiskFault) (D.moment disk.old) (D.moment disk.new) }

        ensures slot { OnOk result
            (IsSlot self.old.at self.old.size self.old.ordinal self.old.first (self.old.gate + need_of entries.now)
            (self.old.count + length entries.now) self.new) }
        ensures err { OnErr result (self.new ≡ self.old) }

        ensures durable { OnOk result (D.tells → IsSettled (D.moment disk.new)) }
        ensures closed_after { OnOk result (D.tells → (c : List ℕ) → (D.moment disk.new).image c → slice_index c (self.new.at + self.new.gate) ≢ 1) }
        ensures known { OnOk result ((segment : Segment) → D.tells → ((c : List ℕ) → (D.moment disk.old).image c → Knows self.old segment c)
            → Knows self.new (with_group segment entries.now) (D.moment disk.new).reads) }
        ensures any_moment { (segment : Segment) → D.tells → ((c : List ℕ) → (D.moment disk.old).image c → Knows self.old segment c)
            → LeavesOnly (ComesFrom (D.moment disk.old) (HoldsOldOrNew self.old.at self.old.size segment entries.now)) (D.moment disk.old) (D.moment disk.new) }
    {
        let need = group_need(entries);
        let room = self.room();
        if need > room {
            return Err(SlotFault::NoRoom { need, room });
        }
        let gate = self.at + self.gate;
        let size = (need - GROUP_HEAD as u64) as u32;
        write_group(disk, gate + 1, entries, size, buffer)?;
        disk.sync()?;
        open_gate(disk, gate)?;
        self.gate += need;
        self.count += entries.len() as u64;
        Ok(())
    }
}
