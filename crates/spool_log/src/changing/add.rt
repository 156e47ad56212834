//! A group of entries added to what memory and the device have.
ghost use Rattle.std.specs.Prelude.{◌≡◌, ◌≢◌, ℕ, ◌+◌, ◌-◌, ◌^◌, ◌<◌, ◌≤◌, List, [], ◌∷◌, ◌++◌, drop, length, All, OnOk, OnErr, IsErr};
ghost use Rattle.event_form.specs.Entry.{IsEntry};
ghost use Rattle.spool_state.specs.Segment.{need_of};
ghost use Rattle.spool_state.specs.Layout.{most_number};
ghost use Rattle.spool_state.specs.SpoolState.{SpoolState};
ghost use Rattle.spool_state.specs.Free.{IsClosed};
ghost use Rattle.spool_state.specs.Change.{added, begun};
ghost use Rattle.spool_state.specs.Image.{slot_at};
ghost use Rattle.edge_disk.specs.Calls.{Calls};
ghost use Rattle.edge_disk.specs.Disk.{IsSettled, LeavesOnly};
ghost use Rattle.spool_log.specs.Device.{LiesIn};
ghost use Rattle.spool_log.specs.Knows.{IsStored};
ghost use Rattle.spool_log.specs.State.{KnowsDevice};
ghost use Rattle.spool_answers.specs.Leave.{LetsKeep};
ghost use Rattle.spool_answers.specs.Stages.{last_of, StandsForOne, begin_stages, replace_stages};
ghost use Rattle.spool_log.specs.Changing.Next.{IsHead};
ghost use Rattle.spool_log.specs.Changing.Target.{stages_at, IsFreeIn, StartsConfirmed, Suits};

use crate::Memory;
use crate::changing::begin::{Head, begin_with};
use crate::changing::target::Target;
use edge_disk::{Disk, DiskFault};
use event_form::Entry;
use spool_slots::Slot;

impl Memory {
    ghost use Rattle.spool_log.specs.Memory.{cursor_of, end_of, room_of, most_of};

    /// The next segment in the slot there: it takes the next ordinal, and the end as its first number.
    fn next_at(&self, at: u64) -> Head
        ensures { IsHead self.now.size self.now.active at result }
    {
        Head {
            at,
            size: self.size,
            ordinal: self.active.ordinal + 1,
            first: self.active.first + self.active.count,
        }
    }

    /// Adds the entries to the active slot.
    fn append<D: Disk>(
        &mut self,
        disk: &mut D,
        entries: &[Entry],
        buffer: &mut [u8],
    ) -> Result<(), DiskFault>
        requires long { (D.moment disk.old).size ≡ slot_at self.old.size self.old.slots }
        requires settled { D.tells → IsSettled (D.moment disk.old) }
        requires stored { D.tells → KnowsDevice self.old (D.moment disk.old).reads }
        requires some { 0 < length entries.now }
        requires few { length entries.now < 2 ^ 32 }
        requires limits { All IsEntry entries.now }
        requires numbers { end_of self.old + length entries.now ≤ most_number }
        requires room { need_of entries.now ≤ room_of self.old }
        requires buffer { length buffer.old ≡ 65536 }
        requires leave { LetsKeep D.tells D.moment D.may_tear D.may_release }

        ensures calls { Calls (IsErr result) (D.moment disk.old) (D.moment disk.new) }
        ensures same_device { (self.new.size ≡ self.old.size) × (self.new.slots ≡ self.old.slots) }
        ensures numbered { OnOk result (end_of self.new ≡ end_of self.old + length entries.now) }
        ensures err { OnErr result (self.new ≡ self.old) }
        ensures durable { OnOk result (D.tells → IsSettled (D.moment disk.new)) }
        ensures stored { OnOk result ((s : SpoolState) → D.tells → IsStored s self.old (D.moment disk.old).reads
            → IsStored (added s entries.now) self.new (D.moment disk.new).reads) }
        ensures any_moment { (s : SpoolState) → D.tells → IsStored s self.old (D.moment disk.old).reads
            → LeavesOnly (StandsForOne s (added s entries.now ∷ [])) (D.moment disk.old) (D.moment disk.new) }
    {
        match self.active.append_entries(disk, entries, buffer) {
            Ok(()) => Ok(()),
            Err(_) => Err(DiskFault),
        }
    }

    /// Begins a segment in the closed slot of this place, and adds the entries to it.
    fn begin<D: Disk>(
        &mut self,
        disk: &mut D,
        place: u32,
        entries: &[Entry],
        buffer: &mut [u8],
    ) -> Result<(), DiskFault>
        requires long { (D.moment disk.old).size ≡ slot_at self.old.size self.old.slots }
        requires settled { D.tells → IsSettled (D.moment disk.old) }
        requires stored { D.tells → KnowsDevice self.old (D.moment disk.old).reads }
        requires some { 0 < length entries.now }
        requires few { length entries.now < 2 ^ 32 }
        requires limits { All IsEntry entries.now }
        requires numbers { end_of self.old + length entries.now ≤ most_number }
        requires small { need_of entries.now ≤ most_of self.old }
        requires full { room_of self.old < need_of entries.now }
        requires place { place < self.old.slots }
        requires spare { length self.old.older.items + 1 < self.old.slots }
        requires closed { D.tells → (s : SpoolState) → IsStored s self.old (D.moment disk.old).reads → IsClosed s place }
        requires buffer { length buffer.old ≡ 65536 }
        requires leave { LetsKeep D.tells D.moment D.may_tear D.may_release }

        ensures calls { Calls (IsErr result) (D.moment disk.old) (D.moment disk.new) }
        ensures same_device { (self.new.size ≡ self.old.size) × (self.new.slots ≡ self.old.slots) }
        ensures numbered { OnOk result (end_of self.new ≡ end_of self.old + length entries.now) }
        ensures err { OnErr result (self.new ≡ self.old) }
        ensures durable { OnOk result (D.tells → IsSettled (D.moment disk.new)) }
        ensures stored { OnOk result ((s : SpoolState) → D.tells → IsStored s self.old (D.moment disk.old).reads
            → IsStored (added (begun s place) entries.now) self.new (D.moment disk.new).reads) }
        ensures any_moment { (s : SpoolState) → D.tells → IsStored s self.old (D.moment disk.old).reads
            → LeavesOnly (StandsForOne s (begin_stages s place entries.now)) (D.moment disk.old) (D.moment disk.new) }
    {
        let head = self.next_at(12_288 + u64::from(place) * self.size);
        let slot = begin_with(disk, head, entries, buffer)?;
        self.older.push_reserved(self.active);
        self.active = slot;
        Ok(())
    }

    /// Shuts the first of the older slots, begins a segment in it, and adds the entries to that.
    fn replace_first<D: Disk>(
        &mut self,
        disk: &mut D,
        entries: &[Entry],
        buffer: &mut [u8],
    ) -> Result<(), DiskFault>
        requires long { (D.moment disk.old).size ≡ slot_at self.old.size self.old.slots }
        requires settled { D.tells → IsSettled (D.moment disk.old) }
        requires stored { D.tells → KnowsDevice self.old (D.moment disk.old).reads }
        requires some { 0 < length entries.now }
        requires few { length entries.now < 2 ^ 32 }
        requires limits { All IsEntry entries.now }
        requires numbers { end_of self.old + length entries.now ≤ most_number }
        requires small { need_of entries.now ≤ most_of self.old }
        requires full { room_of self.old < need_of entries.now }
        requires older { 0 < length self.old.older.items }
        requires confirmed { StartsConfirmed self.old.older.items (cursor_of self.old) }
        requires buffer { length buffer.old ≡ 65536 }
        requires leave { LetsKeep D.tells D.moment D.may_tear D.may_release }

        ensures calls { Calls (IsErr result) (D.moment disk.old) (D.moment disk.new) }
        ensures same_device { (self.new.size ≡ self.old.size) × (self.new.slots ≡ self.old.slots) }
        ensures numbered { OnOk result (end_of self.new ≡ end_of self.old + length entries.now) }
        ensures err { OnErr result (self.new ≡ self.old) }
        ensures durable { OnOk result (D.tells → IsSettled (D.moment disk.new)) }
        ensures stored { OnOk result ((s : SpoolState) → D.tells → IsStored s self.old (D.moment disk.old).reads
            → IsStored (last_of s (replace_stages s s.older entries.now)) self.new (D.moment disk.new).reads) }
        ensures any_moment { (s : SpoolState) → D.tells → IsStored s self.old (D.moment disk.old).reads
            → LeavesOnly (StandsForOne s (replace_stages s s.older entries.now)) (D.moment disk.old) (D.moment disk.new) }
    {
        let first = self.older[0];
        first.shut(disk)?;
        let slot = begin_with(disk, self.next_at(first.at), entries, buffer)?;
        self.shift(slot);
        Ok(())
    }

    /// Leaves the first of the older slots out, and takes this one as the active one.
    fn shift(&mut self, slot: Slot)
        requires older { 0 < length self.old.older.items }
        requires lies { LiesIn self.old.slots self.old.size slot }
        requires early { slot.ordinal ≤ slot.first + slot.count + 1 }
        requires goes_on { slot.first ≡ end_of self.old }

        ensures size { self.new.size ≡ self.old.size }
        ensures slots { self.new.slots ≡ self.old.slots }
        ensures register { self.new.register ≡ self.old.register }
        ensures older { self.new.older.items ≡ drop 1 self.old.older.items ++ self.old.active ∷ [] }
        ensures active { self.new.active ≡ slot }
        ensures bookmark { self.new.bookmark ≡ self.old.bookmark }
    {
        self.older.remove(0);
        self.older.push_reserved(self.active);
        self.active = slot;
    }

    /// Adds the entries where they go.
    pub(crate) fn add<D: Disk>(
        &mut self,
        disk: &mut D,
        target: Target,
        entries: &[Entry],
        buffer: &mut [u8],
    ) -> Result<(), DiskFault>
        requires long { (D.moment disk.old).size ≡ slot_at self.old.size self.old.slots }
        requires settled { D.tells → IsSettled (D.moment disk.old) }
        requires stored { D.tells → KnowsDevice self.old (D.moment disk.old).reads }
        requires some { 0 < length entries.now }
        requires few { length entries.now < 2 ^ 32 }
        requires limits { All IsEntry entries.now }
        requires numbers { end_of self.old + length entries.now ≤ most_number }
        requires small { need_of entries.now ≤ most_of self.old }
        requires suits { Suits self.old (need_of entries.now) target }
        requires free { D.tells → (s : SpoolState) → IsStored s self.old (D.moment disk.old).reads → IsFreeIn target s }
        requires buffer { length buffer.old ≡ 65536 }
        requires leave { LetsKeep D.tells D.moment D.may_tear D.may_release }

        ensures calls { Calls (IsErr result) (D.moment disk.old) (D.moment disk.new) }
        ensures same_device { (self.new.size ≡ self.old.size) × (self.new.slots ≡ self.old.slots) }
        ensures numbered { OnOk result (end_of self.new ≡ end_of self.old + length entries.now) }
        ensures err { OnErr result (self.new ≡ self.old) }
        ensures durable { OnOk result (D.tells → IsSettled (D.moment disk.new)) }
        ensures stored { OnOk result ((s : SpoolState) → D.tells → IsStored s self.old (D.moment disk.old).reads
            → IsStored (last_of s (stages_at target s entries.now)) self.new (D.moment disk.new).reads) }
        ensures any_moment { (s : SpoolState) → D.tells → IsStored s self.old (D.moment disk.old).reads
            → LeavesOnly (StandsForOne s (stages_at target s entries.now)) (D.moment disk.old) (D.moment disk.new) }
    {
        match target {
            Target::Active => self.append(disk, entries, buffer),
            Target::Closed(place) => self.begin(disk, place, entries, buffer),
            Target::First => self.replace_first(disk, entries, buffer),
        }
    }
}
