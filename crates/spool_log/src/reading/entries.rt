//! Entries read from the slots.
ghost use Rattle.std.specs.Prelude.{◌≡◌, ◌⊎◌, ℕ, ◌+◌, ◌-◌, ◌^◌, ◌<◌, ◌≤◌, ◌++◌, List, [], ◌∷◌, length, take, max, All, OnOk, IfOk, IsErrOf, MatchResult};
ghost use Rattle.known_numbers.specs.Numbers.{Numbers};
ghost use Rattle.event_form.specs.Entry.{IsEntry};
ghost use Rattle.spool_state.specs.Layout.{most_number};
ghost use Rattle.spool_state.specs.Segment.{Segment, entries_of};
ghost use Rattle.spool_state.specs.SpoolState.{SpoolState};
ghost use Rattle.spool_state.specs.Left.{numbered, unknown, left_from};
ghost use Rattle.spool_state.specs.Image.{slot_at};
ghost use Rattle.edge_disk.specs.Calls.{Calls};
ghost use Rattle.edge_disk.specs.Disk.{IsUntouched};
ghost use Rattle.spool_slots.specs.Slot as Slots;
ghost use Rattle.spool_slots.specs.Mark.{IsMark};
ghost use Rattle.spool_log.specs.Memory.{numbers_of, base_of, end_of};
ghost use Rattle.spool_log.specs.Knows.{IsStored};
ghost use Rattle.spool_answers.specs.Pend.{IsNotBroken, AreNumbered, given_entries};
ghost use Rattle.spool_log.specs.Reading.Marked.{AreMarks, IsMarkOf, IsMarked};
ghost use Rattle.spool_log.specs.Reading.Wanted.{wanted_from};

use crate::{Bookmark, Memory, Numbered, PendFault};
use edge_disk::Disk;
use event_form::Entry;
use known_numbers::KnownNumbers;
use spool_slots::{Mark, Slot, Window};
use std::alloc::{AllocError, Global};

/// Gives the entry where its number isn't known.
fn give_one(
    numbers: &KnownNumbers,
    number: u64,
    entry: Entry,
    given: &mut Vec<Numbered>,
) -> Result<(), AllocError>
    ensures few { OnOk result (length given.new.items ≤ length given.old.items + 1) }
    ensures numbered { (from : ℕ) → from ≤ number → IsEntry entry → AreNumbered from number given.old.items
        → OnOk result (AreNumbered from (number + 1) given.new.items) }
    ensures given { OnOk result (given_entries given.new.items ≡ given_entries given.old.items ++ unknown numbers.now (numbered number (entry ∷ []))) }
{
    if numbers.contains(number) {
        return Ok(());
    }
    let Ok(()) = given.push(Numbered { number, entry }) else {
        return Err(AllocError);
    };
    Ok(())
}

/// Gives those of the entries whose numbers, which go on from `first`, aren't known.
fn give_unknown(
    numbers: &KnownNumbers,
    entries: Vec<Entry>,
    first: u64,
    given: &mut Vec<Numbered>,
) -> Result<(), AllocError>
    requires ends { first + length entries.items ≤ most_number }

    ensures few { OnOk result (length given.new.items ≤ length given.old.items + length entries.items) }
    ensures numbered { (from : ℕ) → from ≤ first → All IsEntry entries.items → AreNumbered from first given.old.items
        → OnOk result (AreNumbered from (first + length entries.items) given.new.items) }
    ensures given { OnOk result (given_entries given.new.items ≡ given_entries given.old.items ++ unknown numbers.now (numbered first entries.items)) }
{
    let mut number = first;
    for entry in entries {
        give_one(numbers, number, entry, given)?;
        number += 1;
    }
    Ok(())
}

/// Where a reading began that came to `mark` and goes on at `here`: there, where nothing was read before.
fn began_at(began: Mark, mark: Mark, here: Mark) -> Mark
    ensures { (result ≡ began) ⊎ (result ≡ here) }
{
    if mark.number <= began.number {
        here
    } else {
        began
    }
}

/// Gives the slot's entries from the mark on whose numbers are at least `from` and aren't known, after those
/// that are given, up to `most` of all. It answers where the reading began and ended: where nothing was read,
/// both at the mark.
fn read_slot<D: Disk>(
    slot: &Slot,
    alloc: Global,
    disk: &mut D,
    window: &mut Window,
    numbers: &KnownNumbers,
    start: Mark,
    from: u64,
    most: u32,
    given: &mut Vec<Numbered>,
) -> Result<Bookmark, PendFault>
    requires place { slot.now.at + slot.now.size ≤ (D.moment disk.old).size }
    requires ends { slot.now.first + slot.now.count ≤ most_number }
    requires few { length given.old.items ≤ most }
    requires begins { slot.now.first ≤ start.number }
    requires start { start.number ≤ max from slot.now.first }
    requires within { start.number ≤ slot.now.first + slot.now.count }
    requires numbered { AreNumbered from slot.now.first given.old.items }

    ensures calls { Calls (IsErrOf result PendFault.DiskFault) (D.moment disk.old) (D.moment disk.new) }
    ensures told { D.tells → IsUntouched (D.moment disk.old) (D.moment disk.new) }
    ensures few { OnOk result (length given.new.items ≤ most) }
    ensures numbered { OnOk result (AreNumbered from (slot.now.first + slot.now.count) given.new.items) }
    ensures ordinal { IfOk result (λ read. read.ordinal ≡ slot.now.ordinal) }
    ensures read { (segment : Segment) → D.tells → Slots.Knows slot.now segment (D.moment disk.old).reads → IsMark segment start
        → MatchResult result
        (λ read. AreMarks segment read
        × (given_entries given.new.items ≡ given_entries given.old.items ++ take (most - length given.old.items)
        (wanted_from numbers.now from (numbered segment.first (entries_of segment))))) IsNotBroken }
{
    let end = slot.first + slot.count;
    let mut began = start;
    let mut mark = start;
    'parts: while mark.number < end && given.len() < most as usize {
        let number = numbers.next_unknown(from.max(mark.number));
        if end <= number {
            return Ok(Bookmark {
                ordinal: slot.ordinal,
                began,
                ended: mark,
            });
        }
        let here = slot.pass(disk, window, mark, number)?;
        let wanted = most - given.len() as u32;
        let part = slot.read_part(alloc, disk, window, here, wanted)?;
        give_unknown(numbers, part.entries, number, given)?;
        began = began_at(began, mark, here);
        mark = part.mark;
    }
    Ok(Bookmark {
        ordinal: slot.ordinal,
        began,
        ended: mark,
    })
}

/// The mark from which a slot is read: the bookmark's nearest one, where that is in the slot and not after
/// `from`; or the slot's first.
fn start_in(slot: &Slot, bookmark: Option<Bookmark>, from: u64) -> Mark
    requires { slot.now.first + slot.now.count ≤ most_number }

    ensures begins { slot.now.first ≤ result.number }
    ensures start { result.number ≤ max from slot.now.first }
    ensures within { result.number ≤ slot.now.first + slot.now.count }
    ensures mark { (segment : Segment) (c : List ℕ) → Slots.Knows slot.now segment c → IsMarkOf bookmark segment → IsMark segment result }
{
    if let Some(kept) = bookmark {
        let mark = kept.nearest(from);
        let number = mark.number;
        if kept.ordinal == slot.ordinal
            && slot.first <= number
            && number <= from
            && number <= slot.first + slot.count
        {
            return mark;
        }
    }
    slot.start()
}

/// The bookmark after a slot was read: that of its reading, where some entries were read.
fn moved(bookmark: Option<Bookmark>, read: Bookmark) -> Option<Bookmark>
    ensures { (result ≡ bookmark) ⊎ (result ≡ Some read) }
{
    if read.ended.number <= read.began.number {
        return bookmark;
    }
    Some(read)
}

impl Memory {
    /// The first `most` entries whose numbers are at least `from` and aren't known, over all slots, and where
    /// the reading began and ended.
    pub(crate) fn read_from<D: Disk>(
        &self,
        alloc: Global,
        disk: &mut D,
        window: &mut Window,
        numbers: &KnownNumbers,
        from: u64,
        most: u32,
    ) -> Result<(Vec<Numbered>, Option<Bookmark>), PendFault>
        requires long { (D.moment disk.old).size ≡ slot_at self.now.size self.now.slots }
        requires known { numbers.now ≡ numbers_of self.now }

        ensures calls { Calls (IsErrOf result PendFault.DiskFault) (D.moment disk.old) (D.moment disk.new) }
        ensures told { D.tells → IsUntouched (D.moment disk.old) (D.moment disk.new) }
        ensures few { IfOk result (λ read. length read.0.items ≤ most) }
        ensures numbered { IfOk result (λ read. AreNumbered from (end_of self.now) read.0.items) }
        ensures read { (s : SpoolState) → D.tells → IsStored s self.now (D.moment disk.old).reads
            → MatchResult result
            (λ read. (given_entries read.0.items ≡ take most (left_from s from)) × IsMarked s.older s.active read.1) IsNotBroken }
    {
        let least = numbers.next_unknown(from);
        let mut given = Vec::new(alloc);
        let mut bookmark = self.bookmark;
        for slot in &self.older {
            let start = start_in(slot, self.bookmark, least);
            let read = read_slot(
                slot, alloc, disk, window, numbers, start, least, most, &mut given,
            )?;
            bookmark = moved(bookmark, read);
        }
        let start = start_in(&self.active, self.bookmark, least);
        let read = read_slot(
            &self.active,
            alloc,
            disk,
            window,
            numbers,
            start,
            least,
            most,
            &mut given,
        )?;
        Ok((given, moved(bookmark, read)))
    }

    /// Keeps where a reading began and ended.
    pub(crate) fn read_up(&mut self, bookmark: Option<Bookmark>)
        ensures same_device { (self.new.size ≡ self.old.size) × (self.new.slots ≡ self.old.slots) }
        ensures end { end_of self.new ≡ end_of self.old }
        ensures stored { (s : SpoolState) (c : List ℕ) → IsStored s self.old c → IsMarked s.older s.active bookmark → IsStored s self.new c }
    {
        self.bookmark = bookmark;
    }
}
