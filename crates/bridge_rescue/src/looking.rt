//! The slots of a device, each looked at by itself.
ghost use Rattle.std.specs.Prelude.{◌≡◌, ◌⊎◌, ◌↔◌, ℕ, ◌+◌, ◌^◌, ◌<◌, ◌≤◌, List, [], ◌∷◌, ◌++◌, IfOk, IsTrue, length, nat_le, vec_capacity};
ghost use Rattle.std.specs.List.{prefix_len, insert};
ghost use Rattle.spool_state.specs.Layout.{most_number};
ghost use Rattle.spool_state.specs.Image.{slot_at};
ghost use Rattle.spool_state.specs.Broken.{BreaksAt};
ghost use Rattle.edge_disk.specs.Calls.{Calls};
ghost use Rattle.edge_disk.specs.Disk.{IsUntouched};
ghost use Rattle.bridge_rescue.specs.Faults.{HasUnread};
ghost use Rattle.bridge_rescue.specs.Looking.{IsByNumbers, IsByFront, IsSeen, IsUnreadSeen, AreReadable, IsReadable, HasRoom, KnowsAll};

use crate::before::find_before;
use crate::fault::{SlotFault, Why};
use crate::found::Found;
use crate::layout::Layout;
use edge_disk::Disk;
use spool_slots::{ScanFault, Slot, Window};
use std::alloc::{AllocError, Global};

/// The offset at which the first slot begins, after the header and the two cells.
pub(crate) const FIRST_SLOT: u64 = 12_288;

// The number after the last entry is at most this one.
const LAST: u64 = 9_223_372_036_854_775_808;

/// What a slot is.
pub(crate) enum Seen {
    /// Its gate isn't open.
    Closed,
    /// It is sound, and these are its numbers.
    Sound(Slot),
    /// It is not, and these are the numbers of what stands before the fault.
    Front(Slot, SlotFault),
    /// It is not, and nothing of it is printed.
    AtFault(SlotFault),
}

/// The slots of a device of which entries are printed, in order of their numbers; those at fault, in order of place; and how many are sound.
#[derive(Drop)]
pub struct Looked {
    /// What was found of the slots, in order of its first numbers.
    pub found: Vec<Found>,
    /// The slots at fault, in order of place.
    pub faults: Vec<SlotFault>,
    /// How many slots are sound.
    pub sound: u32,
}

// Whether the number after its last entry is at most 2^63.
fn ends_in_time(slot: &Slot) -> bool
    ensures { IsTrue result ↔ (slot.now.first + slot.now.count ≤ most_number) }
{
    slot.first <= LAST && slot.count <= LAST - slot.first
}

// The fault of a slot whose numbers are too great.
fn too_high(slot: &Slot, place: u32) -> SlotFault
    ensures { result ≡ record { place = place; at = slot.now.at; why = Why.TooHigh } }
{
    SlotFault {
        place,
        at: slot.at,
        why: Why::TooHigh,
    }
}

// A slot that was read, by whether the number after its last entry is at most 2^63.
fn by_numbers(slot: Slot, place: u32) -> Seen
    ensures { IsByNumbers slot place result }
{
    if ends_in_time(&slot) {
        Seen::Sound(slot)
    } else {
        Seen::AtFault(too_high(&slot, place))
    }
}

// A slot with a gate at fault, by what was found before that gate.
fn by_front(found: Option<Slot>, place: u32, at: u64) -> Seen
    ensures { IsByFront found place at result }
{
    let Some(slot) = found else {
        let why = Why::Unheld;
        return Seen::AtFault(SlotFault { place, at, why });
    };
    if ends_in_time(&slot) {
        let why = Why::Broken { before: slot.count };
        Seen::Front(slot, SlotFault { place, at, why })
    } else {
        Seen::AtFault(too_high(&slot, place))
    }
}

// A slot that was not read, at its place and the offset at which it begins.
fn unread(place: u32, begin: u64) -> Seen
    ensures { result ≡ Seen.AtFault (record { place = place; at = begin; why = Why.Unread }) }
{
    Seen::AtFault(SlotFault {
        place,
        at: begin,
        why: Why::Unread,
    })
}

// Looks at what stands before a gate at fault, at this offset, of the slot of a place, which begins at another.
fn look_before<D: Disk>(
    alloc: Global,
    disk: &mut D,
    window: &mut Window,
    layout: Layout,
    place: u32,
    begin: u64,
    at: u64,
) -> Seen
    requires begin { begin ≡ slot_at layout.size place }
    requires inside { begin + layout.size ≤ (D.moment disk.old).size }

    ensures calls { Calls (IsUnreadSeen result) (D.moment disk.old) (D.moment disk.new) }
    ensures told { D.tells → IsUntouched (D.moment disk.old) (D.moment disk.new) }
    ensures readable { IsReadable (D.moment disk.old).size result }
    ensures seen { D.tells → BreaksAt begin layout.size at (D.moment disk.old).reads → IsSeen layout.size place (D.moment disk.old).reads result }
{
    match find_before(alloc, disk, window, begin, layout.size, at) {
        Ok(found) => by_front(found, place, at),
        Err(_) => unread(place, begin),
    }
}

// Looks at the slot of a place.
fn look<D: Disk>(
    alloc: Global,
    disk: &mut D,
    window: &mut Window,
    layout: Layout,
    place: u32,
) -> Seen
    requires place { place < layout.slots }

    ensures calls { Calls (IsUnreadSeen result) (D.moment disk.old) (D.moment disk.new) }
    ensures told { D.tells → IsUntouched (D.moment disk.old) (D.moment disk.new) }
    ensures readable { IsReadable (D.moment disk.old).size result }
    ensures seen { D.tells → IsSeen layout.size place (D.moment disk.old).reads result }
{
    let begin = FIRST_SLOT + u64::from(place) * layout.size;
    let end = begin + layout.size;
    let len = disk.len();
    if len < end {
        return Seen::AtFault(SlotFault {
            place,
            at: len,
            why: Why::Cut,
        });
    }
    match Slot::scan(disk, window, begin, layout.size) {
        Ok(None) => Seen::Closed,
        Ok(Some(slot)) => by_numbers(slot, place),
        Err(ScanFault::NotSpool { at }) => {
            look_before(alloc, disk, window, layout, place, begin, at)
        }
        Err(ScanFault::DiskFault) => unread(place, begin),
        Err(ScanFault::NoMemory) => unreachable!(),
    }
}

// How many of what was found, from the first on, have at most this first number.
fn count_upto(founds: &[Found], first: u64) -> usize
    ensures count { result ≡ prefix_len (λ found. nat_le found.slot.first first) founds.now }
    ensures within { result ≤ length founds.now }
{
    founds
        .iter()
        .take_while(|found| found.slot.first <= first)
        .count()
}

impl Looked {
    /// Room for so many slots, of which none was looked at.
    pub(crate) fn reserve(alloc: Global, slots: u32) -> Result<Looked, AllocError>
        ensures { IfOk result (HasRoom slots 0) }
    {
        Ok(Looked {
            found: Vec::with_capacity(alloc, slots as usize)?,
            faults: Vec::with_capacity(alloc, slots as usize)?,
            sound: 0,
        })
    }

    // Something found more: after what has a first number of at most its own.
    fn find(&mut self, slot: Slot, is_whole: bool)
        requires room { length self.old.found.items < vec_capacity self.old.found }

        ensures found { self.new.found.items ≡ insert self.old.found.items
            (prefix_len (λ found. nat_le found.slot.first slot.first) self.old.found.items) (record { slot = slot; is_whole = is_whole }) }
        ensures len { length self.new.found.items ≡ length self.old.found.items + 1 }
        ensures room { vec_capacity self.old.found ≤ vec_capacity self.new.found }
        ensures faults { self.new.faults ≡ self.old.faults }
        ensures sound { self.new.sound ≡ self.old.sound }
    {
        let index = count_upto(&self.found, slot.first);
        let Ok(()) = self.found.insert(index, Found { slot, is_whole }) else {
            unreachable!();
        };
    }

    // One slot at fault more.
    fn blame(&mut self, fault: SlotFault)
        requires room { length self.old.faults.items < vec_capacity self.old.faults }

        ensures faults { self.new.faults.items ≡ self.old.faults.items ++ fault ∷ [] }
        ensures len { length self.new.faults.items ≡ length self.old.faults.items + 1 }
        ensures room { vec_capacity self.old.faults ≤ vec_capacity self.new.faults }
        ensures found { self.new.found ≡ self.old.found }
        ensures sound { self.new.sound ≡ self.old.sound }
    {
        let Ok(()) = self.faults.push(fault) else {
            unreachable!();
        };
    }

    // One slot more.
    fn add(&mut self, seen: Seen)
        requires room { (slots place : ℕ) × HasRoom slots place self.old × (place < slots) × (slots < 2 ^ 32) }

        ensures room { (slots place : ℕ) → HasRoom slots place self.old → HasRoom slots (place + 1) self.new }
        ensures unread { HasUnread self.new.faults.items ↔ (HasUnread self.old.faults.items ⊎ IsUnreadSeen seen) }
        ensures readable { (len : ℕ) → AreReadable len self.old.found.items → IsReadable len seen → AreReadable len self.new.found.items }
        ensures known { (size place : ℕ) (c : List ℕ) → KnowsAll place size c self.old → IsSeen size place c seen → KnowsAll (place + 1) size c self.new }
    {
        match seen {
            Seen::Closed => {}
            Seen::Sound(slot) => {
                self.find(slot, true);
                self.sound += 1;
            }
            Seen::Front(slot, fault) => {
                self.find(slot, false);
                self.blame(fault);
            }
            Seen::AtFault(fault) => self.blame(fault),
        }
    }
}

/// Looks at each slot of a device of this layout, through the window. Nothing is written, and a read that fails doesn't end it: that slot
/// is at fault.
pub fn look_at_all<D: Disk>(
    alloc: Global,
    disk: &mut D,
    window: &mut Window,
    layout: Layout,
    looked: &mut Looked,
)
    requires room { HasRoom layout.slots 0 looked.old }

    ensures calls { Calls (HasUnread looked.new.faults.items) (D.moment disk.old) (D.moment disk.new) }
    ensures told { D.tells → IsUntouched (D.moment disk.old) (D.moment disk.new) }
    ensures few { length looked.new.found.items ≤ layout.slots }
    ensures readable { AreReadable (D.moment disk.old).size looked.new.found.items }
    ensures known { D.tells → KnowsAll layout.slots layout.size (D.moment disk.old).reads looked.new }
{
    for place in 0..layout.slots {
        let seen = look(alloc, disk, window, layout, place);
        looked.add(seen);
    }
}
