//! Whether the open slots of a device are in order, and the known numbers among those of their entries.
ghost use Rattle.std.specs.Prelude.{◌≡◌, ℕ, ◌+◌, ◌↔◌, ◌<◌, ◌≤◌, List, [], ◌∷◌, ◌++◌, length, All, IsTrue, IsNone, nat_le};
ghost use Rattle.std.specs.List.{prefix_len};
ghost use Rattle.spool_state.specs.SpoolState.{OpenSlot};
ghost use Rattle.known_numbers.specs.Numbers.{AreApart, EndBy, IsSound};
ghost use Rattle.known_numbers.specs.declared.stretch.TheConstants.{MOST_STRETCHES};
ghost use Rattle.spool_log.specs.Device.{GoOn, numbers_in};
ghost use Rattle.spool_log.specs.Knows.{KnowsSlots};
ghost use Rattle.spool_log.specs.Reading.Judging.{HasSoundNumbers, HasDueNumbers, IsOrderOf, IsJudgementOf};

use crate::reading::header::FIRST_SLOT;
use disk_cell::Content;
use known_numbers::Stretch;
use spool_slots::Slot;

// No number of an entry is greater.
const LAST: u64 = 9_223_372_036_854_775_808;

// How many slots, from the first on, have at most this ordinal.
pub(crate) fn count_upto(opened: &[Slot], ordinal: u64) -> usize
    ensures count { result ≡ prefix_len (λ slot. nat_le slot.ordinal ordinal) opened.now }
    ensures within { result ≤ length opened.now }
{
    opened
        .iter()
        .take_while(|slot| slot.ordinal <= ordinal)
        .count()
}

fn has_sound_numbers(slot: &Slot) -> bool
    ensures { IsTrue result ↔ HasSoundNumbers slot.now }
{
    slot.first <= LAST && slot.count <= LAST - slot.first && slot.ordinal <= slot.first + 1
}

// Whether the slot is in order where this ordinal and this first number are due.
fn is_in_order(slot: &Slot, is_last: bool, ordinal: u64, first: u64) -> bool
    ensures { IsTrue result ↔ HasDueNumbers is_last ordinal first slot.now }
{
    slot.ordinal == ordinal
        && slot.first == first
        && (is_last || slot.count > 0)
        && has_sound_numbers(slot)
}

// The offset of the first slot that isn't in order, where of the first slot this ordinal and this first
// number are due.
fn first_at_fault(opened: &[Slot], mut ordinal: u64, mut first: u64) -> Option<u64>
    ensures order { (size : ℕ) (slots : List OpenSlot) → KnowsSlots size slots opened.now → IsOrderOf size slots ordinal first result }
    ensures sound { IsNone result → All HasSoundNumbers opened.now }
    ensures go_on { IsNone result → (last : Slot) (older : List Slot) → opened.now ≡ older ++ last ∷ [] → GoOn older last.first }
{
    for (k, slot) in opened.iter().enumerate() {
        if !is_in_order(slot, k + 1 == opened.len(), ordinal, first) {
            return Some(slot.at);
        }
        ordinal = slot.ordinal + 1;
        first = slot.first + slot.count;
    }
    None
}

// Whether the stretches are apart above the cursor, and end at this number or before.
fn are_among(known: &[Stretch], cursor: u64, end: u64) -> bool
    ensures { IsTrue result ↔ (AreApart cursor known.now × EndBy end known.now) }
{
    let mut below = cursor;
    for stretch in known {
        if stretch.from <= below || stretch.to <= stretch.from || stretch.to > end {
            return false;
        }
        below = stretch.to;
    }
    true
}

/// The place of the first rule that open slots, in order of ordinal, and the known numbers break: that the
/// slots are one after another, and that the known numbers, which stand in the cell at this offset, are
/// among those of their entries.
pub(crate) fn fault_place(opened: &[Slot], content: &Content, cell: u64) -> Option<u64>
    requires few { length content.now.known.items ≤ MOST_STRETCHES }

    ensures judged { (size : ℕ) (slots : List OpenSlot) → KnowsSlots size slots opened.now → IsJudgementOf size slots (numbers_in content.now) cell result }
    ensures some { IsNone result → 0 < length opened.now }
    ensures sound { IsNone result → All HasSoundNumbers opened.now }
    ensures go_on { IsNone result → (last : Slot) (older : List Slot) → opened.now ≡ older ++ last ∷ [] → GoOn older last.first }
    ensures known { IsNone result → IsSound (numbers_in content.now) }
    ensures upto { IsNone result → (last : Slot) (older : List Slot) → opened.now ≡ older ++ last ∷ []
        → (content.now.cursor ≤ last.first + last.count) × EndBy (last.first + last.count) content.now.known.items }
{
    if opened.is_empty() {
        return Some(FIRST_SLOT);
    }
    let oldest = &opened[0];
    let active = &opened[opened.len() - 1];
    if let Some(at) = first_at_fault(opened, oldest.ordinal, oldest.first) {
        return Some(at);
    }
    let end = active.first + active.count;
    if content.cursor < oldest.first || content.cursor > end {
        return Some(cell);
    }
    if !are_among(&content.known, content.cursor, end) {
        return Some(cell);
    }
    None
}
