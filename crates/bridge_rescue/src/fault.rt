//! Why a slot isn't sound.
ghost use Rattle.std.specs.Prelude.{◌≡◌, ◌↔◌, IsTrue};
ghost use Rattle.bridge_rescue.specs.Faults.{HasUnread, IsGapNote, IsVerdict};

use crate::gaps::Span;
use crate::looking::FIRST_SLOT;
use notes::Note;
use std::fmt;
use thiserror::Error;

/// What is wrong with a slot.
#[derive(Clone, Copy, PartialEq, Eq, Debug)]
pub enum Why {
    /// The device ends before the slot does.
    Cut,
    /// An open gate stands in it, and after it no group that ends with its closing gate in the slot and holds exactly its count of
    /// entries, at least one. Before it stand whole groups with `before` entries in all, or none.
    Broken { before: u64 },
    /// The same, and no memory was found for what stands before it.
    Unheld,
    /// The number after its last entry is above 2^63, or that after the last one before its first gate at fault.
    TooHigh,
    /// A read of it failed.
    Unread,
}

/// A slot that isn't sound. Nothing of it is printed but what stands before the fault, where it is `Broken`.
#[derive(Clone, Copy, Debug, Drop, Error)]
pub struct SlotFault {
    /// Its place among the slots, from 0.
    pub place: u32,
    /// An offset on the device, in bytes: of a slot that is `Cut` where the device ends, of one that is `Broken` or `Unheld` the gate at
    /// fault, and else where the slot begins.
    pub at: u64,
    /// What is wrong.
    pub why: Why,
}

/// The line of a rescue that says it, without `bridge: ` before it.
impl fmt::Display for SlotFault {
    fn fmt<W: fmt::Write>(&self, f: &mut fmt::Formatter<W>) -> fmt::Result {
        let SlotFault { place, at, why } = *self;
        match why {
            Why::Cut => write!(f, "slot {place}: FILE ends at byte {at}"),
            Why::Broken { before } => write!(
                f,
                "slot {place}: no whole group at byte {at}; entries before it: {before}"
            ),
            Why::Unheld => write!(
                f,
                "slot {place}: no whole group at byte {at}; no memory for the entries before it"
            ),
            Why::TooHigh => write!(f, "slot {place}: numbers above 2^63 at byte {at}"),
            Why::Unread => write!(f, "slot {place}: a read failed, from byte {at} on"),
        }
    }
}

// Whether a read of it failed.
fn is_unread(why: Why) -> bool
    ensures { IsTrue result ↔ (why ≡ Why.Unread) }
{
    match why {
        Why::Cut => false,
        Why::Broken { before: _ } => false,
        Why::Unheld => false,
        Why::TooHigh => false,
        Why::Unread => true,
    }
}

// Whether one of the slots was not read.
fn has_unread(faults: &[SlotFault]) -> bool
    ensures { IsTrue result ↔ HasUnread faults.now }
{
    for fault in faults {
        if is_unread(fault.why) {
            return true;
        }
    }
    false
}

// The note where no slot is at fault, and between the slots these numbers are missing.
fn gap_note(gaps: &[Span]) -> Note
    ensures { IsGapNote gaps.now result }
{
    match gaps {
        [_, ..] => Note::NotSpool { at: FIRST_SLOT },
        [] => Note::Fine,
    }
}

/// The note where all entries were printed that were found, these slots are at fault, and these numbers are missing between what was
/// found: `DiskFault` where one was not read; else `NotSpool`, with the offset of the first fault, or that of the slots where numbers are
/// missing and none is at fault; `Fine` where all is well.
pub fn verdict(faults: &[SlotFault], gaps: &[Span]) -> Note
    ensures { IsVerdict faults.now gaps.now result }
{
    if has_unread(faults) {
        return Note::DiskFault;
    }
    match faults {
        [first, ..] => Note::NotSpool { at: first.at },
        [] => gap_note(gaps),
    }
}
