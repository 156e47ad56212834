//! Numbers between slots that no slot has, as far as they were found.
ghost use Rattle.std.specs.Prelude.{◌≡◌, ◌<◌, ◌≤◌, ◌++◌, [], All, length, vec_capacity};
ghost use Rattle.bridge_rescue.specs.Gaps.{gap_between, gaps_in, first_from, spans_of};
ghost use Rattle.bridge_rescue.specs.Looking.{IsReadableSlot};

use crate::found::Found;

/// Some numbers, one after another.
#[derive(Clone, Copy, PartialEq, Eq)]
pub struct Span {
    /// The first of them.
    pub from: u64,
    /// The number after the last of them.
    pub to: u64,
}

// The number of the first entry of the first slot, or 0 where there is none.
fn first_from(founds: &[Found]) -> u64
    ensures { result ≡ first_from (spans_of founds.now) }
{
    match founds {
        [first, ..] => first.slot.first,
        [] => 0,
    }
}

// Adds the numbers from one on up to another, where there are any.
fn add_gap(gaps: &mut Vec<Span>, from: u64, to: u64)
    requires room { length gaps.old.items < vec_capacity gaps.old }

    ensures added { gaps.new.items ≡ gaps.old.items ++ gap_between from to }
    ensures room { vec_capacity gaps.old ≤ vec_capacity gaps.new }
{
    if from < to {
        gaps.push_reserved(Span { from, to });
    }
}

/// Finds the numbers between the first entry of the first of the slots and the last entry of all that none of them has, as far as they were
/// found. The slots stand in order of their first numbers.
pub fn find_gaps(founds: &[Found], gaps: &mut Vec<Span>)
    requires none { gaps.old.items ≡ [] }
    requires room { length founds.now ≤ vec_capacity gaps.old }
    requires readable { (len : _) × All (λ found. IsReadableSlot len found.slot) founds.now }

    ensures { gaps.new.items ≡ gaps_in (spans_of founds.now) }
{
    let mut end = first_from(founds);
    for found in founds {
        let slot = found.slot;
        add_gap(gaps, end, slot.first);
        end = end.max(slot.first + slot.count);
    }
}
