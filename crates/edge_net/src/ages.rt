//! How long the oldest entry waits that is pending.
use edge_io::SpoolNumbers;
use std::alloc::Global;

// How many marks are kept at most. Where one more comes, those are dropped that are close to their neighbours.
const MOST_MARKS: usize = 256;

// Which part of a mark's age the marks beside it may be apart, so that it is dropped.
const PART: u64 = 8;

// How many milliseconds a second has.
const SECOND: u64 = 1_000;

/// When entries were first seen in a spool.
#[derive(Clone, Copy)]
struct Mark {
    /// So many entries were stored then.
    end: u64,
    /// The time, in milliseconds of the clock.
    at: u64,
}

/// When the pending entries were first seen, by looks at the numbers of a spool. The first mark with an entry is when that was seen first.
/// Where a mark is dropped, its entries count as seen at the next one, which is later by an eighth of its age at most; the first mark stays
/// until its entries are confirmed.
#[derive(Drop)]
pub(crate) struct Ages {
    alloc: Global,
    marks: Vec<Mark>,
}

impl Ages {
    /// No entry was seen.
    pub(crate) fn none(alloc: Global) -> Ages {
        Ages {
            alloc,
            marks: Vec::new(alloc),
        }
    }

    // Drops marks that are close to their neighbours, by how old they are at `now`. The first and the last one stay.
    fn thin(&mut self, now: u64) {
        let mut kept = Vec::new(self.alloc);
        let mut before = None;
        for at in 0..self.marks.len() {
            let Some(mark) = self.marks.get(at) else {
                break;
            };
            let is_needed = match (before, self.marks.get(at.saturating_add(1))) {
                (Some(before), Some(next)) => {
                    next.at.saturating_sub(before) > now.saturating_sub(next.at) / PART
                }
                _ => true,
            };
            if is_needed {
                let _ = kept.push(*mark);
                before = Some(mark.at);
            }
        }
        self.marks = kept;
    }

    /// A look at the numbers at `now`, in milliseconds of the clock.
    pub(crate) fn look(&mut self, numbers: &SpoolNumbers, now: u64) {
        let cursor = numbers.cursor;
        self.marks.retain(|mark| cursor < mark.end);
        let is_new = match self.marks.last() {
            Some(mark) => mark.end < numbers.end,
            None => cursor < numbers.end,
        };
        if !is_new {
            return;
        }
        if self.marks.len() >= MOST_MARKS {
            self.thin(now);
        }
        if self.marks.len() < MOST_MARKS {
            let _ = self.marks.push(Mark {
                end: numbers.end,
                at: now,
            });
        }
    }

    /// How many whole seconds ago the oldest entry was first seen that was pending at the last look; 0 where none was.
    pub(crate) fn oldest(&self, now: u64) -> u64 {
        match self.marks.first() {
            Some(mark) => now.saturating_sub(mark.at) / SECOND,
            None => 0,
        }
    }
}
