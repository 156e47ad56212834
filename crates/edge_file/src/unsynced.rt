//! Which ranges of a disk were written since its last good sync.
ghost use Rattle.std.specs.Prelude.{◌≡◌, ◌||◌, ℕ, [], ◌∷◌, length};
ghost use Rattle.std.specs.Bool.{OnTrue, OnFalse};
ghost use Rattle.edge_file.specs.ByteRange.{is_within, is_covered};

use crate::ByteRange;
use arrayvec::ArrayVec;
use std::marker::Model;

/// How many ranges that lie apart are kept. A change of a spool writes a few between two syncs.
const ROOM: usize = 64;

/// The ranges of a disk that were written since its last good sync: exactly the bytes that were noted.
/// Their room is in the value itself, so that none has to be found when a disk fails.
#[derive(Drop)]
pub struct Unsynced {
    ranges: ArrayVec<ByteRange, ROOM>,
}

impl Model for Unsynced {
    ghost use Rattle.std.specs.Prelude.{List};
    ghost use Rattle.edge_file.specs.declared.byte_range.ByteRange.{ByteRange};

    ghost Value = { List ByteRange };

    ghost view = { λ u. u.ranges.items };
}

impl Unsynced {
    /// Nothing was written.
    pub fn new() -> Unsynced
        ensures { result ≡ [] }
    {
        Unsynced {
            ranges: ArrayVec::new(),
        }
    }

    /// The ranges. No byte is in one of them that wasn't noted.
    pub fn ranges(&self) -> &[ByteRange]
        ensures { result.now ≡ self.now }
    {
        self.ranges.as_slice()
    }

    /// Forgets all of it: the disk was synced.
    pub fn clear(&mut self)
        ensures { self.new ≡ [] }
    {
        self.ranges.clear();
    }

    /// Notes that a range is written. Those that overlap it or meet it become one with it. Where the range
    /// lies apart and there is no room for one more, it isn't noted, and the answer is `false`.
    pub fn note(&mut self, written: ByteRange) -> bool
        ensures noted { OnTrue result ((i : ℕ) → is_covered self.new i ≡ (is_within written i || is_covered self.old i)) }
        ensures kept { OnFalse result (self.new ≡ self.old) }
        ensures full { OnFalse result (length self.old ≡ ROOM) }
    {
        let mut kept: ArrayVec<ByteRange, ROOM> = ArrayVec::new();
        let mut whole = written;
        let ranges = self.ranges.as_slice();
        for range in ranges {
            if range.touches(&written) {
                whole = whole.joined(range);
            } else {
                kept.push(*range);
            }
        }
        if kept.try_push(whole).is_err() {
            return false;
        }
        self.ranges = kept;
        true
    }
}
