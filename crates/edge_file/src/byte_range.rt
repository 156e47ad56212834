//! A range of a disk's bytes.
ghost use Rattle.std.specs.Prelude.{◌≤◌};

/// The bytes of a disk from one offset up to another, which isn't among them. Offsets count bytes from 0.
#[derive(Clone, Copy, PartialEq, Eq)]
pub struct ByteRange {
    /// The offset of the first byte.
    pub from: u64,
    /// The offset after the last byte.
    pub to: u64,
    ghost ordered: { from ≤ to },
}

impl ByteRange {
    ghost use Rattle.std.specs.Prelude.{◌≡◌, ◌↔◌, ◌+◌, ◌^◌, ◌<◌, ◌||◌, ℕ, IsTrue};
    ghost use Rattle.edge_file.specs.ByteRange.{is_within, Touches};

    /// The range of `len` bytes from offset `at` on.
    pub fn new(at: u64, len: u64) -> ByteRange
        requires { at + len < 2 ^ 64 }
        ensures from { result.from ≡ at }
        ensures to { result.to ≡ at + len }
    {
        ByteRange {
            from: at,
            to: at + len,
        }
    }

    /// Whether there is no offset between the two ranges that neither has: they overlap, or one begins
    /// where the other ends.
    pub fn touches(&self, other: &ByteRange) -> bool
        ensures { IsTrue result ↔ Touches self.now other.now }
    {
        self.from <= other.to && other.from <= self.to
    }

    /// The bytes of both.
    pub fn joined(&self, other: &ByteRange) -> ByteRange
        requires { Touches self.now other.now }
        ensures begins { result.from ≤ self.now.from }
        ensures ends { self.now.to ≤ result.to }
        ensures both { (i : ℕ) → is_within result i ≡ (is_within self.now i || is_within other.now i) }
    {
        ByteRange {
            from: self.from.min(other.from),
            to: self.to.max(other.to),
        }
    }
}

impl Default for ByteRange {
    /// No byte.
    fn default() -> ByteRange {
        ByteRange { from: 0, to: 0 }
    }
}
