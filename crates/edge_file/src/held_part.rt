//! A part that was written to a disk and is held back.
ghost use Rattle.std.specs.Prelude.{◌≡◌, ◌↔◌, ◌+◌, ◌-◌, ◌<◌, ◌≤◌, min, [], ◌++◌, length, take, IsTrue};

use arrayvec::ArrayVec;

/// How many bytes a page of the file system has, as on the common machines.
pub(crate) const PAGE: usize = 4096;

/// Bytes that wait to be written, at most a page of them.
#[derive(Drop)]
pub(crate) struct HeldPart {
    /// The offset of the first byte. It says nothing while there are none.
    pub at: u64,
    /// The bytes.
    pub bytes: ArrayVec<u8, PAGE>,
}

impl HeldPart {
    /// Nothing waits.
    pub(crate) fn new() -> HeldPart
        ensures at { result.at ≡ 0 }
        ensures none { result.bytes.items ≡ [] }
    {
        HeldPart {
            at: 0,
            bytes: ArrayVec::new(),
        }
    }

    /// Has these bytes wait from this offset on, in place of what waited.
    pub(crate) fn hold(&mut self, at: u64, bytes: &[u8])
        requires { length bytes.now ≤ PAGE }
        ensures at { self.new.at ≡ at }
        ensures bytes { self.new.bytes.items ≡ bytes.now }
    {
        self.at = at;
        self.bytes.clear();
        let _ = self.fill(bytes);
    }

    /// Whether a piece at this offset goes on where these bytes end, of which there are some.
    pub(crate) fn goes_on(&self, at: u64) -> bool
        ensures { IsTrue result ↔ ((0 < length self.now.bytes.items) × (self.now.at + length self.now.bytes.items ≡ at)) }
    {
        !self.bytes.is_empty() && at >= self.at && at - self.at == self.bytes.len() as u64
    }

    /// Adds as much of the front of a piece as the page has room for. Gives how many bytes that is.
    pub(crate) fn fill(&mut self, piece: &[u8]) -> usize
        ensures most { result ≡ min (length piece.now) (PAGE - length self.old.bytes.items) }
        ensures bytes { self.new.bytes.items ≡ self.old.bytes.items ++ take result piece.now }
        ensures at { self.new.at ≡ self.old.at }
    {
        let n = piece.len().min(self.bytes.remaining_capacity());
        let _ = self.bytes.try_extend_from_slice(&piece[..n]);
        n
    }
}
