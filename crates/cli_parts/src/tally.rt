//! How much of a disk was read.
ghost use Rattle.std.specs.Prelude.{◌≡◌, ℕ, ◌/◌, ◌<◌, ◌≤◌, ◌||◌, false, length, IfOk, slice_index_or};
ghost use Rattle.cli_parts.specs.Tally.{count_read, ends_within};

use std::alloc::{AllocError, Global};

/// How many bytes a part has, of which it is told whether it was read: a MiB.
pub(crate) const PART: u64 = 1_048_576;

/// Which whole parts of a disk were read, from its first byte on. A part counts once, however often it is read: as its last byte is.
#[derive(Drop)]
pub(crate) struct Tally {
    parts: Vec<bool>,
    read: u64,
    ghost counted: { read ≡ count_read parts.items },
}

impl Tally {
    /// Nothing was read of a disk of this length in bytes. The error says that no memory was found.
    pub(crate) fn new(alloc: Global, len: u64) -> Result<Tally, AllocError>
        ensures whole { IfOk result (λ tally. length tally.parts.items ≡ len / PART) }
        ensures none { IfOk result (λ tally. tally.read ≡ 0) }
    {
        let count = (len / PART) as usize;
        let parts = vec![in alloc; false; count]?;
        Ok(Tally { parts, read: 0 })
    }

    /// How many whole parts the disk has.
    pub(crate) fn parts(&self) -> u64
        ensures { result ≡ length self.now.parts.items }
    {
        self.parts.len() as u64
    }

    /// How many of them were read: no more than there are.
    pub(crate) fn read(&self) -> u64
        ensures counted { result ≡ count_read self.now.parts.items }
        ensures most { result ≤ length self.now.parts.items }
    {
        self.read
    }

    /// Bytes of the disk were read, from one offset up to another.
    pub(crate) fn note(&mut self, from: u64, to: u64)
        ensures each { (part : ℕ) → part < length self.new.parts.items → slice_index_or self.new.parts.items part false
            ≡ (slice_index_or self.old.parts.items part false || ends_within from to part) }
        ensures len { length self.new.parts.items ≡ length self.old.parts.items }
    {
        let first = from / PART;
        let past = (to / PART).min(self.parts.len() as u64);
        for part in first..past {
            let part = part as usize;
            if !self.parts[part] {
                self.parts[part] = true;
                self.read += 1;
            }
        }
    }
}
