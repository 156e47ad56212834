//! What is staged.
ghost use Rattle.std.specs.Prelude.{◌≡◌, ◌++◌, ◌∷◌, [], IfOk, OnOk, OnErr};

use event_form::{Blob, Entry};
use std::alloc::{AllocError, Global};

/// How many bytes the text of an entry has at most whose memory is used again once it is stored. Longer ones
/// are freed, so that what is kept for a batch stays small.
const SPARE_BYTES: usize = 256;

/// The memory of how many entries and texts is kept at most.
const MOST_SPARE: usize = 64;

/// What is staged, and the memory for the texts that are staged next.
#[derive(Drop)]
pub struct Staged {
    /// The connection's next entries.
    pub entries: Vec<Entry>,
    /// The sequence number of the last one's frame, where there is one.
    pub last: u32,
    // The memory of texts that were stored.
    spare: Vec<Vec<u8>>,
}

impl Staged {
    /// Nothing is staged. It takes no memory.
    pub fn new(alloc: Global) -> Staged
        ensures { result.entries.items ≡ [] }
    {
        Staged {
            entries: Vec::new(alloc),
            last: 0,
            spare: Vec::new(alloc),
        }
    }

    /// A copy of a text, in the memory of one that was stored, if there is any.
    pub fn copy(&mut self, text: &[u8]) -> Result<Blob, AllocError>
        ensures copy { IfOk result (λ blob. blob ≡ text.now) }
        ensures entries { self.new.entries.items ≡ self.old.entries.items }
        ensures last { self.new.last ≡ self.old.last }
    {
        let mut bytes = match self.spare.pop() {
            Some(bytes) => bytes,
            None => Vec::new(*self.entries.allocator()),
        };
        bytes.clear();
        bytes.extend_from_slice(text)?;
        Ok(Blob::of(bytes))
    }

    /// What was staged is stored: nothing is staged any more. It takes memory only to keep that of the
    /// texts, and where there is none it frees them. Of a long batch it frees what its entries took.
    pub fn stored(&mut self)
        ensures empty { self.new.entries.items ≡ [] }
        ensures last { self.new.last ≡ self.old.last }
    {
        while let Some(entry) = self.entries.pop() {
            let bytes = entry.event.text.into_vec();
            if bytes.len() <= SPARE_BYTES && self.spare.len() < MOST_SPARE {
                let _ = self.spare.push(bytes);
            }
        }
        self.entries.shrink_to(MOST_SPARE);
    }
}
