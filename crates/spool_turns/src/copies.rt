//! Copies of entries.
ghost use Rattle.std.specs.Prelude.{◌≡◌, IfOk};

use event_form::{Blob, Entry, Event};
use std::alloc::{AllocError, Global};

// A copy of the entry. The error comes only for want of memory.
fn copy_of(alloc: Global, entry: &Entry) -> Result<Entry, AllocError>
    ensures { IfOk result (λ copy. copy ≡ entry.now) }
{
    let text = Vec::from_slice(alloc, entry.event.text.bytes())?;
    Ok(Entry {
        conn: entry.conn,
        index: entry.index,
        unit: entry.unit,
        event: Event {
            origin: entry.event.origin,
            text: Blob::of(text),
        },
    })
}

/// Copies of the entries, in the same order. The error comes only for want of memory.
pub(crate) fn copies_of(alloc: Global, entries: &[Entry]) -> Result<Vec<Entry>, AllocError>
    ensures { IfOk result (λ copies. copies.items ≡ entries.now) }
{
    let mut copies = Vec::with_capacity(alloc, entries.len())?;
    for entry in entries {
        copies.push(copy_of(alloc, entry)?)?;
    }
    Ok(copies)
}
