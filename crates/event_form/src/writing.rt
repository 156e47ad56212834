//! An entry as bytes.
ghost use Rattle.std.specs.Prelude.{◌≡◌, ◌++◌, IfOk, OnOk, OnErr};
ghost use Rattle.event_form.specs.Event.{IsEvent};
ghost use Rattle.event_form.specs.Entry.{origin_code, head_text, entry_text, size_of};

use crate::{Blob, Entry, Event, HEAD_BYTES, Origin};
use std::alloc::{AllocError, Global};

/// The byte that stands for an origin.
fn code_of(origin: Origin) -> u8
    ensures { result ≡ origin_code origin }
{
    match origin {
        Origin::Relp => 1,
        Origin::LumberData => 2,
        Origin::LumberJson => 3,
        Origin::HecEvent => 4,
        Origin::HecRaw => 5,
    }
}

/// How many bytes the entry's text has: 29 and those of the event's text. It takes no memory.
pub fn entry_size(entry: &Entry) -> u64
    ensures { result ≡ size_of entry.now }
{
    HEAD_BYTES as u64 + entry.event.text.bytes().len() as u64
}

/// The first 29 bytes of the entry's text: all but the event's text. The event keeps its limits. It
/// takes no memory.
pub fn entry_head(entry: &Entry) -> [u8; HEAD_BYTES]
    requires { IsEvent entry.now.event }
    ensures { result ≡ head_text entry.now }
{
    let mut head = [0; HEAD_BYTES];
    head[0] = code_of(entry.event.origin);
    head[1..9].copy_from_slice(&entry.conn.to_be_bytes());
    head[9..17].copy_from_slice(&entry.index.to_be_bytes());
    head[17..25].copy_from_slice(&entry.unit.to_be_bytes());
    head[25..].copy_from_slice(&(entry.event.text.bytes().len() as u32).to_be_bytes());
    head
}

/// Appends the entry's text: 29 bytes of head and the event's text. The event keeps its limits. After
/// the error, that no memory was found, `out` has the bytes that it had.
#[tactic(auto, unfolding(crate::specs::Entry::entry_text))]
pub fn write_entry(entry: &Entry, out: &mut Vec<u8>) -> Result<(), AllocError>
    requires { IsEvent entry.now.event }
    ensures ok { OnOk result (out.new.items ≡ out.old.items ++ entry_text entry.now) }
    ensures err { OnErr result (out.new.items ≡ out.old.items) }
{
    let before = out.len();
    out.extend_from_slice(&entry_head(entry))?;
    if let Err(error) = out.extend_from_slice(entry.event.text.bytes()) {
        out.truncate(before);
        return Err(error);
    }
    Ok(())
}

impl Entry {
    /// An equal entry. The error says that no memory was found.
    pub fn copy(&self, alloc: Global) -> Result<Entry, AllocError>
        ensures { IfOk result (λ entry. entry ≡ self.now) }
    {
        let text = Vec::from_slice(alloc, self.event.text.bytes())?;
        Ok(Entry {
            conn: self.conn,
            index: self.index,
            unit: self.unit,
            event: Event {
                origin: self.event.origin,
                text: Blob::of(text),
            },
        })
    }
}
