//! An entry from bytes.
ghost use Rattle.std.specs.Prelude.{◌≡◌, ℕ, List, ◌+◌, ◌≤◌, ◌++◌, Bool, false, length, take, drop, IsErr, IfOk, IfErr, IfSome, IfNone, IsTrue, ◌↔◌};
ghost use Rattle.std.specs.Int.{w32, w64, from_be_bytes};
ghost use Rattle.event_form.specs.Event.{ArePairs};
ghost use Rattle.event_form.specs.Entry.{origin_code, IsEntry, entry_text, size_of};
ghost use Rattle.event_form.specs.Reading.{Begins, is_origin, told_length, IsBadAt, IsFault, IsRead};
ghost use Rattle.event_form.specs.Head.{Tells, entry_of};

use crate::pairs::are_pairs;
use crate::{Blob, Entry, Event, HEAD_BYTES, MOST_TEXT, Origin};
use std::alloc::{AllocError, Global};
use thiserror::Error;

/// An entry that was read, and how many bytes it took.
#[derive(Drop)]
pub struct Took {
    pub entry: Entry,
    pub used: usize,
}

/// Why no entry was read.
#[derive(Clone, Copy, PartialEq, Eq, Debug, Drop, Error)]
pub enum EntryFault {
    /// No entry's text begins the bytes. The first rule that they break, in this order and each as soon
    /// as its bytes are there, gives the place: 0 where the first byte is no origin; 25 where the length
    /// is above `MOST_TEXT`; 29 where the text of a `LumberData` entry is there and isn't at most
    /// `MOST_PAIRS` whole pairs; else the bytes end too early, and it is their length.
    #[error("no entry at {at}")]
    BadEntry { at: usize },
    /// No memory was found. An entry's text does begin the bytes.
    #[error("no memory")]
    NoMemory,
}

impl From<AllocError> for EntryFault {
    ghost use Rattle.std.specs.Prelude.{◌≡◌};
    ghost use Rattle.event_form.specs.declared.reading.EntryFault.TheVariants.{NoMemory};

    ghost from_gives = { λ _ e. e ≡ NoMemory };

    fn from(_: AllocError) -> EntryFault {
        EntryFault::NoMemory
    }
}

/// What an entry's head tells.
#[derive(Clone, Copy)]
pub(crate) struct Head {
    origin: Origin,
    conn: u64,
    index: u64,
    unit: u64,
    length: usize,
}

/// The origin for which a byte stands.
pub(crate) fn origin_of(byte: u8) -> Option<Origin>
    ensures some { IfSome result (λ origin. byte ≡ origin_code origin) }
    ensures none { IfNone result (is_origin byte ≡ false) }
{
    match byte {
        1 => Some(Origin::Relp),
        2 => Some(Origin::LumberData),
        3 => Some(Origin::LumberJson),
        4 => Some(Origin::HecEvent),
        5 => Some(Origin::HecRaw),
        _ => None,
    }
}

/// The number in the eight bytes from an offset on.
fn u64_at(bytes: &[u8], at: usize) -> u64
    requires { at + 8 ≤ length bytes.now }
    ensures { result ≡ from_be_bytes w64 (take 8 (drop at bytes.now)) }
{
    let mut field = [0; 8];
    field.copy_from_slice(&bytes[at..at + 8]);
    u64::from_be_bytes(field)
}

/// The length that a head tells of its text.
pub(crate) fn text_length(head: &[u8]) -> usize
    requires { HEAD_BYTES ≤ length head.now }
    ensures { result ≡ told_length head.now }
{
    let mut field = [0; 4];
    field.copy_from_slice(&head[25..29]);
    u32::from_be_bytes(field) as usize
}

/// The head that the bytes begin with, its text no longer than an event's may be; else the place of the
/// fault.
fn read_head(bytes: &[u8]) -> Result<Head, usize>
    ensures ok { IfOk result (Tells bytes.now) }
    ensures err { IfErr result (IsBadAt bytes.now) }
{
    if bytes.is_empty() {
        return Err(0);
    }
    let Some(origin) = origin_of(bytes[0]) else {
        return Err(0);
    };
    if bytes.len() < HEAD_BYTES {
        return Err(bytes.len());
    }
    let length = text_length(bytes);
    if length > MOST_TEXT {
        return Err(25);
    }
    Ok(Head {
        origin,
        conn: u64_at(bytes, 1),
        index: u64_at(bytes, 9),
        unit: u64_at(bytes, 17),
        length,
    })
}

/// Whether a text, no longer than an event's may be, is one for an event of that origin.
fn may_have(origin: Origin, text: &[u8]) -> bool
    requires { length text.now ≤ MOST_TEXT }
    ensures { IsTrue result ↔ (origin ≡ Origin.LumberData → ArePairs text.now) }
{
    origin != Origin::LumberData || are_pairs(text)
}

/// The head and the text of the entry that the bytes begin with, or the place of the fault.
pub(crate) fn read_parts(bytes: &[u8]) -> Result<(Head, &[u8]), usize>
    ensures ok { IfOk result (λ found. (rest : List ℕ) × Begins (entry_of found.0 found.1.now) bytes.now rest) }
    ensures err { IfErr result (IsBadAt bytes.now) }
{
    let head = read_head(bytes)?;
    let (_, rest) = bytes.split_at(HEAD_BYTES);
    if rest.len() < head.length {
        return Err(bytes.len());
    }
    let (text, _) = rest.split_at(head.length);
    if !may_have(head.origin, text) {
        return Err(HEAD_BYTES);
    }
    Ok((head, text))
}

/// Reads the entry whose text the bytes begin with; other bytes may follow it.
pub fn read_entry(alloc: Global, bytes: &[u8]) -> Result<Took, EntryFault>
    // What is read is an entry within its limits, and its text begins the bytes.
    ensures found { IfOk result (λ took. IsEntry took.entry × (take took.used bytes.now ≡ entry_text took.entry)) }
    ensures used { IfOk result (λ took. took.used ≡ size_of took.entry) }
    // What is written is read again, whatever follows it.
    ensures again { (e : Entry) (rest : List ℕ) → Begins e bytes.now rest → IsRead e result }
    // Which fault it is, and where.
    ensures fault { IfErr result (IsFault bytes.now) }
{
    let (head, text) = match read_parts(bytes) {
        Ok(found) => found,
        Err(at) => return Err(EntryFault::BadEntry { at }),
    };
    let used = HEAD_BYTES + text.len();
    let text = Vec::from_slice(alloc, text)?;
    let event = Event {
        origin: head.origin,
        text: Blob::of(text),
    };
    Ok(Took {
        entry: Entry {
            conn: head.conn,
            index: head.index,
            unit: head.unit,
            event,
        },
        used,
    })
}
