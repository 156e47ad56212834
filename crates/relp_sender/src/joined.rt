//! The frames of entries in one text.
ghost use Rattle.std.specs.Prelude.{◌≡◌, ◌⊎◌, ◌+◌, ◌<◌, ◌≤◌, ◌^◌, ◌++◌, [], false, length, take, drop, All, IfOk, IsTrue};
ghost use Rattle.event_form.specs.Event.{IsEvent};
ghost use Rattle.relp_sender.specs.Texts.{event_text, frames_text, IsTooLongWith};

use crate::text::txnr_of;
use event_form::{Blob, Entry, Event};
use event_map::as_text;
use relp_frame::write_parts;
use std::alloc::{AllocError, Global};
use std::collections::VecDeque;

/// How many bytes a text of several frames has at most.
const TEXT_BYTES: usize = 65_536;

/// The frames of entries in one text: its bytes, and of how many entries they are.
#[derive(Drop)]
pub(crate) struct Joined {
    pub text: Blob,
    pub count: usize,
}

/// Appends the frame of the event at this place, unless a text that has frames would then have more than `TEXT_BYTES` bytes,
/// and answers whether it did.
#[tactic(auto, unfolding(crate::specs::Texts::event_text))]
fn join(alloc: Global, place: u64, event: &Event, out: &mut Vec<u8>) -> Result<bool, AllocError>
    requires place { place ≤ 2 ^ 63 }
    requires event { IsEvent event.now }
    ensures joined { IfOk result (λ joined. IsTrue joined → out.new.items ≡ out.old.items ++ event_text place event.now) }
    ensures some { IfOk result (λ joined. IsTrue joined → 0 < length out.new.items) }
    ensures bound { IfOk result (λ joined. IsTrue joined → (out.old.items ≡ []) ⊎ (length out.new.items ≤ 65536)) }
    ensures left { IfOk result (λ joined. joined ≡ false → out.new.items ≡ out.old.items) }
    ensures long { IfOk result (λ joined. joined ≡ false
        → (0 < length out.old.items) × (65536 < length out.old.items + length (event_text place event.now))) }
{
    let before = out.len();
    let body = as_text(alloc, event)?;
    write_parts(txnr_of(place), b"syslog", body.bytes(), out)?;
    if before > 0 && out.len() > TEXT_BYTES {
        out.truncate(before);
        return Ok(false);
    }
    Ok(true)
}

/// The frames of these entries, of which the first stands at the place, at most so many: as many as one text may have, and at
/// least one. A text of more than one has at most `TEXT_BYTES` bytes.
pub(crate) fn joined_text(
    alloc: Global,
    place: u64,
    entries: &VecDeque<Entry>,
    most: usize,
) -> Result<Joined, AllocError>
    requires place { place + most ≤ 2 ^ 63 }
    requires some { 0 < most }
    requires few { most ≤ length entries.now.items }
    requires events { All (λ e. IsEvent e.event) entries.now.items }
    ensures text { IfOk result (λ joined. joined.text ≡ frames_text place (take joined.count entries.now.items)) }
    ensures bytes { IfOk result (λ joined. 0 < length joined.text) }
    ensures some { IfOk result (λ joined. 0 < joined.count) }
    ensures within { IfOk result (λ joined. joined.count ≤ most) }
    ensures bound { IfOk result (λ joined. (joined.count ≡ 1) ⊎ (length joined.text ≤ 65536)) }
    ensures all { IfOk result (λ joined. (joined.count ≡ most)
        ⊎ IsTooLongWith joined.text (place + joined.count) (drop joined.count entries.now.items)) }
{
    let mut out = Vec::new(alloc);
    for count in 0..most {
        let Some(entry) = entries.get(count) else {
            unreachable!()
        };
        let joined = join(alloc, place + count as u64, &entry.event, &mut out)?;
        if !joined {
            return Ok(Joined {
                text: Blob::of(out),
                count,
            });
        }
    }
    Ok(Joined {
        text: Blob::of(out),
        count: most,
    })
}
