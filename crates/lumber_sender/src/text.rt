//! What is written.
ghost use Rattle.std.specs.Prelude.{◌≡◌, ◌⊎◌, ℕ, ◌+◌, ◌<◌, ◌≤◌, ◌++◌, length, slice_index_or, All, IfOk, OnOk};
ghost use Rattle.event_form.specs.declared.event.Entry.{Entry};
ghost use Rattle.event_form.specs.Event.{IsEvent};
ghost use Rattle.event_map.proofs.Functions.{json_object_of};
ghost use Rattle.lumber_frame.specs.Spelling.{json_text};
ghost use Rattle.lumber_sender.specs.declared.limits.TheConstants.{WINDOW};
ghost use Rattle.lumber_sender.specs.Windows.{text_before, part_text};

use crate::limits::{TEXT_BYTES, WINDOW};
use event_form::{Blob, Entry};
use event_map::as_json_object;
use lumber_frame::{window_frame, write_json};
use std::alloc::{AllocError, Global};

/// A part of a window: its bytes, and the place of the first entry after it.
#[derive(Drop)]
pub(crate) struct Part {
    pub text: Blob,
    pub upto: usize,
}

/// What stands before the data frame of the entry at this place of a window of this size: before its first one
/// the window's size.
fn text_before(alloc: Global, place: usize, size: usize) -> Result<Vec<u8>, AllocError>
    requires { size ≤ WINDOW }
    ensures { IfOk result (λ head. head.items ≡ text_before place size) }
{
    if place == 0 {
        Vec::from_slice(alloc, &window_frame(size as u32))
    } else {
        Ok(Vec::new(alloc))
    }
}

/// Appends the data frame of the entry at this place of a window.
fn write_data(
    alloc: Global,
    batch: &[Entry],
    place: usize,
    out: &mut Vec<u8>,
) -> Result<(), AllocError>
    requires place { place < length batch.now }
    requires few { length batch.now ≤ WINDOW }
    requires events { All (λ e. IsEvent e.event) batch.now }
    ensures { OnOk result ((e : Entry) × (e ≡ slice_index_or batch.now place e)
        × (out.new.items ≡ out.old.items ++ json_text (place + 1) (json_object_of e.event))) }
{
    let payload = as_json_object(alloc, &batch[place].event)?;
    write_json(place as u32 + 1, payload.bytes(), out)
}

/// The part of a window from the entry at this place on: as many entries as come before its text has
/// `TEXT_BYTES` bytes, and at least one.
pub(crate) fn next_part(alloc: Global, batch: &[Entry], from: usize) -> Result<Part, AllocError>
    requires from { from < length batch.now }
    requires few { length batch.now ≤ WINDOW }
    requires events { All (λ e. IsEvent e.event) batch.now }
    ensures part { IfOk result (λ part. part_text batch.now part.upto ≡ part_text batch.now from ++ part.text) }
    ensures some { IfOk result (λ part. from < part.upto) }
    ensures bytes { IfOk result (λ part. 0 < length part.text) }
    ensures within { IfOk result (λ part. part.upto ≤ length batch.now) }
    ensures short { IfOk result (λ part. (k : ℕ) → from < k → k < part.upto
        → length (part_text batch.now k) < length (part_text batch.now from) + 65536) }
    ensures full { IfOk result (λ part. (part.upto ≡ length batch.now) ⊎ (65536 ≤ length part.text)) }
{
    let mut out = text_before(alloc, from, batch.len())?;
    write_data(alloc, batch, from, &mut out)?;
    let mut upto = from + 1;
    while upto < batch.len() && out.len() < TEXT_BYTES {
        write_data(alloc, batch, upto, &mut out)?;
        upto += 1;
    }
    Ok(Part {
        text: Blob::of(out),
        upto,
    })
}
