//! Event bodies.
ghost use Rattle.std.specs.Prelude.{◌≤◌, length, OnOk, IfOk, IfErr, IfSome, IfNone};
ghost use Rattle.hec_body.specs.Limits.{AreWithinLimits};
ghost use Rattle.hec_body.specs.Events.{HasEvent, HasNoEvent, IsEventObject, AreEvents, IsRefused, IsFirstFault};

use crate::limits::{MOST_EVENTS, MOST_TEXT};
use crate::objects::{first_object, is_blank, is_white_space};
use body_faults::BodyFault;
use event_form::Blob;
use std::alloc::Global;

/// Judges an object by itself, as the event of that number: how long it is, whether it has an event, and
/// whether that is blank. `value` is its event's value.
fn judge(text: &[u8], value: Option<&[u8]>, event: u32) -> Result<(), BodyFault>
    requires has { IfSome value (λ v. HasEvent text.now v.now) }
    requires has_none { IfNone value (HasNoEvent text.now) }
    ensures event { OnOk result (IsEventObject text.now) }
    ensures fault { IfErr result (λ fault. IsRefused text.now event fault) }
{
    if text.len() > MOST_TEXT {
        return Err(BodyFault::Format { event });
    }
    let Some(value) = value else {
        return Err(BodyFault::NoEvent { event });
    };
    if is_blank(value) {
        return Err(BodyFault::Blank { event });
    }
    Ok(())
}

/// The event objects of an event body ("Format events for HTTP Event Collector"), as they are spelt, in
/// their order: JSON objects of at most 127 levels and 131,072 bytes, one after another, with white space
/// round them allowed. There is at least one of them and at most 10,000.
///
/// Each object is read once and judged before the next one is looked at, and the first fault decides. `NoData`: the body
/// is white space or nothing. `Format`: no such object begins where this one is due. `NoEvent`: none of
/// its members is spelt `"event"`; escapes aren't read. `Blank`: the first such member's value is `""` or
/// `null`. After 10,000 events `TooMany` stands for a further object of at most 127 levels, and `Format`
/// for anything else than white space. `NoMemory`: no memory was found; it can come in place of any answer.
pub fn event_pieces(alloc: Global, body: &[u8]) -> Result<Vec<Blob>, BodyFault>
    ensures events { IfOk result (λ pieces. AreEvents body.now pieces.items) }
    ensures limits { IfOk result (λ pieces. AreWithinLimits pieces.items) }
    ensures bounded { IfOk result (λ pieces. length pieces.items ≤ length body.now) }
    ensures fault { IfErr result (λ fault. IsFirstFault body.now fault) }
{
    let mut pieces = Vec::new(alloc);
    let mut rest = body;
    while let Some(object) = first_object(rest) {
        if pieces.len() == MOST_EVENTS {
            return Err(BodyFault::TooMany);
        }
        judge(object.text, object.event, pieces.len() as u32)?;
        pieces.push(Blob::of(Vec::from_slice(alloc, object.text)?))?;
        rest = object.rest;
    }
    if !is_white_space(rest) {
        return Err(BodyFault::Format {
            event: pieces.len() as u32,
        });
    }
    if pieces.is_empty() {
        return Err(BodyFault::NoData);
    }
    Ok(pieces)
}
