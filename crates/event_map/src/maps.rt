//! The three maps, by the origin of the event.
ghost use Rattle.std.specs.Prelude.{◌<◌, ◌^◌, length, IfOk};
ghost use Rattle.event_form.specs.Event.{IsEvent};
ghost use Rattle.event_map.specs.Maps.{IsText, IsJsonObject, IsHecObject};

use crate::objects::{unchanged, with_event, with_message};
use crate::pairs::object_of_pairs;
use crate::strings::filled_string;
use event_form::{Blob, Event, Origin};
use json_span::is_object;
use std::alloc::{AllocError, Global};

/// The event as a text, as the body of a RELP `syslog` frame carries it: the event's own text as it stands,
/// and of a `LumberData` event the object that its pairs make, `{"key":"value","key":"value"}`, in their
/// order, each of those with one key too. The event keeps its limits. The error says that no memory was
/// found.
pub fn as_text(alloc: Global, event: &Event) -> Result<Blob, AllocError>
    requires { IsEvent event.now }
    ensures { IfOk result (λ bytes. IsText event.now bytes) }
{
    let text = event.text.bytes();
    match event.origin {
        Origin::Relp | Origin::HecRaw | Origin::LumberJson | Origin::HecEvent => {
            unchanged(alloc, text)
        }
        Origin::LumberData => object_of_pairs(alloc, text),
    }
}

// The event as a JSON object, by its origin.
fn json_object(alloc: Global, event: &Event) -> Result<Blob, AllocError>
    requires { IsEvent event.now }
    ensures { IfOk result (λ bytes. IsJsonObject event.now bytes) }
{
    let text = event.text.bytes();
    match event.origin {
        Origin::Relp | Origin::HecRaw => with_message(alloc, text),
        Origin::LumberJson if is_object(text) => unchanged(alloc, text),
        Origin::LumberJson => with_message(alloc, text),
        Origin::LumberData => object_of_pairs(alloc, text),
        Origin::HecEvent => unchanged(alloc, text),
    }
}

/// The event as a JSON object (RFC 8259, section 4), as the payload of a Lumberjack `J` frame: the text of a
/// `HecEvent`, and that of a `LumberJson` event if it is one object, as they stand; pairs as `as_text` has
/// them; each other text as the string in `{"message":"text"}`. The event keeps its limits. The error says
/// that no memory was found.
pub fn as_json_object(alloc: Global, event: &Event) -> Result<Blob, AllocError>
    requires { IsEvent event.now }
    ensures is { IfOk result (λ bytes. IsJsonObject event.now bytes) }
    ensures short { IfOk result (λ bytes. length bytes < 2 ^ 32) }
{
    json_object(alloc, event)
}

/// The event as an event object of Splunk's HTTP Event Collector ("Format events for HTTP Event Collector"):
/// the text of a `HecEvent` as it stands, and each other event as `{"event":value}`. The value is the text
/// of a `LumberJson` event if it is one object, the object that pairs make, or else the text as a string,
/// and `"-"` for the empty text, since the collector refuses an empty event. The event keeps its limits. The
/// error says that no memory was found.
pub fn as_hec_object(alloc: Global, event: &Event) -> Result<Blob, AllocError>
    requires { IsEvent event.now }
    ensures { IfOk result (λ bytes. IsHecObject event.now bytes) }
{
    let text = event.text.bytes();
    match event.origin {
        Origin::Relp | Origin::HecRaw => with_event(alloc, &filled_string(alloc, text)?),
        Origin::LumberJson if is_object(text) => with_event(alloc, text),
        Origin::LumberJson => with_event(alloc, &filled_string(alloc, text)?),
        Origin::LumberData => with_event(alloc, object_of_pairs(alloc, text)?.bytes()),
        Origin::HecEvent => unchanged(alloc, text),
    }
}
