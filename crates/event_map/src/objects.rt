//! JSON objects of one member (RFC 8259, section 4).
ghost use Rattle.std.specs.Prelude.{◌≡◌, IfOk};
ghost use Rattle.event_map.specs.Objects.{message_object, event_object};

use crate::strings::json_string;
use event_form::Blob;
use std::alloc::{AllocError, Global};

/// The bytes as they stand.
pub(crate) fn unchanged(alloc: Global, text: &[u8]) -> Result<Blob, AllocError>
    ensures { IfOk result (λ bytes. bytes ≡ text.now) }
{
    Ok(Blob::of(Vec::from_slice(alloc, text)?))
}

/// The object whose `message` is the text.
pub(crate) fn with_message(alloc: Global, text: &[u8]) -> Result<Blob, AllocError>
    ensures { IfOk result (λ object. object ≡ message_object text.now) }
{
    let mut object = Vec::from_slice(alloc, b"{\"message\":")?;
    object.extend_from_slice(&json_string(alloc, text)?)?;
    object.push(b'}')?;
    Ok(Blob::of(object))
}

/// The object whose `event` is the JSON value of those bytes.
pub(crate) fn with_event(alloc: Global, value: &[u8]) -> Result<Blob, AllocError>
    ensures { IfOk result (λ object. object ≡ event_object value.now) }
{
    let mut object = Vec::from_slice(alloc, b"{\"event\":")?;
    object.extend_from_slice(value)?;
    object.push(b'}')?;
    Ok(Blob::of(object))
}
