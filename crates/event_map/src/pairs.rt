//! The pairs of a text as one JSON object.
ghost use Rattle.std.specs.Prelude.{◌≡◌, ◌≤◌, ◌++◌, length, IfOk, OnOk};
ghost use Rattle.event_form.specs.declared.limits.TheConstants.{MOST_TEXT};
ghost use Rattle.event_form.specs.Event.{ArePairs};
ghost use Rattle.event_map.specs.Objects.{member_of, pairs_object};
ghost use Rattle.event_map.specs.Maps.{OfPairs};

use crate::strings::json_string;
use event_form::{Blob, first_pair};
use std::alloc::{AllocError, Global};

/// Appends the pair as a member, `"key":"value"`.
fn write_member(
    alloc: Global,
    key: &[u8],
    value: &[u8],
    object: &mut Vec<u8>,
) -> Result<(), AllocError>
    ensures { OnOk result (object.new.items ≡ object.old.items ++ member_of (key.now, value.now)) }
{
    object.extend_from_slice(&json_string(alloc, key)?)?;
    object.push(b':')?;
    object.extend_from_slice(&json_string(alloc, value)?)?;
    Ok(())
}

/// The pairs as one object, in their order.
pub(crate) fn object_of_pairs(alloc: Global, text: &[u8]) -> Result<Blob, AllocError>
    requires short { length text.now ≤ MOST_TEXT }
    requires pairs { ArePairs text.now }
    ensures { IfOk result (λ object. OfPairs pairs_object text.now object) }
{
    let mut object = Vec::from_slice(alloc, b"{")?;
    let mut rest = text;
    while let Some((key, value, behind)) = first_pair(rest) {
        write_member(alloc, key, value, &mut object)?;
        if !behind.is_empty() {
            object.push(b',')?;
        }
        rest = behind;
    }
    object.push(b'}')?;
    Ok(Blob::of(object))
}
