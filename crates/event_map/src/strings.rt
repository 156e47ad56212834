//! Texts as JSON strings (RFC 8259, section 7).
ghost use Rattle.std.specs.Prelude.{◌≡◌, IfOk};
ghost use Rattle.event_map.specs.Strings.{string_of, event_string};

use serde_json::Value;
use std::alloc::{AllocError, Global};

/// The JSON string of the text.
pub(crate) fn json_string(alloc: Global, text: &[u8]) -> Result<Vec<u8>, AllocError>
    ensures { IfOk result (λ string. string.items ≡ string_of text.now) }
{
    let text = String::from_utf8_lossy(alloc, text)?;
    Value::String(text).to_vec(alloc)
}

/// The JSON string of the text, and `"-"` for the empty text.
pub(crate) fn filled_string(alloc: Global, text: &[u8]) -> Result<Vec<u8>, AllocError>
    ensures { IfOk result (λ string. string.items ≡ event_string text.now) }
{
    if text.is_empty() {
        Vec::from_slice(alloc, b"\"-\"")
    } else {
        json_string(alloc, text)
    }
}
