//! The object that some bytes begin with, and its event.
ghost use Rattle.std.specs.Prelude.{◌≡◌, ℕ, ◌≤◌, ◌↔◌, List, length, IsTrue, IfSome, IfNone, option_map, slice_range};
ghost use Rattle.std.specs.List.{list_all};
ghost use Rattle.json_span.specs.Json.{is_space};
ghost use Rattle.hec_body.specs.Events.{BeginsObject, HasEvent, HasNoEvent, IsBlank};

use json_span::{Span, named_value};

/// Whether the bytes are white space alone (RFC 8259, section 2), or none at all.
pub(crate) fn is_white_space(bytes: &[u8]) -> bool
    ensures { result ≡ list_all is_space bytes.now }
{
    bytes.iter().all(|&byte| byte == b' ' || byte == b'\t' || byte == b'\n' || byte == b'\r')
}

/// The object that some bytes begin with, white space before it allowed.
#[derive(Clone, Copy)]
pub(crate) struct FirstObject<'a> {
    /// Its text.
    pub(crate) text: &'a [u8],
    /// The value of its first member that is spelt `"event"`, if it has one.
    pub(crate) event: Option<&'a [u8]>,
    /// What is after it.
    pub(crate) rest: &'a [u8],
}

/// The bytes of a span, if there is one.
fn part(bytes: &[u8], span: Option<Span>) -> Option<&[u8]>
    requires { IfSome span (λ s. (s.start ≤ s.end) × (s.end ≤ length bytes.now)) }
    ensures { option_map (λ text. text.now) result ≡ option_map (λ s. slice_range bytes.now s.start s.end) span }
{
    match span {
        Some(span) => Some(&bytes[span.start..span.end]),
        None => None,
    }
}

/// The object that the bytes begin with, read once.
pub(crate) fn first_object(bytes: &[u8]) -> Option<FirstObject<'_>>
    ensures object { IfSome result (λ object. BeginsObject bytes.now object.text.now object.rest.now) }
    ensures event { IfSome result (λ object. IfSome object.event (λ value. HasEvent object.text.now value.now)) }
    ensures no_event { IfSome result (λ object. IfNone object.event (HasNoEvent object.text.now)) }
    ensures none { IfNone result ((text rest : List ℕ) → BeginsObject bytes.now text rest → ⊥) }
{
    let found = named_value(bytes, 0, b"\"event\"")?;
    let Span { start, end } = found.object;
    Some(FirstObject {
        text: &bytes[start..end],
        event: part(bytes, found.value),
        rest: &bytes[end..],
    })
}

/// Whether an event's value is `""` or `null`.
pub(crate) fn is_blank(value: &[u8]) -> bool
    ensures { IsTrue result ↔ IsBlank value.now }
{
    value == b"\"\"".as_slice() || value == b"null".as_slice()
}
