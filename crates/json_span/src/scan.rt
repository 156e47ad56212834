//! The first value at a place of some bytes.
ghost use Rattle.std.specs.Prelude.{◌≡◌, ◌≤◌, ℕ, length, true, false, Some, ◌↔◌, Result, Ok, Err, IfOk, IfSome};
ghost use Rattle.json_span.specs.Strings.{IsString};
ghost use Rattle.json_span.specs.Machine.{accepts, token_in, is_tail, IsLastLead};
ghost use Rattle.json_span.specs.Reading.{state_of, HasTop, brackets};
ghost use Rattle.json_span.specs.Spans.{Stretch, IsWithin, IsFirst, IsCut, IsNotJson, IsTooDeep};
ghost use Rattle.json_span.specs.declared.span.JsonFault.TheVariants.{Cut, NotJson, TooDeep};

use crate::bytes::{after_space, stands_at};
use crate::characters::after_plain;
use crate::reading::{Place, Reading, Turn, after_byte, may_end, stays};
use crate::span::{JsonFault, Span};
use crate::token::Token;

/// The last of the three places before `fault` whose byte can be the first of several that are one
/// character.
fn last_lead(bytes: &[u8], fault: usize) -> usize
    requires { fault ≤ length bytes.now }
    ensures { IsLastLead bytes.now fault result }
{
    if fault >= 1 && bytes[fault - 1] >= 192 {
        fault - 1
    } else if fault >= 2 && bytes[fault - 2] >= 192 {
        fault - 2
    } else {
        fault.saturating_sub(3)
    }
}

/// Where the fault of the byte at `fault` is found: at the character that it breaks off, if there is one.
fn fault_place(reading: Reading, bytes: &[u8], fault: usize) -> usize
    requires top { HasTop reading.place (brackets reading.depth reading.bits) }
    requires within { fault ≤ length bytes.now }
    ensures tail { is_tail (token_in (state_of reading)) ≡ true → IsLastLead bytes.now fault result }
    ensures other { is_tail (token_in (state_of reading)) ≡ false → result ≡ fault }
{
    match reading.place {
        Place::In(Token::Tail { .. }) => last_lead(bytes, fault),
        Place::InName(Token::Tail { .. }) => last_lead(bytes, fault),
        _ => fault,
    }
}

/// The end of the longest value so far: `place`, if the bytes before it may be one, and else `end`.
fn longest(next: Reading, end: Option<usize>, place: usize) -> Option<usize>
    ensures yes { accepts (state_of next) ≡ true → result ≡ Some place }
    ensures no { accepts (state_of next) ≡ false → result ≡ end }
{
    if may_end(next) { Some(place) } else { end }
}

/// The value that `value_within` finds, byte by byte.
fn scanned_value(bytes: &[u8], at: usize, levels: u8) -> Result<Span, JsonFault>
    requires order { at ≤ length bytes.now }
    requires depth { levels ≤ 127 }
    ensures ok { (s : Span) → (result ≡ Ok s) ↔ IsFirst levels bytes.now at s }
    ensures within { IfOk result (λ s. IsWithin at s (length bytes.now)) }
    ensures cut { (result ≡ Err Cut) ↔ IsCut levels bytes.now at }
    ensures not_json { (place : ℕ) → (result ≡ Err (NotJson place)) ↔ IsNotJson levels bytes.now at place }
    ensures too_deep { (place : ℕ) → (result ≡ Err (TooDeep place)) ↔ IsTooDeep levels bytes.now at place }
{
    let start = after_space(bytes, at);
    let mut reading = Reading {
        place: Place::Value,
        left: levels,
        depth: 0,
        bits: 0,
    };
    let mut end = None;
    let mut i = start;
    while i < bytes.len() {
        let byte = bytes[i];
        if stays(reading, byte) {
            i = after_plain(bytes, i + 1);
            continue;
        }
        match after_byte(reading, byte) {
            Turn::Go(next) => {
                end = longest(next, end, i + 1);
                reading = next;
                i += 1;
            }
            Turn::Bad => {
                return match end {
                    Some(end) => Ok(Span { start, end }),
                    None => Err(JsonFault::NotJson {
                        at: fault_place(reading, bytes, i),
                    }),
                };
            }
            Turn::Deep => return Err(JsonFault::TooDeep { at: i }),
        }
    }
    match end {
        Some(end) => Ok(Span { start, end }),
        None => Err(JsonFault::Cut),
    }
}

/// The end of the string that begins at a place, where each of its bytes stands for itself.
fn plain_string_end(bytes: &[u8], at: usize) -> Option<usize>
    requires { at ≤ length bytes.now }
    ensures { IfSome result (λ end. Stretch IsString bytes.now at end) }
{
    if !stands_at(bytes, at, b'"') {
        return None;
    }
    let end = after_plain(bytes, at + 1);
    if stands_at(bytes, end, b'"') {
        Some(end + 1)
    } else {
        None
    }
}

/// The longest JSON value of at most so many levels that begins at `at` after white space: as `first_value`, which
/// takes 127 for `levels`. Most strings are seen to be ones without a look at each byte.
pub(crate) fn value_within(bytes: &[u8], at: usize, levels: u8) -> Result<Span, JsonFault>
    requires order { at ≤ length bytes.now }
    requires depth { levels ≤ 127 }
    ensures ok { (s : Span) → (result ≡ Ok s) ↔ IsFirst levels bytes.now at s }
    ensures within { IfOk result (λ s. IsWithin at s (length bytes.now)) }
    ensures cut { (result ≡ Err Cut) ↔ IsCut levels bytes.now at }
    ensures not_json { (place : ℕ) → (result ≡ Err (NotJson place)) ↔ IsNotJson levels bytes.now at place }
    ensures too_deep { (place : ℕ) → (result ≡ Err (TooDeep place)) ↔ IsTooDeep levels bytes.now at place }
{
    match plain_string_end(bytes, at) {
        Some(end) => Ok(Span { start: at, end }),
        None => scanned_value(bytes, at, levels),
    }
}

/// The longest JSON value (RFC 8259, section 2) that begins at `at` after white space: `at` is an
/// offset of the bytes, at most their length, and so are the places of the span and of the errors. A
/// number takes as many bytes as it can, and what stands after a value is no matter.
///
/// `Cut` where the bytes end within the white space or the value, `NotJson` and `TooDeep` where no value
/// of at most 127 levels is possible, whichever comes first. It takes no memory.
pub fn first_value(bytes: &[u8], at: usize) -> Result<Span, JsonFault>
    requires { at ≤ length bytes.now }
    ensures ok { (s : Span) → (result ≡ Ok s) ↔ IsFirst 127 bytes.now at s }
    ensures within { IfOk result (λ s. IsWithin at s (length bytes.now)) }
    ensures cut { (result ≡ Err Cut) ↔ IsCut 127 bytes.now at }
    ensures not_json { (place : ℕ) → (result ≡ Err (NotJson place)) ↔ IsNotJson 127 bytes.now at place }
    ensures too_deep { (place : ℕ) → (result ≡ Err (TooDeep place)) ↔ IsTooDeep 127 bytes.now at place }
{
    value_within(bytes, at, 127)
}
