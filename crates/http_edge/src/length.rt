//! How a head says that its body is framed.
ghost use Rattle.std.specs.Prelude.{◌≡◌, [], ◌∷◌, codes, length, min, nat_lt, true};
ghost use Rattle.std.specs.List.{list_all};
ghost use Rattle.std.specs.Char.{is_ascii_digit};
ghost use Rattle.std.specs.Str.Parse.{digits_value};
ghost use Rattle.http_edge.specs.Fields.{field_value, values_of};
ghost use Rattle.http_edge.specs.Lengths.{BodySize, asks, body_size, has_body, is_continue, is_number, size_by};
ghost use Rattle.http_edge.specs.Steps.{IsSize};

use crate::field::{Field, first_value};
use crate::limits::MOST_BODY;
use crate::text::is_word;

/// How a body is framed.
#[derive(Clone, Copy)]
pub enum Size {
    /// By a length of at most 1,048,576 bytes.
    Length(usize),
    Chunked,
    /// By a greater length.
    TooLong,
    /// Against the rules.
    Bad,
}

// The number that decimal digits write, or 1,048,577 where it is greater.
fn capped_value(digits: &[u8]) -> usize
    requires { list_all is_ascii_digit digits.now ≡ true }
    ensures { result ≡ min 1048577 (digits_value 10 digits.now) }
{
    let mut value = 0;
    for digit in digits {
        value = (value * 10 + (*digit - b'0') as usize).min(MOST_BODY + 1);
    }
    value
}

// Whether each byte is a digit.
fn all_digits(value: &[u8]) -> bool
    ensures { result ≡ list_all is_ascii_digit value.now }
{
    value.iter().all(|byte| byte.is_ascii_digit())
}

// Whether the value is one or more digits alone.
fn is_number(value: &[u8]) -> bool
    ensures { result ≡ is_number value.now }
{
    !value.is_empty() && all_digits(value)
}

// What the value of a Content-Length says.
fn length_size(value: &[u8]) -> Size
    ensures { IsSize result (size_by 1 (value.now ∷ []) []) }
{
    if !is_number(value) {
        return Size::Bad;
    }
    let length = capped_value(value);
    if length > MOST_BODY {
        Size::TooLong
    } else {
        Size::Length(length)
    }
}

// What the value of a Transfer-Encoding says.
fn coding_size(minor: u8, value: &[u8]) -> Size
    ensures { IsSize result (size_by minor [] (value.now ∷ [])) }
{
    if minor == 1 && is_word(value, b"chunked") {
        Size::Chunked
    } else {
        Size::Bad
    }
}

// Whether more than one field has the name.
fn is_repeated(fields: &[Field], name: &[u8]) -> bool
    ensures { result ≡ nat_lt 1 (length (values_of name.now fields.now)) }
{
    let mut count = 0_usize;
    for field in fields {
        if is_word(field.name.bytes(), name) {
            count += 1;
        }
    }
    count > 1
}

/// How a head of these fields says that its body is framed (RFC 9112, section 6).
pub fn body_size(minor: u8, fields: &[Field]) -> Size
    ensures { IsSize result (body_size minor fields.now) }
{
    if is_repeated(fields, b"content-length") || is_repeated(fields, b"transfer-encoding") {
        return Size::Bad;
    }
    let length = first_value(fields, b"content-length");
    let coding = first_value(fields, b"transfer-encoding");
    match (length, coding) {
        (None, None) => Size::Length(0),
        (Some(value), None) => length_size(value),
        (None, Some(value)) => coding_size(minor, value),
        (Some(_), Some(_)) => Size::Bad,
    }
}

// Whether a body of more than 0 bytes may come.
fn has_body(size: Size) -> bool
    ensures { (z : BodySize) → IsSize size z → result ≡ has_body z }
{
    match size {
        Size::Length(length) => length > 0,
        Size::Chunked => true,
        Size::TooLong | Size::Bad => false,
    }
}

// Whether the first field Expect waits for leave to send the body.
fn expects_continue(fields: &[Field]) -> bool
    ensures { result ≡ is_continue (field_value (codes "expect") fields.now) }
{
    match first_value(fields, b"expect") {
        Some(value) => is_word(value, b"100-continue"),
        None => false,
    }
}

/// Whether the item Continue is given of a head of these fields, whose body is framed so.
pub fn asks(minor: u8, fields: &[Field], size: Size) -> bool
    requires { IsSize size (body_size minor fields.now) }
    ensures { result ≡ asks minor fields.now }
{
    minor == 1 && expects_continue(fields) && has_body(size)
}
