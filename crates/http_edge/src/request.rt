//! A request, and what its fields say.
ghost use Rattle.std.specs.Prelude.{◌≡◌, ◌||◌, ◌==◌, codes, MatchOption, Some, None};
ghost use Rattle.std.specs.List.{list_any};
ghost use Rattle.std.specs.Str.{bytes_eq};
ghost use Rattle.http_edge.specs.Fields.{closes, field_value, is_close};

use crate::field::{Field, Fields, first_value};
use crate::text::{is_word, lists_word};
use event_form::Blob;

/// A whole request. The minor version is 0 or 1: HTTP/1.0 or HTTP/1.1. The body has at most 1,048,576
/// bytes, those of the chunks joined where it came in chunks.
#[derive(Drop)]
pub struct HttpRequest {
    pub method: Blob,
    pub target: Blob,
    pub minor: u8,
    pub fields: Fields,
    pub body: Blob,
}

/// An item of a stream of requests.
#[derive(Drop)]
pub enum HttpItem {
    /// The head of a request was read that waits for leave to send its body (RFC 9110, section 10.1.1).
    /// The next item is its request, unless the stream ends or has a fault before.
    Continue,
    Request(HttpRequest),
}

// Whether the field is a Connection that lists `close`.
fn is_close(field: &Field) -> bool
    ensures { result ≡ is_close field.now }
{
    is_word(field.name.bytes(), b"connection") && lists_word(field.value.bytes(), b"close")
}

// Whether one of the fields is such.
fn lists_close(fields: &[Field]) -> bool
    ensures { result ≡ list_any is_close fields.now }
{
    fields.iter().any(|field| is_close(field))
}

// Whether the connection ends with the answer to a request of this version and method with these fields.
pub(crate) fn is_last(minor: u8, method: &[u8], fields: &[Field]) -> bool
    ensures { result ≡ (minor == 0 || bytes_eq method.now (codes "HEAD") || list_any is_close fields.now) }
{
    minor == 0 || method == b"HEAD".as_slice() || lists_close(fields)
}

impl HttpRequest {
    /// The value of the first field of this name, ASCII case aside; `None` exactly where no field has the
    /// name. It takes no memory.
    pub fn field(&self, name: &[u8]) -> Option<&[u8]>
        ensures { MatchOption result (field_value name.now self.now.fields ≡ None) (λ value. field_value name.now self.now.fields ≡ Some value.now) }
    {
        first_value(self.fields.as_slice(), name)
    }

    /// Whether the connection ends with the answer to this request (RFC 9112, section 9.3): exactly where
    /// the version is HTTP/1.0, the method is `HEAD`, or a Connection field lists `close`, ASCII case
    /// aside. It takes no memory.
    pub fn closes(&self) -> bool
        ensures { result ≡ closes self.now }
    {
        is_last(self.minor, self.method.bytes(), self.fields.as_slice())
    }
}
