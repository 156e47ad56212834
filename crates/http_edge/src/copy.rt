//! Parts of what was fed, as bytes of their own.
ghost use Rattle.std.specs.Prelude.{◌≡◌, ◌≤◌, ◌++◌, All, IfOk, OnOk, length, map, take};
ghost use Rattle.std.specs.Prelude.{◌+◌};
ghost use Rattle.std.specs.Vec.{vec_len, vec_capacity};
ghost use Rattle.httparse.specs.Spans.{IsHeaderWithin, IsWithin, header_bytes, span_bytes};
ghost use Rattle.http_edge.specs.Heads.{field_of};

use crate::field::{Field, Fields};
use event_form::Blob;
use httparse::spans::{HeaderSpan, Span};
use std::alloc::{AllocError, Global};

/// At most so many bytes from the front.
pub fn front(buf: &[u8], most: usize) -> &[u8]
    ensures front { result.now ≡ take most buf.now }
    ensures short { length result.now ≤ most }
{
    if buf.len() < most { buf } else { &buf[..most] }
}

/// Appends bytes for which there is room.
pub fn append(bytes: &mut Vec<u8>, piece: &[u8])
    requires { vec_len bytes.old + length piece.now ≤ vec_capacity bytes.old }
    ensures items { bytes.new.items ≡ bytes.old.items ++ piece.now }
    ensures capacity { vec_capacity bytes.old ≤ vec_capacity bytes.new }
{
    let Ok(()) = bytes.extend_from_slice(piece) else {
        unreachable!()
    };
}

/// Makes the bytes those of two lists, joined.
pub fn join(all: &mut Vec<u8>, front: &[u8], back: &[u8]) -> Result<(), AllocError>
    ensures { OnOk result (all.new.items ≡ front.now ++ back.now) }
{
    all.clear();
    all.extend_from_slice(front)?;
    all.extend_from_slice(back)
}

/// The bytes that the span covers.
pub fn copy(alloc: Global, span: Span, buf: &[u8]) -> Result<Blob, AllocError>
    requires { IsWithin (length buf.now) span }
    ensures { IfOk result (λ bytes. bytes ≡ span_bytes buf.now span) }
{
    Ok(Blob::of(Vec::from_slice(alloc, span.of(buf))?))
}

/// The fields that so many of the spans cover.
pub fn copy_fields(
    alloc: Global,
    spans: &[HeaderSpan],
    count: usize,
    buf: &[u8],
) -> Result<Fields, AllocError>
    requires inside { count ≤ length spans.now }
    requires within { All (IsHeaderWithin (length buf.now)) (take count spans.now) }
    ensures { IfOk result (λ fields. fields ≡ map field_of (map (header_bytes buf.now) (take count spans.now))) }
{
    let mut fields = Vec::with_capacity(alloc, count)?;
    for i in 0..count {
        let span = spans[i];
        let name = copy(alloc, span.name, buf)?;
        let value = copy(alloc, span.value, buf)?;
        fields.push(Field { name, value })?;
    }
    Ok(Fields::of(fields))
}
