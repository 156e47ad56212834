//! An item that a window lends.
ghost use Rattle.std.specs.Prelude.{◌≡◌, ◌≤◌, IfOk, length, map, take};
ghost use Rattle.http_edge.specs.Lending.{item_of};

use crate::field::{Field, Fields};
use crate::head::Head;
use crate::request::HttpItem;
use event_form::Blob;
use std::alloc::{AllocError, Global};

/// An item in a window.
#[derive(Clone, Copy)]
pub enum ItemRef<'a> {
    /// As [`HttpItem::Continue`].
    Continue,
    /// A whole request: its head, and its body, that of its chunks joined.
    Request { head: &'a Head, body: &'a [u8] },
}

// An equal blob of its own.
fn copy_blob(alloc: Global, blob: &Blob) -> Result<Blob, AllocError>
    ensures { IfOk result (λ b. b ≡ blob.now) }
{
    Ok(Blob::of(Vec::from_slice(alloc, blob.bytes())?))
}

// Equal fields of their own.
fn copy_fields(alloc: Global, fields: &[Field]) -> Result<Fields, AllocError>
    ensures { IfOk result (λ f. f ≡ fields.now) }
{
    let mut lines = Vec::new(alloc);
    for field in fields {
        let name = copy_blob(alloc, &field.name)?;
        let value = copy_blob(alloc, &field.value)?;
        lines.push(Field { name, value })?;
    }
    Ok(Fields::of(lines))
}

// An equal head of its own.
fn copy_head(alloc: Global, head: &Head) -> Result<Head, AllocError>
    ensures { IfOk result (λ h. h ≡ head.now) }
{
    Ok(Head {
        method: copy_blob(alloc, &head.method)?,
        target: copy_blob(alloc, &head.target)?,
        minor: head.minor,
        fields: copy_fields(alloc, head.fields.as_slice())?,
    })
}

impl ItemRef<'_> {
    /// An equal item of its own.
    pub fn to_item(&self, alloc: Global) -> Result<HttpItem, AllocError>
        ensures { IfOk result (λ i. i ≡ item_of self.now) }
    {
        match self {
            ItemRef::Continue => Ok(HttpItem::Continue),
            ItemRef::Request { head, body } => {
                let head = copy_head(alloc, head)?;
                let body = Vec::from_slice(alloc, body)?;
                Ok(HttpItem::Request(head.with_body(body)))
            }
        }
    }
}
