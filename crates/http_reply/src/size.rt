//! How a reply says that its body is framed.
ghost use Rattle.std.specs.Prelude.{◌≡◌, is_some};
ghost use Rattle.http_edge.specs.Fields.{field_value};
ghost use Rattle.http_edge.specs.Steps.{IsSize};
ghost use Rattle.http_reply.specs.Sizes.{has_length, reply_size};

use crate::reply::is_interim;
use http_edge::{Field, Size, body_size, first_value};

// Whether a field has the name.
fn has_field(fields: &[Field], name: &[u8]) -> bool
    ensures { result ≡ is_some (field_value name.now fields.now) }
{
    match first_value(fields, name) {
        Some(_) => true,
        None => false,
    }
}

// Whether a field says how long the body is.
fn has_length(fields: &[Field]) -> bool
    ensures { result ≡ has_length fields.now }
{
    has_field(fields, b"content-length") || has_field(fields, b"transfer-encoding")
}

/// How a reply of this status, minor version and fields says that its body is framed (RFC 9112, section 6.3). An
/// interim reply has none, and each other one must say it.
pub fn reply_size(status: u16, minor: u8, fields: &[Field]) -> Size
    ensures { IsSize result (reply_size status minor fields.now) }
{
    if is_interim(status) {
        Size::Length(0)
    } else if has_length(fields) {
        body_size(minor, fields)
    } else {
        Size::Bad
    }
}
