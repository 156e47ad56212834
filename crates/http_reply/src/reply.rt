//! A reply.
ghost use Rattle.std.specs.Prelude.{◌≡◌};
ghost use Rattle.http_reply.specs.Sizes.{is_interim};

use event_form::Blob;

/// A whole reply.
#[derive(Drop)]
pub struct HttpReply {
    /// The status code (RFC 9112, section 4), 0 to 999, and none of 100 to 199.
    pub status: u16,
    /// The body, of at most 1,048,576 bytes: those of the chunks joined where it came in chunks.
    pub body: Blob,
    /// The offset of the reply's first byte in the stream, counted from 0.
    pub at: u64,
}

/// Whether the status is that of an interim reply, which another one follows (RFC 9110, section 15.2).
pub fn is_interim(status: u16) -> bool
    ensures { result ≡ is_interim status }
{
    status >= 100 && status < 200
}
