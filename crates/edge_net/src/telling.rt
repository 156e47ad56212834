//! What somebody who asks over HTTP is answered.
use std::alloc::{AllocError, Global};

/// An answer of HTTP.
#[derive(Clone, Copy)]
pub(crate) struct Reply<'a> {
    /// Its code and what that says, as `200 OK`.
    pub(crate) status: &'static str,
    /// The type of its body.
    pub(crate) kind: &'static str,
    /// Fields of its head, each with its line's end, beside those that each answer has.
    pub(crate) fields: &'static str,
    /// Its body.
    pub(crate) body: &'a str,
    /// The body is left out, as it was asked for.
    pub(crate) is_head: bool,
}

impl<'a> Reply<'a> {
    /// An answer of text, with no other fields.
    pub(crate) fn plain(status: &'static str, body: &'a str, is_head: bool) -> Reply<'a> {
        Reply {
            status,
            kind: "text/plain; charset=utf-8",
            fields: "",
            body,
            is_head,
        }
    }

    /// Its bytes.
    pub(crate) fn text(&self, alloc: Global) -> Result<String, AllocError> {
        let (status, kind, fields) = (self.status, self.kind, self.fields);
        let len = self.body.len();
        let body = if self.is_head { "" } else { self.body };
        format!(in alloc;
            "HTTP/1.1 {status}\r\nContent-Type: {kind}\r\nContent-Length: {len}\r\nConnection: close\r\n{fields}\r\n{body}"
        )
    }
}
