//! Where a stream breaks the rules of requests, and why.

use thiserror::Error;

/// Which rule a request breaks.
#[derive(Clone, Copy, PartialEq, Eq, Debug, Drop, Error)]
pub enum HttpWhy {
    /// The first 16,384 bytes begin no head of at most 64 fields (RFC 9112, sections 2 to 5).
    #[error("bad head")]
    BadHead,
    /// A Content-Length that isn't one or more digits alone, two of them, one beside a Transfer-Encoding, a
    /// Transfer-Encoding other than `chunked`, two of them, or one in HTTP/1.0 (RFC 9112, section 6).
    #[error("bad length")]
    BadLength,
    /// The first 16,384 bytes begin a head and hold none, or the body is longer than 1,048,576 bytes.
    #[error("too long")]
    TooLong,
    /// What should be a chunk line isn't one within 1,024 bytes, no CR LF stands after a chunk's data, or
    /// what should be the trailer isn't a list of at most 64 fields within 16,384 bytes (RFC 9112, section
    /// 7.1).
    #[error("bad chunk")]
    BadChunk,
}

/// A fault: its offset in the stream, counted from 0, and which rule is broken. The offset is that of the
/// request's first byte; of a bad chunk it is that of the chunk line's first byte, of the byte after the
/// chunk's data, or of the trailer's first byte.
#[derive(Clone, Copy, PartialEq, Eq, Debug, Drop, Error)]
#[error("fault at {at}: {why}")]
pub struct HttpFault {
    pub at: u64,
    pub why: HttpWhy,
}
