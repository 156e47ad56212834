//! Places of bytes, and what may be wrong with them.

use thiserror::Error;

/// The bytes from `start` up to `end`, as offsets from the first of all bytes; the byte at `end` is
/// the first after it.
#[derive(Clone, Copy, PartialEq, Eq)]
pub struct Span {
    pub start: usize,
    pub end: usize,
}

/// Why no value was found. Places are offsets from the first of all bytes.
#[derive(Clone, Copy, PartialEq, Eq, Debug, Drop, Error)]
pub enum JsonFault {
    /// The bytes end before a value does: more bytes can make one.
    #[error("JSON ends too early")]
    Cut,
    /// No value begins like this, whatever follows. `at` is the first byte after which none is
    /// possible, or, where that byte leaves a character of several bytes unfinished, that
    /// character's first byte.
    #[error("no JSON at {at}")]
    NotJson { at: usize },
    /// `at` is the bracket that opens level 128.
    #[error("JSON too deep at {at}")]
    TooDeep { at: usize },
}
