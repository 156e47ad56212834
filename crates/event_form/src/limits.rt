//! The limits of events, and the length of an entry's head.

/// How many bytes an event's text may have.
pub const MOST_TEXT: usize = 131_072;

/// How many pairs the text of a `LumberData` event may have.
pub const MOST_PAIRS: usize = 1_024;

/// How many bytes stand before the event's text in an entry's text.
pub const HEAD_BYTES: usize = 29;
