//! The limits of a request's events.

/// How many bytes an event's text may have.
pub(crate) const MOST_TEXT: usize = 131_072;

/// How many events a request may have.
pub(crate) const MOST_EVENTS: usize = 10_000;

/// How many ids an ack query may ask for.
pub(crate) const MOST_IDS: usize = 10_000;
