//! The limits of requests.

/// How many entries a run has at most, and so a request.
pub const WINDOW: usize = 128;

/// How many bytes the body of a request has at most.
pub const MOST_BODY: usize = 1_048_576;
