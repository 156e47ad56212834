//! What the system has set for a connection.
use std::time::Duration;

/// What the system has set for the socket of a link.
#[derive(Clone, Copy, PartialEq, Eq)]
pub struct LinkSettings {
    /// Each write goes out at once, and none is held back until more is written.
    pub is_prompt: bool,
    /// How long a read waits for the peer, or for as long as it likes.
    pub read_wait: Option<Duration>,
    /// How long a write waits for the peer, or for as long as it likes.
    pub write_wait: Option<Duration>,
}
