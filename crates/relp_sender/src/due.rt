//! What is due.

/// What is due.
#[derive(Clone, Copy, PartialEq, Eq)]
pub(crate) enum Due {
    /// Nothing: the peer ended the session.
    Stopped,
    /// To tell how many of the first entries are acknowledged.
    Confirm,
    /// To tell of an entry after those.
    Tell,
    /// To write the next text.
    Send,
    /// To ask for more entries.
    Ask,
    /// Nothing: all was written, and no more comes.
    End,
    /// To hear a frame of the peer.
    Hear,
}
