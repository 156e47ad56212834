//! How far a session is, and why the peer ended it.

/// How far a session is.
#[derive(Clone, Copy, PartialEq, Eq)]
pub enum Stage {
    /// Nothing was written.
    Fresh,
    /// The frame that opens it was written, and isn't answered.
    Opening,
    /// It is open.
    Open,
    /// The frame that closes it was written.
    Closed,
}

/// Why the peer ended a session.
#[derive(Clone, Copy, PartialEq, Eq)]
pub enum Stop {
    /// It hinted that it closes the session.
    Hint,
    /// It answered the frame of this transaction number with this code.
    Refused { unit: u64, code: u32 },
    /// It sent a frame that may not come, which begins at this offset.
    BadReply { at: u64 },
}
