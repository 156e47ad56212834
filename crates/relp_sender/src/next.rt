//! The next text.
use crate::joined::Joined;
use event_form::Blob;
use std::collections::VecDeque;

/// The next text, and what it takes to keep that it was written.
#[derive(Drop)]
pub(crate) enum Next {
    /// Nothing can be written.
    Nothing,
    /// The frame that opens the session, and room for the places of the frames that aren't answered.
    Open(Blob, VecDeque<u64>),
    /// The frames of the next entries.
    Frames(Joined),
    /// The frame that closes the session.
    Close(Blob),
}
