//! What holds a forwarder up.
use crate::Proto;

/// The entry that was pending first when a session with a receiver failed, and that holds up all entries after it.
#[derive(Clone, Copy, Debug, PartialEq, Eq)]
pub struct HeldUp {
    /// Its number.
    pub number: u64,
    /// By which protocol it was sent.
    pub proto: Proto,
    /// How many bytes its text has by that protocol, where memory was found to make it.
    pub len: Option<u64>,
    /// The code with which the receiver refused what was sent, where it did.
    pub code: Option<u32>,
}
