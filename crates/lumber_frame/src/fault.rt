//! Where a stream breaks the layout, and why.

use thiserror::Error;

/// Which rule a field breaks.
#[derive(Clone, Copy, PartialEq, Eq, Debug, Drop, Error)]
pub enum LumberWhy {
    /// The version isn't the byte `2`.
    #[error("version")]
    Version,
    /// No frame of this type comes on this side.
    #[error("type")]
    Kind,
    /// The type `C`: compressed frames aren't read.
    #[error("compressed")]
    Compressed,
    /// The type `A` from a writer.
    #[error("ack from writer")]
    AckFromWriter,
    /// A payload length is above 131,072, or by a key or value length the pair bytes are.
    #[error("too long")]
    TooLong,
    /// A window size is above 65,536, or a pair count above 1,024.
    #[error("too many")]
    TooMany,
}

/// A fault: the offset in the stream of the first byte of the first whole field that breaks a rule,
/// counted from 0, and which rule.
#[derive(Clone, Copy, PartialEq, Eq, Debug, Drop, Error)]
#[error("fault at {at}: {why}")]
pub struct LumberFault {
    pub at: u64,
    pub why: LumberWhy,
}
