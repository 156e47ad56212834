//! Where bytes are no head, and why.

use thiserror::Error;

/// Why bytes are no head.
#[derive(Clone, Copy, PartialEq, Eq, Debug, Drop, Error)]
pub enum HeadWhy {
    /// They begin neither with `PROXY` and a space nor with the signature of version 2.
    #[error("neither PROXY nor the signature of version 2")]
    Signature,
    /// The 13th byte is neither that of version 2 and LOCAL nor that of version 2 and PROXY.
    #[error("no version 2 with LOCAL or PROXY")]
    Command,
    /// The 14th byte is no family and protocol that the specification names.
    #[error("unknown family")]
    Family,
    /// A line has no CR and LF among its first 107 bytes, or a block has more than 4,095 bytes.
    #[error("too long")]
    TooLong,
    /// A block is shorter than the addresses of its family.
    #[error("shorter than its addresses")]
    Short,
    /// The first word of a line after `PROXY` is none of `TCP4`, `TCP6` and `UNKNOWN`.
    #[error("unknown protocol")]
    Protocol,
    /// The source of a line is no address of its family.
    #[error("no source address")]
    Source,
    /// The destination of a line is no address of its family.
    #[error("no destination address")]
    Destination,
    /// The source's port is no number up to 65535 without leading zeros.
    #[error("no source port")]
    SourcePort,
    /// The destination's port, which ends the line, is no such number.
    #[error("no destination port")]
    DestinationPort,
}

/// Bytes that are no head.
#[derive(Clone, Copy, PartialEq, Eq, Debug, Drop, Error)]
#[error("byte {at}: {why}")]
pub struct HeadFault {
    /// The offset of the first byte with which the bytes begin no line and no block, counted from 0; or of the first word of a line that
    /// is none of those that are due.
    pub at: usize,
    /// The reason.
    pub why: HeadWhy,
}
