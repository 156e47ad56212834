//! What a sender of events does next.
use crate::blob::Blob;
use crate::talk::Why;

/// What a sender of events does next, or how its session ended. Entries have the numbers under which they
/// were given to it.
#[derive(Drop)]
pub enum Turn {
    /// These bytes are to be written to the peer. They aren't empty.
    Write(Blob),
    /// The entries with numbers below this one are acknowledged.
    Confirmed { upto: u64 },
    /// The entries with numbers from `from` on and below `to` are acknowledged, and an entry before them isn't.
    Also { from: u64, to: u64 },
    /// More entries are to be given, or it is to be said that no more come.
    Need,
    /// More of the peer's bytes are to be fed.
    Wait,
    /// The next turn is to be taken after a pause.
    Pause,
    /// All entries are acknowledged, and all was written.
    Done,
    /// The peer refused the frame or the request of this number with this code.
    Refused { unit: u64, code: u32 },
    /// The peer closes the session.
    PeerClosed,
    /// The peer's bytes break its protocol at this offset, counted from 0.
    PeerFault { at: u64, why: Why },
    /// Asked as often as it may be, the peer never said that the request of this id is acknowledged.
    Unconfirmed { asked: u64 },
}
