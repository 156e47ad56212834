//! In which way a receiver fails.
use crate::Trouble;
use std::fmt;

/// In which way a receiver fails, as a session with it shows.
#[derive(Clone, Copy, PartialEq, Eq)]
pub enum Illness {
    /// No address of its host took the connection.
    Unreached,
    /// A read or a write failed.
    Lost { trouble: Trouble },
    /// It ended the connection while an answer was due.
    Closed,
    /// The same after a reply of HTTP, though the connection was to be used on.
    ClosedAfterReply,
    /// It answered with this code, which says that it refuses what was sent.
    Refuses { code: u16 },
}

/// Words that follow the receiver's place.
impl fmt::Display for Illness {
    fn fmt<W: fmt::Write>(&self, f: &mut fmt::Formatter<W>) -> fmt::Result {
        match *self {
            Illness::Unreached => f.write_str("not reached"),
            Illness::Lost { trouble } => write!(f, "{trouble}"),
            Illness::Closed => f.write_str("it closed the connection while an answer was due"),
            Illness::ClosedAfterReply => {
                f.write_str("it closed the connection after a reply, and has to keep it open")
            }
            Illness::Refuses { code } => write!(f, "it refuses what is sent with {code}"),
        }
    }
}
