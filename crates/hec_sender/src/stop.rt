//! How a session ended by a reply.
ghost use Rattle.std.specs.Prelude.{◌≡◌};
ghost use Rattle.hec_sender.specs.Turns.{ending_of};

use event_form::{Turn, Why};

/// How a session ended by a reply.
#[derive(Clone, Copy)]
pub(crate) enum Stop {
    /// The request with this place in the session, from 0, was refused with this code.
    Refused { unit: u64, code: u32 },
    /// The reply that begins at this offset is none that may come.
    Broken { at: u64 },
    /// This id was asked for as often as it may be, and never confirmed.
    Unconfirmed { asked: u64 },
}

impl Stop {
    /// The turn that says so.
    pub fn turn(self) -> Turn
        ensures { result ≡ ending_of self }
    {
        match self {
            Stop::Refused { unit, code } => Turn::Refused { unit, code },
            Stop::Broken { at } => Turn::PeerFault {
                at,
                why: Why::Reply,
            },
            Stop::Unconfirmed { asked } => Turn::Unconfirmed { asked },
        }
    }
}
