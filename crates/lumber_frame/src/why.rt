//! The reasons of a fault, as a connection and a sender tell them.
use crate::fault::LumberWhy;
use event_form::Why;

impl From<LumberWhy> for Why {
    ghost use Rattle.std.specs.Prelude.{◌≡◌};
    ghost use Rattle.lumber_frame.specs.Why.{why_of};

    ghost from_gives = { λ reason why. why ≡ why_of reason };

    fn from(reason: LumberWhy) -> Why {
        match reason {
            LumberWhy::Version => Why::Version,
            LumberWhy::Kind => Why::Kind,
            LumberWhy::Compressed => Why::Compressed,
            LumberWhy::AckFromWriter => Why::AckFromWriter,
            LumberWhy::TooLong => Why::TooLong,
            LumberWhy::TooMany => Why::TooMany,
        }
    }
}
