//! The reasons of a fault, as a connection and a sender tell them.
use crate::fault::RelpWhy;
use event_form::Why;

impl From<RelpWhy> for Why {
    ghost use Rattle.std.specs.Prelude.{◌≡◌};
    ghost use Rattle.relp_frame.specs.Why.{why_of};

    ghost from_gives = { λ reason why. why ≡ why_of reason };

    fn from(reason: RelpWhy) -> Why {
        match reason {
            RelpWhy::Digits => Why::Digits,
            RelpWhy::Space => Why::Space,
            RelpWhy::Command => Why::Command,
            RelpWhy::TooLong => Why::TooLong,
            RelpWhy::Trailer => Why::Trailer,
        }
    }
}
