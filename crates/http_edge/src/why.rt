//! The reasons of a fault, as a connection and a sender tell them.
use crate::fault::HttpWhy;
use event_form::Why;

impl From<HttpWhy> for Why {
    ghost use Rattle.std.specs.Prelude.{◌≡◌};
    ghost use Rattle.http_edge.specs.Why.{why_of};

    ghost from_gives = { λ reason why. why ≡ why_of reason };

    fn from(reason: HttpWhy) -> Why {
        match reason {
            HttpWhy::BadHead => Why::BadHead,
            HttpWhy::BadLength => Why::BadLength,
            HttpWhy::TooLong => Why::TooLong,
            HttpWhy::BadChunk => Why::BadChunk,
        }
    }
}
