//! Why a reader did not take a piece of its stream.
use std::alloc::AllocError;
use std::fmt::Display;
use thiserror::Error;

/// Why a reader did not take a piece of its stream.
#[derive(PartialEq, Eq, Debug, Drop, Error)]
#[error_bound(F: Display)]
pub enum FeedFault<F> {
    /// The stream breaks a rule of its format. The reader answers the same from then on.
    #[error("{0}")]
    Fault(F),
    /// No memory was found. The reader is as before, and the piece was not added.
    #[error("no memory")]
    NoMemory,
}

impl<F> From<AllocError> for FeedFault<F> {
    ghost use Rattle.std.specs.Prelude.{◌≡◌};
    ghost use Rattle.event_form.specs.declared.feed_fault.FeedFault.TheVariants.{NoMemory};

    ghost from_gives = { λ _ e. e ≡ NoMemory };

    fn from(_: AllocError) -> FeedFault<F> {
        FeedFault::NoMemory
    }
}
