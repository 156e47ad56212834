//! Why no id was issued.
use std::alloc::AllocError;
use thiserror::Error;

/// Why no id was issued. Nothing is changed then.
#[derive(Clone, Copy, PartialEq, Eq, Debug, Drop, Error)]
pub enum IssueFault {
    /// The last id of the run, whose number is `run`, was issued.
    #[error("ids of run {run} spent")]
    NoMore { run: u32 },
    /// The channel holds `held` ids, 10,000; or it holds none, and `held` channels, 1,000, hold some.
    #[error("id table full: {held} held")]
    Busy { held: u32 },
    /// No memory was found.
    #[error("no memory")]
    NoMemory,
}

impl From<AllocError> for IssueFault {
    ghost use Rattle.std.specs.Prelude.{◌≡◌};
    ghost use Rattle.hec_ids.specs.declared.fault.IssueFault.TheVariants.{NoMemory};

    ghost from_gives = { λ _ fault. fault ≡ NoMemory };

    fn from(_: AllocError) -> IssueFault {
        IssueFault::NoMemory
    }
}
