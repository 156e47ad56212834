//! Why no further check is made.
use crate::code::HecCode;
use std::alloc::AllocError;

/// Why no further check is made.
#[derive(Clone, Copy, PartialEq, Eq)]
pub enum Stop {
    /// The request is answered by this code.
    Answer(HecCode),
    /// No memory was found.
    OutOfMemory,
}

impl From<HecCode> for Stop {
    ghost use Rattle.std.specs.Prelude.{◌≡◌};
    ghost use Rattle.hec_session.specs.declared.stop.Stop.TheVariants.{Answer};

    ghost from_gives = { λ code stop. stop ≡ Answer code };

    fn from(code: HecCode) -> Stop {
        Stop::Answer(code)
    }
}

impl From<AllocError> for Stop {
    ghost use Rattle.std.specs.Prelude.{◌≡◌};
    ghost use Rattle.hec_session.specs.declared.stop.Stop.TheVariants.{OutOfMemory};

    ghost from_gives = { λ _ stop. stop ≡ OutOfMemory };

    fn from(_: AllocError) -> Stop {
        Stop::OutOfMemory
    }
}
