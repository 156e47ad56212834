//! Why a body is not taken.
use std::alloc::{AllocError, AllocFailed};
use thiserror::Error;

/// Why an event body or a raw body isn't taken: the first event at fault, in the order of the body.
/// Events are counted from 0.
#[derive(Clone, Copy, PartialEq, Eq, Debug, Drop, Error)]
pub enum BodyFault {
    /// The body has no event.
    #[error("No data")]
    NoData,
    /// Where this event is due no JSON object of at most 127 levels begins, or the event's text has more
    /// than 131,072 bytes.
    #[error("Invalid data format: event {event}")]
    Format { event: u32 },
    /// This event has no member that is spelt `"event"`.
    #[error("Event field is required: event {event}")]
    NoEvent { event: u32 },
    /// The value of this event's first member `"event"` is `""` or `null`.
    #[error("Event field cannot be blank: event {event}")]
    Blank { event: u32 },
    /// Another event stands after 10,000 ones.
    #[error("Invalid data format: more than 10000 events")]
    TooMany,
    /// No memory was found.
    #[error("no memory")]
    NoMemory,
}

impl From<AllocError> for BodyFault {
    ghost use Rattle.std.specs.Prelude.{◌≡◌};
    ghost use Rattle.body_faults.specs.declared.fault.BodyFault.TheVariants.{NoMemory};

    ghost from_gives = { λ _ fault. fault ≡ NoMemory };

    fn from(_: AllocError) -> BodyFault {
        BodyFault::NoMemory
    }
}

impl<T: Drop> From<AllocFailed<T>> for BodyFault {
    ghost use Rattle.std.specs.Prelude.{◌≡◌};
    ghost use Rattle.body_faults.specs.declared.fault.BodyFault.TheVariants.{NoMemory};

    ghost from_gives = { λ _ fault. fault ≡ NoMemory };

    fn from(_: AllocFailed<T>) -> BodyFault {
        BodyFault::NoMemory
    }
}

/// Why an ack query isn't taken.
#[derive(Clone, Copy, PartialEq, Eq, Debug, Drop, Error)]
pub enum AckFault {
    /// The body isn't an object whose last member `acks` is an array of at most 10,000 whole numbers from 0
    /// to 2^64 - 1.
    #[error("Invalid data format")]
    Format,
    /// No memory was found.
    #[error("no memory")]
    NoMemory,
}

impl From<AllocError> for AckFault {
    ghost use Rattle.std.specs.Prelude.{◌≡◌};
    ghost use Rattle.body_faults.specs.declared.fault.AckFault.TheVariants.{NoMemory};

    ghost from_gives = { λ _ fault. fault ≡ NoMemory };

    fn from(_: AllocError) -> AckFault {
        AckFault::NoMemory
    }
}

impl<T: Drop> From<AllocFailed<T>> for AckFault {
    ghost use Rattle.std.specs.Prelude.{◌≡◌};
    ghost use Rattle.body_faults.specs.declared.fault.AckFault.TheVariants.{NoMemory};

    ghost from_gives = { λ _ fault. fault ≡ NoMemory };

    fn from(_: AllocFailed<T>) -> AckFault {
        AckFault::NoMemory
    }
}

impl From<serde_json::Error> for AckFault {
    ghost use Rattle.std.specs.Prelude.{◌≡◌};
    ghost use Rattle.serde_json.specs.Errors.{IsMemory};
    ghost use Rattle.body_faults.specs.declared.fault.AckFault.TheVariants.{Format, NoMemory};

    ghost from_gives = { λ error fault. (IsMemory error → fault ≡ NoMemory) × (¬ IsMemory error → fault ≡ Format) };

    fn from(error: serde_json::Error) -> AckFault {
        if error.is_memory() {
            AckFault::NoMemory
        } else {
            AckFault::Format
        }
    }
}
