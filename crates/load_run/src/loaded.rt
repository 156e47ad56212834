//! What a load counts.
use event_form::Talk;
use forward_core::Sent;
use std::fmt;
use thiserror::Error;

/// What a load came to, in numbers.
#[derive(Clone, Copy, PartialEq, Eq)]
pub struct Loaded {
    /// How many entries were taken into the spool.
    pub events: u64,
    /// How many bytes the stream has that was replayed.
    pub bytes_in: u64,
    /// How many bytes the replies to it have.
    pub bytes_out: u64,
    /// How many entries the peer of the drain confirmed.
    pub confirmed: u64,
    /// How many entries are left in the spool that aren't known as confirmed, from the first of them to the last entry.
    pub left: u64,
}

/// Why a load came to no numbers.
#[derive(Clone, Copy, PartialEq, Eq, Drop, Error)]
pub enum LoadFault {
    /// The connection by which the stream was replayed ended so.
    #[error("the replay failed")]
    Replayed { talk: Talk },
    /// The session by which the spool was drained ended so.
    #[error("the drain failed")]
    Drained { sent: Sent },
    /// No memory was found.
    #[error("no memory")]
    NoMemory,
}

/// The message too, since an ending has no form for a programmer.
impl fmt::Debug for LoadFault {
    fn fmt<W: fmt::Write>(&self, f: &mut fmt::Formatter<W>) -> fmt::Result {
        fmt::Display::fmt(self, f)
    }
}

impl From<std::alloc::AllocError> for LoadFault {
    ghost use Rattle.std.specs.Prelude.{◌≡◌};
    ghost use Rattle.load_run.specs.declared.loaded.LoadFault.TheVariants.{NoMemory as Starved};

    ghost from_gives = { λ _ fault. fault ≡ Starved };

    fn from(_: std::alloc::AllocError) -> LoadFault {
        LoadFault::NoMemory
    }
}
