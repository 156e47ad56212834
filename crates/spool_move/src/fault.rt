//! Why a run of a move ended before all was moved.
ghost use Rattle.std.specs.Prelude.{◌≡◌};
ghost use Rattle.spool_move.specs.Fault.{of_source, of_target, of_confirm};

use spool_log::{ConfirmFault, PendFault};
use thiserror::Error;

/// Why the pending entries of a spool were not all moved into another.
#[derive(Clone, Copy, PartialEq, Eq, Debug, Drop, Error)]
pub enum MoveFault {
    /// The target has an entry of this tag that isn't the source's entry of that `number`.
    #[error("entry {number} is another")]
    Strange { number: u64 },
    /// An entry needs `need` bytes as a group, and an empty slot of the target has room for `most`, which is less.
    #[error("group too large: {need} needed, {most} at most")]
    TooLarge { need: u64, most: u64 },
    /// Numbers of the target end at 2^63, and with one entry more its end, which is `end`, would pass that.
    #[error("history spent at {end}")]
    Spent { end: u64 },
    /// An entry needs `need` bytes as a group, the target's active slot has room for `room`, which is less, and no slot is free.
    #[error("spool full: {need} needed, {room} free")]
    Full { need: u64, room: u64 },
    /// The register of the source was written as often as it can be. `ordinal` is its ordinal, 2^63.
    #[error("register spent at {ordinal}")]
    Worn { ordinal: u64 },
    /// A device read as no spool. `at` is the offset of the first byte, field, slot or group at fault.
    #[error("not a spool at {at}")]
    NotSpool { at: u64 },
    /// A call of the source's disk failed.
    #[error("disk fault")]
    SourceFault,
    /// A call of the target's disk failed.
    #[error("disk fault")]
    TargetFault,
    /// No memory was found.
    #[error("no memory")]
    NoMemory,
}

impl MoveFault {
    /// The fault of a reading of the source.
    pub(crate) fn of_source(fault: PendFault) -> MoveFault
        ensures { result ≡ of_source fault }
    {
        match fault {
            PendFault::NotSpool { at } => MoveFault::NotSpool { at },
            PendFault::DiskFault => MoveFault::SourceFault,
            PendFault::NoMemory => MoveFault::NoMemory,
        }
    }

    /// The fault of a reading of the target.
    pub(crate) fn of_target(fault: PendFault) -> MoveFault
        ensures { result ≡ of_target fault }
    {
        match fault {
            PendFault::NotSpool { at } => MoveFault::NotSpool { at },
            PendFault::DiskFault => MoveFault::TargetFault,
            PendFault::NoMemory => MoveFault::NoMemory,
        }
    }

    /// The fault of a confirm of the source.
    pub(crate) fn of_confirm(fault: ConfirmFault) -> MoveFault
        ensures { result ≡ of_confirm fault }
    {
        match fault {
            ConfirmFault::Worn { ordinal } => MoveFault::Worn { ordinal },
            ConfirmFault::NotSpool { at } => MoveFault::NotSpool { at },
            ConfirmFault::DiskFault => MoveFault::SourceFault,
            ConfirmFault::NoMemory => MoveFault::NoMemory,
        }
    }
}
