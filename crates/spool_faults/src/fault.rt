//! Why a call of a spool did nothing, or not all.
ghost use Rattle.std.specs.Prelude.{◌≡◌};
ghost use Rattle.spool_faults.specs.Fault.{as_take, as_confirm};

use edge_disk::DiskFault;
use std::alloc::AllocError;
use thiserror::Error;

/// Why a group of entries was not taken. After all but `DiskFault` the spool has what it had.
#[derive(Clone, Copy, PartialEq, Eq, Debug, Drop, Error)]
pub enum TakeFault {
    /// The group needs `need` bytes, and an empty slot has room for `most`, which is less.
    #[error("group too large: {need} needed, {most} at most")]
    TooLarge { need: u64, most: u64 },
    /// Numbers end at 2^63, and with this group the end, which is `end`, would pass that.
    #[error("history spent at {end}")]
    Spent { end: u64 },
    /// The group needs `need` bytes, the active slot has room for `room`, which is less, and no slot is free.
    #[error("spool full: {need} needed, {room} free")]
    Full { need: u64, room: u64 },
    /// The device read as no spool. `at` is the offset of the first byte, field, slot or group at fault.
    #[error("not a spool at {at}")]
    NotSpool { at: u64 },
    /// No memory was found to read the device again.
    #[error("no memory")]
    NoMemory,
    /// A call of the disk failed. Whether the group was stored is found out by the next call.
    #[error("disk fault")]
    DiskFault,
}

/// Why entries were not read, or the device not read again.
#[derive(Clone, Copy, PartialEq, Eq, Debug, Drop, Error)]
pub enum PendFault {
    /// The device read as no spool. `at` is the offset of the first byte, field, slot or group at fault.
    #[error("not a spool at {at}")]
    NotSpool { at: u64 },
    /// A call of the disk failed.
    #[error("disk fault")]
    DiskFault,
    /// No memory was found.
    #[error("no memory")]
    NoMemory,
}

/// Why numbers were not made known as confirmed.
#[derive(Clone, Copy, PartialEq, Eq, Debug, Drop, Error)]
pub enum ConfirmFault {
    /// The register was written as often as it can be. `ordinal` is its ordinal, 2^63.
    #[error("register spent at {ordinal}")]
    Worn { ordinal: u64 },
    /// The device read as no spool. `at` is the offset of the first byte, field, slot or group at fault.
    #[error("not a spool at {at}")]
    NotSpool { at: u64 },
    /// A call of the disk failed. Whether the numbers are known is found out by the next call.
    #[error("disk fault")]
    DiskFault,
    /// No memory was found to read the device again.
    #[error("no memory")]
    NoMemory,
}

impl From<PendFault> for TakeFault {
    ghost from_gives = { λ fault taken. taken ≡ as_take fault };

    fn from(fault: PendFault) -> TakeFault {
        match fault {
            PendFault::NotSpool { at } => TakeFault::NotSpool { at },
            PendFault::DiskFault => TakeFault::DiskFault,
            PendFault::NoMemory => TakeFault::NoMemory,
        }
    }
}

impl From<PendFault> for ConfirmFault {
    ghost from_gives = { λ fault confirmed. confirmed ≡ as_confirm fault };

    fn from(fault: PendFault) -> ConfirmFault {
        match fault {
            PendFault::NotSpool { at } => ConfirmFault::NotSpool { at },
            PendFault::DiskFault => ConfirmFault::DiskFault,
            PendFault::NoMemory => ConfirmFault::NoMemory,
        }
    }
}

impl From<DiskFault> for PendFault {
    ghost use Rattle.spool_faults.specs.declared.fault.PendFault.TheVariants.{DiskFault as Failed};

    ghost from_gives = { λ _ fault. fault ≡ Failed };

    fn from(_: DiskFault) -> PendFault {
        PendFault::DiskFault
    }
}

impl From<DiskFault> for TakeFault {
    ghost use Rattle.spool_faults.specs.declared.fault.TakeFault.TheVariants.{DiskFault as Failed};

    ghost from_gives = { λ _ fault. fault ≡ Failed };

    fn from(_: DiskFault) -> TakeFault {
        TakeFault::DiskFault
    }
}

impl From<AllocError> for PendFault {
    ghost use Rattle.spool_faults.specs.declared.fault.PendFault.TheVariants.{NoMemory};

    ghost from_gives = { λ _ fault. fault ≡ NoMemory };

    fn from(_: AllocError) -> PendFault {
        PendFault::NoMemory
    }
}
