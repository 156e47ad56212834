//! Why a call of a slot was refused.
use edge_disk::DiskFault;
use spool_answers::PendFault;
use std::alloc::AllocError;
use thiserror::Error;

/// Why a group was not added.
#[derive(Clone, Copy, PartialEq, Eq, Debug, Drop, Error)]
pub enum SlotFault {
    /// The group needs `need` bytes and the slot has room for `room`, which is less. No call was made.
    #[error("spool full: {need} needed, {room} free")]
    NoRoom { need: u64, room: u64 },
    /// A call of the disk failed.
    #[error("disk fault")]
    DiskFault,
}

impl From<DiskFault> for SlotFault {
    ghost use Rattle.std.specs.Prelude.{◌≡◌};
    ghost use Rattle.spool_slots.specs.declared.fault.SlotFault.TheVariants.{DiskFault as DiskFailed};

    ghost from_gives = { λ _ e. e ≡ DiskFailed };

    fn from(_: DiskFault) -> SlotFault {
        SlotFault::DiskFault
    }
}

/// Why a slot was not read.
#[derive(Clone, Copy, PartialEq, Eq, Debug, Drop, Error)]
pub enum ScanFault {
    /// At this offset of the device an open gate stands, and after it no group that ends with its closing
    /// gate inside the slot and holds exactly its count of entries, at least one.
    #[error("not a spool at {at}")]
    NotSpool { at: u64 },
    /// A call of the disk failed.
    #[error("disk fault")]
    DiskFault,
    /// No memory was found.
    #[error("no memory")]
    NoMemory,
}

impl From<DiskFault> for ScanFault {
    ghost use Rattle.std.specs.Prelude.{◌≡◌};
    ghost use Rattle.spool_slots.specs.declared.fault.ScanFault.TheVariants.{DiskFault as DiskFailed};

    ghost from_gives = { λ _ e. e ≡ DiskFailed };

    fn from(_: DiskFault) -> ScanFault {
        ScanFault::DiskFault
    }
}

impl From<AllocError> for ScanFault {
    ghost use Rattle.std.specs.Prelude.{◌≡◌};
    ghost use Rattle.spool_slots.specs.declared.fault.ScanFault.TheVariants.{NoMemory};

    ghost from_gives = { λ _ e. e ≡ NoMemory };

    fn from(_: AllocError) -> ScanFault {
        ScanFault::NoMemory
    }
}

impl From<ScanFault> for PendFault {
    ghost use Rattle.std.specs.Prelude.{◌≡◌};
    ghost use Rattle.spool_slots.specs.Fault.{of_scan};

    ghost from_gives = { λ fault pending. pending ≡ of_scan fault };

    fn from(fault: ScanFault) -> PendFault {
        match fault {
            ScanFault::NotSpool { at } => PendFault::NotSpool { at },
            ScanFault::DiskFault => PendFault::DiskFault,
            ScanFault::NoMemory => PendFault::NoMemory,
        }
    }
}
