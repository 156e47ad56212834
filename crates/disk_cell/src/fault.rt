//! Why a register was not read or not written.
use edge_disk::DiskFault;
use spool_answers::PendFault;
use std::alloc::AllocError;
use thiserror::Error;

/// Why no register was read.
#[derive(Clone, Copy, PartialEq, Eq, Debug, Drop, Error)]
pub enum LoadFault {
    /// The cells break a rule of their layout. `at` is the offset on the device, in bytes, of the cell at
    /// fault: that of the first cell where none counts, else that of the cell that counts.
    #[error("not a spool at {at}")]
    NotSpool { at: u64 },
    /// There is no memory for the stretches of numbers.
    #[error("no memory")]
    NoMemory,
    /// A call on the disk failed.
    #[error("disk fault")]
    DiskFault,
}

/// Why a register was not written.
#[derive(Clone, Copy, PartialEq, Eq, Debug, Drop, Error)]
pub enum SetFault {
    /// The register was written as often as it can be. `ordinal` is its ordinal, 2^63.
    #[error("register spent at {ordinal}")]
    Worn { ordinal: u64 },
    /// A call on the disk failed.
    #[error("disk fault")]
    DiskFault,
}

impl From<DiskFault> for LoadFault {
    ghost use Rattle.std.specs.Prelude.{◌≡◌};
    ghost use Rattle.disk_cell.specs.declared.fault.LoadFault.TheVariants.{DiskFault as Failed};

    ghost from_gives = { λ _ e. e ≡ Failed };

    fn from(_: DiskFault) -> LoadFault {
        LoadFault::DiskFault
    }
}

impl From<AllocError> for LoadFault {
    ghost use Rattle.std.specs.Prelude.{◌≡◌};
    ghost use Rattle.disk_cell.specs.declared.fault.LoadFault.TheVariants.{NoMemory};

    ghost from_gives = { λ _ e. e ≡ NoMemory };

    fn from(_: AllocError) -> LoadFault {
        LoadFault::NoMemory
    }
}

impl From<DiskFault> for SetFault {
    ghost use Rattle.std.specs.Prelude.{◌≡◌};
    ghost use Rattle.disk_cell.specs.declared.fault.SetFault.TheVariants.{DiskFault as Failed};

    ghost from_gives = { λ _ e. e ≡ Failed };

    fn from(_: DiskFault) -> SetFault {
        SetFault::DiskFault
    }
}

impl From<LoadFault> for PendFault {
    ghost use Rattle.std.specs.Prelude.{◌≡◌};
    ghost use Rattle.disk_cell.specs.Fault.{of_load};

    ghost from_gives = { λ fault pending. pending ≡ of_load fault };

    fn from(fault: LoadFault) -> PendFault {
        match fault {
            LoadFault::NotSpool { at } => PendFault::NotSpool { at },
            LoadFault::DiskFault => PendFault::DiskFault,
            LoadFault::NoMemory => PendFault::NoMemory,
        }
    }
}
