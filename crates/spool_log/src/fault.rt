//! Why a spool was not opened.
ghost use Rattle.std.specs.Prelude.{◌≡◌};
ghost use Rattle.spool_log.specs.Fault.{as_recover, of_set};

use crate::PendFault;
use disk_cell::SetFault;
use edge_disk::DiskFault;
use thiserror::Error;

/// Why a device was not opened.
#[derive(Clone, Copy, PartialEq, Eq, Debug, Drop, Error)]
pub enum RecoverFault {
    /// The device read as no spool. `at` is the offset of the first byte, field, slot or group at fault.
    #[error("not a spool at {at}")]
    NotSpool { at: u64 },
    /// The spool was opened for storing as often as it can be: `run` is 2,097,151.
    #[error("run {run} was the last")]
    RunsSpent { run: u32 },
    /// The register was written as often as it can be. `ordinal` is its ordinal, 2^63.
    #[error("register spent at {ordinal}")]
    Worn { ordinal: u64 },
    /// A call of the disk failed.
    #[error("disk fault")]
    DiskFault,
    /// No memory was found.
    #[error("no memory")]
    NoMemory,
}

impl From<PendFault> for RecoverFault {
    ghost from_gives = { λ fault recovered. recovered ≡ as_recover fault };

    fn from(fault: PendFault) -> RecoverFault {
        match fault {
            PendFault::NotSpool { at } => RecoverFault::NotSpool { at },
            PendFault::DiskFault => RecoverFault::DiskFault,
            PendFault::NoMemory => RecoverFault::NoMemory,
        }
    }
}

impl From<DiskFault> for RecoverFault {
    ghost use Rattle.spool_log.specs.declared.fault.RecoverFault.TheVariants.{DiskFault as Failed};

    ghost from_gives = { λ _ fault. fault ≡ Failed };

    fn from(_: DiskFault) -> RecoverFault {
        RecoverFault::DiskFault
    }
}

impl From<SetFault> for RecoverFault {
    ghost from_gives = { λ fault recovered. recovered ≡ of_set fault };

    fn from(fault: SetFault) -> RecoverFault {
        match fault {
            SetFault::Worn { ordinal } => RecoverFault::Worn { ordinal },
            SetFault::DiskFault => RecoverFault::DiskFault,
        }
    }
}
