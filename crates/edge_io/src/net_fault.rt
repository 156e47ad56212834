//! Why a place was not bound or dialed.
ghost use Rattle.std.specs.Prelude.{◌≡◌};
ghost use Rattle.edge_io.specs.declared.net_fault.NetFault.TheVariants.{NoMemory};

use std::alloc::AllocError;
use thiserror::Error;

/// Why a place was not bound or dialed.
#[derive(Clone, Copy, PartialEq, Eq, Debug, Drop, Error)]
pub enum NetFault {
    /// The bind, the monitor or the dial failed. The net's own count of faults says how often that was.
    #[error("net fault")]
    Fault,
    /// No memory was found. That is no fault of the net, and no count has risen.
    #[error("no memory")]
    NoMemory,
}

impl From<AllocError> for NetFault {
    ghost from_gives = { λ _ fault. fault ≡ NoMemory };

    fn from(_: AllocError) -> NetFault {
        NetFault::NoMemory
    }
}
