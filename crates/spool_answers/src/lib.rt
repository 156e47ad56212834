//! What the calls of a spool answer, and what they make of its state.
//!
//! A take, a mark or a reading of entries answers one of these values, and `specs` says which in which state of the
//! spool, which state comes after it, and by which stages: of a change that failed at the disk on the way, one of them
//! stands on the device. It knows of a spool what `spool_state` says, and not how memory or a device keeps it, so that
//! callers of a spool can be checked without the code that does this.
#![tactic(auto)]

mod numbered;
mod receipt;

pub use numbered::Numbered;
pub use receipt::Receipt;
pub use spool_faults::{ConfirmFault, PendFault, TakeFault};
