//! Why a call of a spool did nothing, or not all: the faults of a take, of a reading of entries and of a mark, each with the message that
//! is printed of it. A crate of its own, so that those who only name these faults wait for no proof about spools.
#![tactic(auto)]

mod fault;

pub use fault::{ConfirmFault, PendFault, TakeFault};
