//! What several commands share: refusals of the layers below and endings of a session as notes, the settings of a session with the
//! receiver that the words name, how many entries are pending, and which of two notes is reported.
//!
//! `specs/` says besides what a device is that was not opened, how much of a text was written, and which counts of faults rose.
#![tactic(auto)]

mod pending;
mod receiver;
mod refused;
mod written;

pub use pending::pending_count;
pub use receiver::outward_of;
pub use refused::{net_note, pend_note, recover_note, sent_note};
pub use written::first_of;
