//! A disk in memory, which can fail, stop and crash.
//!
//! [`MemDisk`] tells its bytes. Its calls fail as its making says, and where it keeps a record it tells each image that a
//! crash may leave, of which [`MemDisk::crash`] makes one by choice.
#![tactic(auto)]

mod crash;
mod memory;
mod plan;
mod store;

pub use crash::Crash;
pub use memory::MemDisk;
