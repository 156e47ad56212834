//! A disk over a file or a block device of the system, which it locks. It is thin: it counts the errors of the system,
//! and tells no bytes. That what is written stands there, and what a sync that succeeded makes durable, is trusted; after
//! a call that failed it makes good what was written since the last good sync. Over that lies what is proved of bytes too:
//! [`WholePages`], which holds back the last part of a page where a long write may go on.
#![tactic(auto)]

mod byte_range;
mod claim;
mod counted_file;
mod file;
mod file_id;
mod held_part;
mod home;
mod limits;
mod open_fault;
mod opening;
mod tracked_file;
mod unlocked;
mod unsynced;
mod whole_pages;

pub use byte_range::ByteRange;
pub use file::FileDisk;
pub use home::Home;
pub use limits::is_over_limit;
pub use open_fault::{OpenFault, PairFault, Sharing};
pub use unlocked::Access;
pub use unsynced::Unsynced;
pub use whole_pages::WholePages;
