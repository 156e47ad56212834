//! The desk itself: a spool, and the acknowledgement ids of its run.
//!
//! [`Alone`] is the desk of a program with one thread. Its calls are those of [`desk_access::Access`], made on the spool
//! and on the ids: `Ran` says that they lead from one moment of the desk to another as a journal does, and what the disk
//! leaves meanwhile.
#![tactic(auto)]

mod alone;
mod desk;
mod stretches;

pub use alone::Alone;
pub use desk::Desk;
