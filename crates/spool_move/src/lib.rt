//! The pending entries of one spool are moved into another, by runs that may be stopped at any moment and begun again.
//!
//! An entry of the source becomes one of the target with a connection number that only a move gives, its own number as its index, and
//! the same event. The source's number is given up only once the target has the entry durably. So in whatever a crash leaves of both
//! devices each entry is pending in one of them, and never twice in one; a run begun again finds by connection and index what the
//! target has already.
#![tactic(auto)]

mod entry;
mod fault;
mod laws;
mod moving;
mod presence;
mod walking;

pub use entry::connection;
pub use fault::MoveFault;
pub use laws::runs_lose_nothing;
pub use moving::move_pending;
pub use walking::take_one;
