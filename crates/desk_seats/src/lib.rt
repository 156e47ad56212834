//! A seat at a desk where others sit too: what those who serve need of a desk that many callers share.
//!
//! A caller has a pass. What it knows is a `Known` of `specs`: its number, its own calls, and the journal of the calls of all that it
//! has seen. [`Seat`] is a pass at its desk, as a caller of [`desk_access::Access`]: it says what its calls tell of the pass. Code that
//! is generic over it knows neither the desk nor how its callers take turns there; that is spool_turns'.
//!
//! `Calls` says what a pass knows after a call, and `Ran` after calls one after another: the journal goes on, and of what was added
//! these calls are the pass's own.
#![tactic(auto)]

mod seat;

pub use seat::Seat;
