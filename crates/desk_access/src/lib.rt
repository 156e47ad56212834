//! The desk: the spool and the acknowledgement ids as their callers see them, and the calls that a caller
//! makes there.
//!
//! A call with its answer is a `Call` of `specs`, and the calls of all callers, one after another, are a
//! journal. `Goes` says which journals lead from one state of the desk to another; `Stood` what a crash
//! leaves meanwhile. Code that takes and confirms entries is generic over [`Access`]: its contract says
//! which calls it made, as `ran` from the value at its start to the value at its end. The desk of a program
//! with one thread is the crate spool_desk's, and that of many is spool_turns'.
#![tactic(auto)]

mod access;
mod division;
mod front;
mod laws;
mod standing;

pub use access::Access;
pub use division::Division;
pub use front::Front;
pub use laws::{
    journal_is_legal, journal_lasts, journal_leads_to_one_state, stood_was, told_was_taken,
};
pub use standing::Standing;
