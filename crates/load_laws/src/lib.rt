//! That a load in memory always comes to its numbers, as a law over what [`load_run::load`] says: its stream has no fault and ends
//! with a frame, each event fits its spool, and its peer confirms all. Most of `proofs/` says so of each protocol's stream and peer.
//!
//! The function does nothing: it has the law as its contract.
#![tactic(auto)]

mod laws;

pub use laws::load_comes_to_its_numbers;
