//! Laws over the definitions of the spool's answers and of a desk with one caller, which the crates that own these don't need: they
//! stand here, so that none of the crates above those is proved again for them.
//!
//! The functions do nothing: each has a law as its contract.
#![tactic(auto)]

mod laws;

pub use laws::{free_slots_are_free, stages_follow, taken_lasts, told_was_own};
