//! What is wrong with words that are no command, as errors, each with the text that is printed of it. A crate of its own, so that the
//! messages cost the crate that reads words no proof.
#![tactic(auto)]

mod fault;

pub use fault::WordsFault;
