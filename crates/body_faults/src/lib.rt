//! Why a body of a request to the collector is not taken, as errors with the words of the replies. A crate of its own, so that the messages
//! cost the crate that reads bodies no proof.
#![tactic(auto)]

mod fault;

pub use fault::{AckFault, BodyFault};
