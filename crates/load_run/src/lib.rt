//! A self-test in memory. A number decides a stream of events. It is replayed into a spool in memory, as a sender's
//! connection, and then the spool is drained by the same protocol to a peer in memory that confirms all. What is counted on
//! the way, and a line that tells it, are the same at each run.
#![tactic(auto)]

mod catching;
mod disk;
mod draining;
mod feeding;
mod generator;
mod line;
mod loaded;
mod loading;
mod peer;
mod replaying;
mod resting;
mod stream;

pub use line::load_line;
pub use loaded::{LoadFault, Loaded};
pub use loading::load;
