//! Which numbers are known, where they become known out of order: all numbers below a cursor, and a few
//! stretches above it. `KnownNumbers` takes memory once, when it is made. The crate's one contract is that
//! of `KnownNumbers::mark`: stretches are added one after another, as the definition `marked` says.
#![tactic(auto)]

mod apart;
mod joins;
mod known;
mod stretch;

pub use apart::are_apart;
pub use known::KnownNumbers;
pub use stretch::{MOST_STRETCHES, Stretch};
