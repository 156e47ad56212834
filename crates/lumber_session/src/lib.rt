//! What the frames of one Lumberjack connection ask for, as its receiver: which events are staged,
//! when what is staged is stored as one batch, and which sequence number acknowledges it. The
//! frames are those of Elastic's protocol document, version 2; where it leaves open how much is
//! acknowledged at a time, the batch rule is this project's own.
//!
//! The one contract is that rule, said of whole lists of frames: they are cut into batches and a
//! rest, in one way. A core sees one frame at a time and keeps three counts, and its acts make
//! these batches with their acknowledgments, in order.
#![tactic(auto)]

mod ack;
mod act;
mod laws;
mod limits;
mod lumber_core;

pub use ack::ack_for;
pub use act::{LumberAct, LumberActRef};
pub use laws::{acts_make_batches, batch_sizes, one_act, one_cut, some_cut};
pub use limits::{BATCH_BYTES, BATCH_FRAMES};
pub use lumber_core::LumberCore;
