//! When enough is staged for a batch.

/// How many events are.
pub const BATCH_FRAMES: u32 = 256;

/// How many bytes of events' texts are.
pub const BATCH_BYTES: usize = 262_144;
