//! What the C library does with memory that is given back.
use std::alloc::Global;

/// As many bytes as a connection of the collector takes for what it reads, the longest block of those that come and go.
const BLOCK: usize = 1_064_960;

/// Has the C library keep what is freed for the next that asks. It gives back to the system what is free at the end of its memory, and
/// fetches it again for the next request or batch, unless a block of such a length was freed before: then it keeps up to twice as much.
/// Where there is no memory for the block, nothing is changed.
pub fn keep_freed(alloc: Global) {
    let _ = Vec::<u8>::with_capacity(alloc, BLOCK);
}
