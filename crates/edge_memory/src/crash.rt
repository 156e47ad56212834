//! What a crash leaves of a disk in memory.
ghost use Rattle.std.specs.Prelude.{◌≡◌};
ghost use Rattle.edge_memory.specs.Held.{is_written};
ghost use Rattle.edge_memory.specs.Crashing.{IsFilled};

/// What a crash does to the ranges that were written since the last sync that succeeded.
#[derive(Clone, Copy, PartialEq, Eq)]
pub enum Crash {
    /// They hold the bytes of before.
    Synced,
    /// They hold what a read gives.
    Written,
    /// They hold this byte everywhere.
    Filled(u8),
}

/// Fills the ranges, each an offset and a number of bytes.
pub(crate) fn fill(bytes: &mut [u8], ranges: &[(usize, usize)], byte: u8)
    ensures { IsFilled byte ranges.now bytes.old bytes.new }
{
    for place in 0..bytes.len() {
        if is_written(ranges, place) {
            bytes[place] = byte;
        }
    }
}

// Whether one of the ranges has this place.
fn is_written(ranges: &[(usize, usize)], place: usize) -> bool
    ensures { result ≡ is_written ranges.now place }
{
    for range in ranges {
        if range.0 <= place && place - range.0 < range.1 {
            return true;
        }
    }
    false
}
