//! The limits of a frame, and what a window holds.

/// How many digits a transaction number or a length may have, leading zeros counted.
pub const MOST_DIGITS: usize = 9;

/// How many letters a command may have.
pub const MOST_LETTERS: usize = 32;

/// How many bytes of data a frame may have.
pub const MOST_DATA: usize = 131_072;

/// How many bytes a window holds: the longest frame has 131,126.
pub const ROOM: usize = 131_136;

/// How many bytes a window holds at most that gives memory back: what a short read brings.
pub const FEW: usize = 8_192;

/// How many bytes its memory had at most that keeps it then: those, and what the next short read brings.
pub const MOST_KEPT: usize = 16_384;
