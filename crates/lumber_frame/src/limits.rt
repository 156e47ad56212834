//! The limits of frames and of a window. How long a text may be, and how many pairs it may have, are
//! limits of events.

/// How many data frames a window of Lumberjack's may announce.
pub const MOST_FRAMES: u32 = 65_536;

/// How many bytes a `LumberWindow` holds, whole frames included. The longest frame has 131,082: a text
/// of 131,072 bytes, and ten before it.
pub const ROOM: usize = 131_140;

/// How many bytes a window holds at most that gives memory back: what a short read brings.
pub const FEW: usize = 8_192;

/// How many bytes its memory had at most that keeps it then: those, and what the next short read brings.
pub const MOST_KEPT: usize = 16_384;
