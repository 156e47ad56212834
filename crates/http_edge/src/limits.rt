//! The limits of a message, and what a window holds.

/// How many fields a head or a trailer may have.
pub const MOST_FIELDS: usize = 64;

/// How many bytes a head or a trailer may have.
pub const MOST_HEAD: usize = 16_384;

/// How many bytes a chunk line may have.
pub const MOST_LINE: usize = 1_024;

/// How many bytes a body may have.
pub const MOST_BODY: usize = 1_048_576;

/// How many bytes a window holds: a body, and a trailer or the next head.
pub const ROOM: usize = 1_064_960;

/// How many bytes a window holds at most that gives memory back: what a short read brings.
pub const FEW: usize = 8_192;

/// How many bytes its memory had at most that keeps it then: those, and what the next short read brings.
pub const MOST_KEPT: usize = 16_384;
