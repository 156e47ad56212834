//! The limits of windows and of texts.

/// How many entries a window has at most.
pub const WINDOW: usize = 128;

/// Before each of its data frames but the first a text has fewer bytes than this, so that a window of long entries is written
/// in several.
pub(crate) const TEXT_BYTES: usize = 65_536;
