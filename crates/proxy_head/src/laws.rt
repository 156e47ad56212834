//! What holds of heads alone. These functions do nothing: each has a law as its contract.
ghost use Rattle.proxy_head.specs.Laws.{LooksAtFew, OneReading, StaysRead};

/// Bytes are read in one way: as one head, as too few, or as a fault with one place and one reason.
pub fn one_reading()
    ensures { OneReading }
{}

/// What was read stays so whatever follows, but that more bytes were wanted: so it doesn't depend on how the bytes are cut.
pub fn stays_read()
    ensures { StaysRead }
{}

/// The first 4,111 bytes decide.
pub fn looks_at_few()
    ensures { LooksAtFew }
{}
