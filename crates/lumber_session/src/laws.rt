//! What holds of the batch rule alone. These functions do nothing: each has a law as its contract.
ghost use Rattle.lumber_session.specs.Acts.{ActsMakeBatches, OneAct};
ghost use Rattle.lumber_session.specs.Batches.{BatchSizes, OneCut, SomeCut};

/// A list of frames is cut into batches in one way.
pub fn one_cut()
    ensures { OneCut }
{}

/// Any list of frames is cut in some way.
pub fn some_cut()
    ensures { SomeCut }
{}

/// A batch has 1 to `BATCH_FRAMES` events. What is staged after the last batch has fewer, with
/// fewer than `BATCH_BYTES` bytes of text.
pub fn batch_sizes()
    ensures { BatchSizes }
{}

/// For any frame after any others there is exactly one act.
pub fn one_act()
    ensures { OneAct }
{}

/// The acts for the frames of a connection, in order, make the batches that the frames are cut
/// into, each with its acknowledgment, and leave the rest staged.
pub fn acts_make_batches()
    ensures { ActsMakeBatches }
{}
