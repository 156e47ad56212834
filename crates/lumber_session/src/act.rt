//! What a frame asks for.
use event_form::{Event, Origin};

/// What a frame asks for.
#[derive(Drop)]
pub enum LumberAct {
    /// Nothing.
    Nothing,
    /// The event is staged, and the frame's sequence number is kept with it. With `commit` all that
    /// is staged, this event the last, is then stored as one batch and acknowledged with this
    /// number.
    Stage {
        event: Event,
        seq: u32,
        commit: bool,
    },
    /// All that is staged is stored as one batch and acknowledged with the last number kept. The
    /// core counts for the new window already.
    CommitFirst,
}

/// What a frame that a window lends asks for: a [`LumberAct`] whose event has its text in the window. It
/// owns no memory.
#[derive(Clone, Copy)]
pub enum LumberActRef<'a> {
    /// Nothing.
    Nothing,
    /// The event of this origin and text is staged, as [`LumberAct::Stage`] says it.
    Stage {
        origin: Origin,
        text: &'a [u8],
        seq: u32,
        commit: bool,
    },
    /// All that is staged is stored, as [`LumberAct::CommitFirst`] says it.
    CommitFirst,
}
