//! What is done for a frame.
use event_form::{Blob, Event};

/// What is done for a frame. Each text is the canonical spelling of one frame of the receiver, or
/// of two, and is written as it is.
#[derive(Drop)]
pub enum RelpAct {
    /// The event is to be stored. Once it is durable, `stored_reply` of this transaction number is
    /// the answer.
    Store { event: Event, txnr: u32 },
    /// The text is the answer.
    Say(Blob),
    /// The session is over, and the connection ends. The text is the answer to the `close` and the
    /// hint `serverclose`; for a frame that comes after the `close` it is empty, and nothing is
    /// written.
    End(Blob),
}

/// What is done for a frame that a window lends: a [`RelpAct`] whose event has its text in the
/// window, and whose answer isn't spelled yet. It owns no memory. `write_answer` spells the answer.
#[derive(Clone, Copy)]
pub enum RelpActRef<'a> {
    /// The event with this text is to be stored. The answer is for when it is durable.
    Store { text: &'a [u8], txnr: u32 },
    /// The answer has this text as its data.
    Say { text: &'static [u8], txnr: u32 },
    /// The session is over, and the connection ends. The answer is that to the `close`, and the hint
    /// `serverclose`.
    Close { txnr: u32 },
    /// The frame comes after the `close`: the connection ends, and nothing is written.
    Nothing,
}
