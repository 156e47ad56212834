//! What a frame of the peer does.
ghost use Rattle.std.specs.Prelude.{◌<◌, ◌^◌, ◌↔◌, All, IsTrue};
ghost use Rattle.relp_sender.specs.Due.{IsAcknowledgment};
ghost use Rattle.relp_sender.specs.Hearing.{IsHeard, IsByCode};

use crate::reply::{code_of, is_hint, is_reply};
use crate::stage::{Stage, Stop};
use crate::window::first_of;
use relp_frame::Frame;
use std::collections::VecDeque;

/// What a frame of the peer does.
#[derive(Clone, Copy, PartialEq, Eq)]
pub(crate) enum Heard {
    /// Nothing: it answers no frame that is unanswered.
    Ignored,
    /// It opens the session.
    Opens,
    /// It acknowledges the frame at this index of those that are not answered.
    Acknowledged(usize),
    /// It ends the session.
    Stopped(Stop),
}

impl Heard {
    /// Whether it acknowledges a frame.
    pub(crate) fn is_acknowledgment(self) -> bool
        ensures { IsTrue result ↔ IsAcknowledgment self }
    {
        matches!(self, Heard::Acknowledged(_))
    }
}

/// What a reply does that answers an unanswered frame: what it is to do with code 200, else the end of the
/// session.
fn by_code(at: u64, frame: &Frame, success: Heard) -> Heard
    ensures { IsByCode at frame.now success result }
{
    match code_of(frame.body.bytes()) {
        Some(200) => success,
        Some(code) => Heard::Stopped(Stop::Refused {
            unit: u64::from(frame.txnr),
            code,
        }),
        None => Heard::Stopped(Stop::BadReply { at }),
    }
}

/// What the frame does, which begins at this offset of the peer's bytes.
pub(crate) fn hear(stage: Stage, unanswered: &VecDeque<u64>, at: u64, frame: &Frame) -> Heard
    requires { All (λ place. place < 2 ^ 63) unanswered.now.items }
    ensures { IsHeard stage unanswered.now.items at frame.now result }
{
    if is_hint(frame.command.bytes()) {
        return Heard::Stopped(Stop::Hint);
    }
    if !is_reply(frame.command.bytes()) {
        return Heard::Stopped(Stop::BadReply { at });
    }
    match stage {
        Stage::Opening if frame.txnr == 1 => by_code(at, frame, Heard::Opens),
        Stage::Open => match first_of(unanswered, frame.txnr) {
            Some(index) => by_code(at, frame, Heard::Acknowledged(index)),
            None => Heard::Ignored,
        },
        Stage::Fresh | Stage::Opening | Stage::Closed => Heard::Ignored,
    }
}
