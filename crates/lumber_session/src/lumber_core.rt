//! The core of a connection.
ghost use Rattle.std.specs.Prelude.{◌≡◌, ◌≤◌, List, [], ◌∷◌, ◌++◌, length, false, true};
ghost use Rattle.event_form.specs.declared.limits.TheConstants.{MOST_TEXT};
ghost use Rattle.lumber_frame.specs.declared.frame.LumberFrame.{LumberFrame};
ghost use Rattle.lumber_frame.specs.declared.side.Side.TheVariants.{Receiver};
ghost use Rattle.lumber_frame.specs.Spelling.{IsFrameFor};
ghost use Rattle.lumber_session.specs.Acts.{StagesEvent, Tells, commits};
ghost use Rattle.lumber_session.specs.Counting.{Counted, IsBehind, Opened, emptied, unused};
ghost use Rattle.lumber_frame.specs.Lent.{frame_lent};
ghost use Rattle.lumber_session.specs.Lent.{act_lent};
ghost use Rattle.lumber_session.specs.declared.act.LumberAct.TheVariants.{Stage};

use crate::act::{LumberAct, LumberActRef};
use crate::limits::{BATCH_BYTES, BATCH_FRAMES};
use event_form::{Event, Origin};
use lumber_frame::{LumberFrame, LumberRef};
use std::marker::Model;

/// The receiver's side of a Lumberjack connection: it says of each frame what it asks for.
///
/// Contracts see how many data frames are to come in the window, how many are staged, how many
/// bytes their texts have, and whether a batch is due, which is to be stored before the next frame.
#[derive(Drop)]
pub struct LumberCore {
    left: u32,
    frames: u32,
    bytes: usize,
    due: bool,
}

impl Model for LumberCore {
    ghost use Rattle.lumber_session.specs.Counting.{Core, Keeps};

    ghost Value = { Core };

    ghost view = { λ c. record { left = c.left; frames = c.frames; bytes = c.bytes; due = c.due } };

    ghost invariant = { λ c. Keeps (record { left = c.left; frames = c.frames; bytes = c.bytes; due = c.due }) };
}

impl LumberCore {
    /// A core before the first frame. It takes no memory.
    pub fn new() -> LumberCore
        ensures unused { result ≡ unused }
        ensures behind { IsBehind [] result }
    {
        LumberCore {
            left: 0,
            frames: 0,
            bytes: 0,
            due: false,
        }
    }

    /// What the next frame asks for. The frame is one that a receiver reads, within the limits that
    /// `write_frame` has; and no batch is due: after `CommitFirst` and a `Stage` with `commit` the
    /// caller stores the batch and calls `committed` before the next frame. It takes no memory.
    pub fn step(&mut self, frame: LumberFrame) -> LumberAct
        requires frame { IsFrameFor Receiver frame }
        requires ready { self.old.due ≡ false }
        ensures act { (frames : List LumberFrame) → IsBehind frames self.old → Tells frames frame result }
        ensures behind { (frames : List LumberFrame) → IsBehind frames self.old → IsBehind (frames ++ frame ∷ []) self.new }
        ensures due { self.new.due ≡ commits result }
        ensures event { StagesEvent result }
    {
        match frame {
            LumberFrame::Window { size } => {
                if self.begin_window(size) {
                    LumberAct::CommitFirst
                } else {
                    LumberAct::Nothing
                }
            }
            LumberFrame::Pairs { seq, text } => {
                let origin = Origin::LumberData;
                self.stage(Event { origin, text }, seq)
            }
            LumberFrame::Json { seq, text } => {
                let origin = Origin::LumberJson;
                self.stage(Event { origin, text }, seq)
            }
            LumberFrame::Ack { .. } => LumberAct::Nothing,
        }
    }

    /// What the next frame asks for, which a window lends: the same as `step` says, under the same
    /// conditions, with its text left where it is. It takes no memory.
    pub fn step_lent<'a>(&mut self, lent: LumberRef<'a>) -> LumberActRef<'a>
        requires frame { IsFrameFor Receiver (frame_lent lent) }
        requires ready { self.old.due ≡ false }
        ensures act { (frames : List LumberFrame) → IsBehind frames self.old → Tells frames (frame_lent lent.entry) (act_lent result) }
        ensures behind { (frames : List LumberFrame) → IsBehind frames self.old → IsBehind (frames ++ frame_lent lent.entry ∷ []) self.new }
        ensures due { self.new.due ≡ commits (act_lent result) }
        ensures event { StagesEvent (act_lent result) }
    {
        match lent {
            LumberRef::Window { size } => {
                if self.begin_window(size) {
                    LumberActRef::CommitFirst
                } else {
                    LumberActRef::Nothing
                }
            }
            LumberRef::Pairs { seq, text } => self.stage_lent(Origin::LumberData, text, seq),
            LumberRef::Json { seq, text } => self.stage_lent(Origin::LumberJson, text, seq),
        }
    }

    /// The batch that was due is stored: nothing is staged. It takes no memory.
    pub fn committed(&mut self)
        ensures emptied { self.new ≡ emptied self.old }
        ensures behind { (frames : List LumberFrame) → self.old.due ≡ true → IsBehind frames self.old → IsBehind frames self.new }
    {
        self.frames = 0;
        self.bytes = 0;
        self.due = false;
    }

    /// Begins a window, where its size is above 0, and says whether what is staged is stored first.
    fn begin_window(&mut self, size: u32) -> bool
        requires { self.old.due ≡ false }
        ensures { Opened size self.old result self.new }
    {
        if size == 0 {
            return false;
        }
        self.left = size;
        self.due = self.frames > 0;
        self.due
    }

    /// Stages the event of a data frame.
    fn stage(&mut self, event: Event, seq: u32) -> LumberAct
        requires short { length event.text ≤ MOST_TEXT }
        requires ready { self.old.due ≡ false }
        ensures stage { result ≡ Stage event seq self.new.due }
        ensures counted { Counted (length event.text) self.old self.new.due self.new }
    {
        let commit = self.count(event.text.bytes().len());
        LumberAct::Stage { event, seq, commit }
    }

    /// Stages the event of a data frame that is lent.
    fn stage_lent<'a>(&mut self, origin: Origin, text: &'a [u8], seq: u32) -> LumberActRef<'a>
        requires short { length text.now ≤ MOST_TEXT }
        requires ready { self.old.due ≡ false }
        ensures stage { act_lent result ≡ Stage (record { origin = origin; text = text.now }) seq self.new.due }
        ensures counted { Counted (length text.now) self.old self.new.due self.new }
    {
        let commit = self.count(text.len());
        LumberActRef::Stage {
            origin,
            text,
            seq,
            commit,
        }
    }

    /// Counts a data frame with a text of this length, and says whether a batch ends with it.
    fn count(&mut self, len: usize) -> bool
        requires short { len ≤ MOST_TEXT }
        requires ready { self.old.due ≡ false }
        ensures { Counted len self.old result self.new }
    {
        let completes = self.left <= 1;
        self.left = self.left.saturating_sub(1);
        self.frames += 1;
        self.bytes += len;
        self.due = completes || self.frames >= BATCH_FRAMES || self.bytes >= BATCH_BYTES;
        self.due
    }
}
