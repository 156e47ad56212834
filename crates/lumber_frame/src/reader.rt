//! The reader of a stream that comes in pieces.
ghost use Rattle.std.specs.Prelude.{◌≡◌, ℕ, ◌+◌, ◌≤◌, ◌^◌, List, [], ◌++◌, length, ◌↔◌, IsNone, IfSome, IfNone, Some, None, Err, option_to_list};
ghost use Rattle.event_form.specs.declared.feed_fault.FeedFault.TheVariants.{Fault};
ghost use Rattle.lumber_frame.specs.declared.fault.LumberFault.{LumberFault};
ghost use Rattle.lumber_frame.specs.declared.frame.LumberFrame.{LumberFrame};
ghost use Rattle.lumber_frame.specs.Reading.{Feeds, Reads, unfed};
ghost use Rattle.lumber_frame.specs.Spelling.{IsFrame, MayCome};
ghost use Rattle.stream_grammar.specs.Feeding.{GivesOn};

use crate::fault::LumberFault;
use crate::field::{Phase, START};
use crate::frame::LumberFrame;
use crate::limits::ROOM;
use crate::scan::{Scanned, scan};
use crate::side::Side;
use event_form::FeedFault;
use foundation::copy_range;
use std::alloc::Global;
use std::collections::VecDeque;
use std::marker::Model;

/// A reader of a Lumberjack stream that comes in pieces, cut anywhere. Of an unfinished frame it holds
/// at most 131,140 bytes.
///
/// Contracts see its side, the frames that wait to be taken, the offset after the last whole frame,
/// the bytes held from there on, and the fault.
#[derive(Drop)]
pub struct LumberReader {
    alloc: Global,
    side: Side,
    waiting: VecDeque<LumberFrame>,
    at: u64,
    rest: Vec<u8>,
    phase: Phase,
    fault: Option<LumberFault>,
}

impl Model for LumberReader {
    ghost use Rattle.lumber_frame.specs.Reading.{Reader};

    ghost Value = { Reader };

    ghost use Rattle.stream_grammar.specs.Splitting.{Holds};
    ghost use Rattle.lumber_frame.specs.Running.{layout};
    ghost use Rattle.lumber_frame.specs.Spelling.{IsFrameFor};

    ghost view = { λ r. record { side = r.side; waiting = r.waiting.items; at = r.at; rest = r.rest.items; fault = r.fault } };

    ghost invariant = { λ r. Holds (layout r.side) (IsFrameFor r.side) r.waiting.items r.at r.rest.items r.phase };
}

impl LumberReader {
    /// A reader at the stream's first byte, on this side of the connection. It keeps the allocator for
    /// what it is fed.
    pub fn new(alloc: Global, side: Side) -> LumberReader
        ensures empty { result ≡ unfed side }
        ensures reads { Reads [] [] result }
    {
        LumberReader {
            alloc,
            side,
            waiting: VecDeque::new(alloc),
            at: 0,
            rest: Vec::new(alloc),
            phase: START,
            fault: None,
        }
    }

    /// Adds the next piece of the stream, and reads it to its end or to the first fault. The bytes fed
    /// before and this piece are together at most 2^40.
    ///
    /// `Fault` comes exactly where a whole field of the bytes so far breaks a rule: with the offset of
    /// the first such field's first byte, and the rule. The frames before it can still be taken; later
    /// calls answer the same and add nothing. After `NoMemory` the reader is as before, and the piece
    /// was not added.
    pub fn feed(&mut self, piece: &[u8]) -> Result<(), FeedFault<LumberFault>>
        requires { self.old.at + length self.old.rest + length piece.now ≤ 2 ^ 40 }
        ensures feeds { Feeds self.old piece.now result self.new }
        ensures stays { (e : LumberFault) → self.old.fault ≡ Some e → (result ≡ Err (Fault e)) × (self.new ≡ self.old) }
        ensures side { self.new.side ≡ self.old.side }
        ensures room { self.new.at + length self.new.rest ≤ self.old.at + length self.old.rest + length piece.now }
        ensures bound { length self.new.rest ≤ ROOM }
    {
        if let Some(fault) = self.fault {
            return Err(FeedFault::Fault(fault));
        }
        let Scanned {
            mut frames,
            end,
            phase,
            fault,
        } = scan(self.alloc, self.side, &self.rest, self.phase, piece)?;
        if let Some(why) = fault {
            self.waiting.append(&mut frames)?;
            let fault = LumberFault {
                at: self.at + (end + phase.at) as u64,
                why,
            };
            self.at += end as u64;
            self.rest.clear();
            self.phase = START;
            self.fault = Some(fault);
            return Err(FeedFault::Fault(fault));
        }
        if frames.is_empty() {
            self.rest.extend_from_slice(piece)?;
            self.phase = phase;
            return Ok(());
        }
        let to = self.rest.len() + piece.len();
        let rest = copy_range(self.alloc, &self.rest, piece, end, to)?;
        self.waiting.append(&mut frames)?;
        self.at += end as u64;
        self.rest = rest;
        self.phase = phase;
        Ok(())
    }

    /// The next whole frame; `None` exactly where none waits. It takes no memory.
    pub fn take(&mut self) -> Option<LumberFrame>
        ensures gives { self.old.waiting ≡ option_to_list result ++ self.new.waiting }
        ensures none { IfNone result (self.old.waiting ≡ []) }
        ensures side { IfSome result (MayCome self.old.side) }
        ensures limits { IfSome result IsFrame }
        ensures same { self.new ≡ record self.old { waiting = self.new.waiting } }
        ensures reads { GivesOn Reads self.old (option_to_list result) self.new }
    {
        self.waiting.pop_front()
    }

    /// The offset of the unfinished frame's first byte; `None` where the stream ends at a frame's end.
    /// After a fault it is the offset of the frame that has the fault. It takes no memory.
    pub fn rest_at(&self) -> Option<u64>
        ensures none { IsNone result ↔ ((self.now.rest ≡ []) × (self.now.fault ≡ None)) }
        ensures some { IfSome result (λ at. at ≡ self.now.at) }
    {
        if self.rest.is_empty() && self.fault.is_none() {
            None
        } else {
            Some(self.at)
        }
    }
}
