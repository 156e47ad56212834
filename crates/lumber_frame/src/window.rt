//! The window over a stream that comes in pieces.
ghost use Rattle.std.specs.Prelude.{◌≡◌, ℕ, ◌+◌, ◌-◌, ◌≤◌, ◌<◌, ◌^◌, List, [], ◌++◌, drop, take, length, ◌↔◌, IsNone, IfOk, IfSome, Some, None, Err};
ghost use Rattle.std.specs.Vec.{vec_len, vec_capacity};
ghost use Rattle.std.specs.Borrow.{sem};
ghost use Rattle.lumber_frame.specs.declared.limits.TheConstants.{ROOM};
ghost use Rattle.lumber_frame.specs.declared.fault.LumberFault.{LumberFault};
ghost use Rattle.lumber_frame.specs.declared.side.Side.TheVariants.{Receiver};

use crate::fault::LumberFault;
use crate::field::{Phase, START};
use crate::lent::{LumberRef, lend};
use crate::limits::{FEW, MOST_KEPT, ROOM};
use crate::run::{find, judge};
use crate::side::Side;
use std::alloc::{AllocError, Global};
use std::marker::Model;

/// Takes a front out of the bytes, adds a piece for which there is room, and keeps so many of them all.
fn shift_in(bytes: &mut Vec<u8>, from: usize, piece: &[u8], kept: usize)
    requires inside { from ≤ vec_len bytes.old }
    requires room { vec_len bytes.old - from + length piece.now ≤ vec_capacity bytes.old }
    ensures items { bytes.new.items ≡ take kept (drop from bytes.old.items ++ piece.now) }
    ensures capacity { vec_capacity bytes.old ≤ vec_capacity bytes.new }
{
    let len = bytes.len();
    if from > 0 {
        bytes.as_mut_slice().copy_within(from..len, 0);
        bytes.truncate(len - from);
    }
    let Ok(()) = bytes.extend_from_slice(piece) else {
        unreachable!()
    };
    bytes.truncate(kept);
}

// Memory for a window, which begins with these bytes. None: there is none.
fn copied(alloc: Global, held: &[u8]) -> Option<Vec<u8>>
    requires { length held.now ≤ ROOM }
    ensures items { IfSome result (λ bytes. bytes.items ≡ held.now) }
    ensures capacity { IfSome result (λ bytes. ROOM ≤ vec_capacity bytes) }
{
    let Ok(mut bytes) = Vec::with_capacity(alloc, ROOM) else {
        return None;
    };
    if bytes.extend_from_slice(held).is_err() {
        return None;
    }
    Some(bytes)
}

/// A window over what a writer of Lumberjack sends, in pieces, cut anywhere. It holds at most 131,140
/// bytes, those of whole frames that wait and of an unfinished one, and lends its frames.
///
/// Contracts see the bytes of the whole frames that wait, the offset after them, the bytes held from
/// there on, and the fault.
#[derive(Drop)]
pub struct LumberWindow {
    // Those before `from` were given, those up to `whole` wait, and those after are a frame's front.
    bytes: Vec<u8>,
    from: usize,
    whole: usize,
    // The stream's offset at `whole`.
    at: u64,
    // What has been read of the frame from `whole` on.
    phase: Phase,
    // How many bytes the memory had at most since it was taken.
    reached: usize,
    fault: Option<LumberFault>,
}

impl Model for LumberWindow {
    ghost use Rattle.std.specs.Vec.{vec_capacity};
    ghost use Rattle.lumber_frame.specs.declared.fault.LumberFault.{LumberFault};
    ghost use Rattle.stream_grammar.specs.Filling.{window_of};
    ghost use Rattle.stream_grammar.specs.Reading.{Window};

    ghost Value = { Window LumberFault };

    ghost use Rattle.stream_grammar.specs.Splitting.{Fills};
    ghost use Rattle.lumber_frame.specs.declared.side.Side.TheVariants.{Receiver};
    ghost use Rattle.lumber_frame.specs.Running.{layout};

    ghost view = { λ w. window_of w.bytes.items w.from w.whole w.at w.fault };

    ghost invariant = { λ w. Fills (layout Receiver) w.bytes.items (vec_capacity w.bytes) w.from w.whole w.at w.phase };
}

impl LumberWindow {
    ghost use Rattle.stream_grammar.specs.Reading.{Feeds, Reads, clear, held_of, taken_of};
    ghost use Rattle.lumber_frame.specs.Reading.{receiver};
    ghost use Rattle.lumber_frame.specs.Lent.{frame_lent};
    ghost use Rattle.lumber_frame.specs.Spelling.{IsFrameFor, Spells};
    ghost use Rattle.lumber_frame.specs.Window.{Leaves};

    /// A window at the stream's first byte. It takes all its memory here.
    pub fn new(alloc: Global) -> Result<LumberWindow, AllocError>
        ensures clear { IfOk result (λ w. w ≡ clear) }
        ensures reads { IfOk result (λ w. Reads receiver (Spells Receiver) [] [] w) }
    {
        let bytes = Vec::with_capacity(alloc, ROOM)?;
        Ok(LumberWindow {
            bytes,
            from: 0,
            whole: 0,
            at: 0,
            phase: START,
            reached: 0,
            fault: None,
        })
    }

    /// Adds as much of the piece as there is room for, and says how many bytes. Where not all of it is
    /// taken, a whole frame waits, and `next` makes room. It takes no memory. The bytes taken before and
    /// this piece are together at most 2^40.
    ///
    /// `Err` comes exactly where a whole field of the bytes so far breaks a rule of the protocol's
    /// layout: with the offset of the first such field's first byte, and the rule. The bytes before that
    /// offset are kept, and the frames among them can still be taken; later calls answer the same and
    /// take nothing.
    pub fn feed(&mut self, piece: &[u8]) -> Result<usize, LumberFault>
        requires { self.old.at + length self.old.rest + length piece.now ≤ 2 ^ 40 }
        ensures feeds { Feeds receiver (Spells Receiver) ROOM self.old piece.now result self.new }
        ensures stays { (e : LumberFault) → self.old.fault ≡ Some e → (result ≡ Err e) × (self.new ≡ self.old) }
        ensures bound { held_of self.new ≤ ROOM }
        ensures rest { length self.new.rest < ROOM }
        ensures room { self.new.at + length self.new.rest ≤ self.old.at + length self.old.rest + taken_of ROOM self.old piece.now }
    {
        if let Some(fault) = self.fault {
            return Err(fault);
        }
        let taken = piece.len().min(ROOM - (self.bytes.len() - self.from));
        let more = &piece[..taken];
        let judged = judge(Side::Receiver, &self.bytes[self.whole..], self.phase, more);
        let waits = self.whole - self.from;
        shift_in(&mut self.bytes, self.from, more, waits + judged.kept);
        self.from = 0;
        self.whole = waits + judged.end;
        self.at += judged.end as u64;
        self.phase = judged.phase;
        self.reached = self.reached.max(self.bytes.len());
        if let Some(why) = judged.fault {
            let at = self.at + judged.phase.at as u64;
            let fault = LumberFault { at, why };
            self.fault = Some(fault);
            return Err(fault);
        }
        Ok(taken)
    }

    /// Gives back what memory more than 16,384 bytes took, where no more than 8,192 are held now. Where there is none for another window
    /// all stays as it is. Nothing else changes.
    pub fn give_back(&mut self)
        ensures { self.new ≡ self.old }
    {
        let held = self.bytes.len() - self.from;
        if held > FEW || self.reached <= MOST_KEPT {
            return;
        }
        let alloc = *self.bytes.allocator();
        let Some(bytes) = copied(alloc, &self.bytes[self.from..]) else {
            return;
        };
        self.bytes = bytes;
        self.whole -= self.from;
        self.from = 0;
        self.reached = 0;
    }

    /// The next whole frame; `None` exactly where none waits. Its room is free from the next call on. It
    /// takes no memory.
    pub fn next(&mut self) -> Option<LumberRef<'_>>
        ensures* after { sem 𝓛 (Leaves self.entry result) }
        ensures limits { IfSome result (λ f. IsFrameFor Receiver (frame_lent f)) }
    {
        let (whole, n) = find(Side::Receiver, &self.bytes[self.from..self.whole])?;
        let begin = self.from;
        self.from = begin + n;
        Some(lend(whole, &self.bytes[begin..begin + n]))
    }

    /// How many bytes are held: those of whole frames that wait, and those of the unfinished one. It
    /// takes no memory.
    pub fn held(&self) -> usize
        ensures count { result ≡ held_of self.now }
        ensures bound { result ≤ ROOM }
    {
        self.bytes.len() - self.from
    }

    /// The offset of the unfinished frame's first byte; `None` where the bytes taken end at a frame's
    /// end. After a fault it is the offset of the frame that has the fault. It takes no memory.
    pub fn rest_at(&self) -> Option<u64>
        ensures none { IsNone result ↔ ((self.now.rest ≡ []) × (self.now.fault ≡ None)) }
        ensures some { IfSome result (λ at. at ≡ self.now.at) }
    {
        if self.whole == self.bytes.len() && self.fault.is_none() {
            None
        } else {
            Some(self.at)
        }
    }
}
