//! The frames that a piece completes.
ghost use Rattle.std.specs.Prelude.{◌≡◌, ◌+◌, ◌-◌, ◌≤◌, ◌++◌, length, IfOk, slice_range};
ghost use Rattle.lumber_frame.specs.declared.field.Turn.TheVariants.{Done};
ghost use Rattle.lumber_frame.specs.Places.{IsUnfinished, StandsBehind, frame_of};
ghost use Rattle.lumber_frame.specs.Scanning.{Scans};

use crate::fault::LumberWhy;
use crate::field::{Phase, START, TEXT, Whole};
use crate::frame::LumberFrame;
use crate::run::{Ran, run_on};
use crate::side::Side;
use event_form::Blob;
use foundation::copy_range;
use std::alloc::{AllocError, Global};
use std::collections::VecDeque;

/// What a piece brought.
#[derive(Drop)]
pub struct Scanned {
    /// The whole frames.
    pub frames: VecDeque<LumberFrame>,
    /// How many bytes they take, of those held and then of the piece.
    pub end: usize,
    /// What has been read of the frame after them; with a fault, up to the field that breaks a rule.
    pub phase: Phase,
    pub fault: Option<LumberWhy>,
}

/// The frame that stands from one place up to another of two lists joined.
#[tactic(auto, using(crate::proofs::JoinedLaws::range_behind))]
fn build(
    alloc: Global,
    front: &[u8],
    back: &[u8],
    begin: usize,
    end: usize,
    whole: Whole,
) -> Result<LumberFrame, AllocError>
    requires order { begin ≤ end }
    requires inside { end ≤ length front.now + length back.now }
    requires stands { StandsBehind (Done whole) (end - begin) }
    ensures { IfOk result (λ f. f ≡ frame_of whole (slice_range (front.now ++ back.now) begin end)) }
{
    match whole {
        Whole::Window { size } => Ok(LumberFrame::Window { size }),
        Whole::Pairs { seq } => {
            let text = copy_range(alloc, front, back, begin + TEXT, end)?;
            Ok(LumberFrame::Pairs {
                seq,
                text: Blob::of(text),
            })
        }
        Whole::Json { seq } => {
            let text = copy_range(alloc, front, back, begin + TEXT, end)?;
            Ok(LumberFrame::Json {
                seq,
                text: Blob::of(text),
            })
        }
        Whole::Ack { seq } => Ok(LumberFrame::Ack { seq }),
    }
}

/// Reads a piece that follows the bytes held of an unfinished frame, to its end or to the first fault.
pub fn scan(
    alloc: Global,
    side: Side,
    held: &[u8],
    phase: Phase,
    piece: &[u8],
) -> Result<Scanned, AllocError>
    requires { IsUnfinished side held.now phase }
    ensures scans { IfOk result (λ s. Scans side (held.now ++ piece.now) s) }
    ensures room { IfOk result (λ s. s.end + s.phase.at ≤ length held.now + length piece.now) }
{
    let mut frames = VecDeque::new(alloc);
    let mut end = 0;
    let mut now = phase;
    loop {
        match run_on(side, held, piece, end, now) {
            Ran::Rest(phase) => {
                return Ok(Scanned {
                    frames,
                    end,
                    phase,
                    fault: None,
                });
            }
            Ran::Ends(whole, n) => {
                let frame = build(alloc, held, piece, end, end + n, whole)?;
                frames.push_back(frame)?;
                end += n;
                now = START;
            }
            Ran::Bad(why, phase) => {
                return Ok(Scanned {
                    frames,
                    end,
                    phase,
                    fault: Some(why),
                });
            }
        }
    }
}
