//! A frame that a window lends.
ghost use Rattle.std.specs.Prelude.{◌≡◌, IfOk, length};
ghost use Rattle.lumber_frame.specs.declared.field.Turn.TheVariants.{Done};
ghost use Rattle.lumber_frame.specs.declared.side.Side.TheVariants.{Receiver};
ghost use Rattle.lumber_frame.specs.Lent.{frame_lent};
ghost use Rattle.lumber_frame.specs.Places.{StandsBehind, frame_of};
ghost use Rattle.lumber_frame.specs.Spelling.{MayCome};

use crate::field::{TEXT, Whole};
use crate::frame::LumberFrame;
use event_form::Blob;
use std::alloc::{AllocError, Global};

/// A writer's frame in a window: `LumberFrame` without its own text. Acknowledgments don't come from a
/// writer.
#[derive(Clone, Copy)]
pub enum LumberRef<'a> {
    /// `W`: how many data frames the writer sends before it waits for their acknowledgment.
    Window { size: u32 },
    /// `D`: a sequence number and the bytes of the pairs, from the first key length to the last value.
    Pairs { seq: u32, text: &'a [u8] },
    /// `J`: a sequence number and the payload, which isn't checked to be JSON.
    Json { seq: u32, text: &'a [u8] },
}

impl LumberRef<'_> {
    ghost use Rattle.lumber_frame.specs.Lent.{frame_lent};

    /// An equal frame that owns its text.
    pub fn to_frame(&self, alloc: Global) -> Result<LumberFrame, AllocError>
        ensures { IfOk result (λ f. f ≡ frame_lent self.now) }
    {
        match self {
            LumberRef::Window { size } => Ok(LumberFrame::Window { size: *size }),
            LumberRef::Pairs { seq, text } => {
                let text = Vec::from_slice(alloc, text)?;
                Ok(LumberFrame::Pairs {
                    seq: *seq,
                    text: Blob::of(text),
                })
            }
            LumberRef::Json { seq, text } => {
                let text = Vec::from_slice(alloc, text)?;
                Ok(LumberFrame::Json {
                    seq: *seq,
                    text: Blob::of(text),
                })
            }
        }
    }
}

/// The frame of these bytes, which a receiver reads.
pub fn lend(whole: Whole, frame: &[u8]) -> LumberRef<'_>
    requires comes { MayCome Receiver (frame_of whole frame.now) }
    requires stands { StandsBehind (Done whole) (length frame.now) }
    ensures { frame_lent result ≡ frame_of whole frame.now }
{
    match whole {
        Whole::Window { size } => LumberRef::Window { size },
        Whole::Pairs { seq } => LumberRef::Pairs {
            seq,
            text: &frame[TEXT..],
        },
        Whole::Json { seq } => LumberRef::Json {
            seq,
            text: &frame[TEXT..],
        },
        Whole::Ack { .. } => unreachable!(),
    }
}
