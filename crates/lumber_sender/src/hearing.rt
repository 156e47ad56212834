//! What a frame of the receiver does.
ghost use Rattle.lumber_frame.specs.declared.side.Side.TheVariants.{Sender};
ghost use Rattle.lumber_frame.specs.Spelling.{MayCome};
ghost use Rattle.lumber_sender.specs.Hearing.{IsHeard};

use lumber_frame::LumberFrame;

/// What a frame of the receiver does.
#[derive(Clone, Copy, PartialEq, Eq)]
pub(crate) enum Heard {
    /// Nothing: what it acknowledges is acknowledged already.
    Nothing,
    /// It acknowledges the data frames of the window up to this number.
    Part(u32),
    /// It acknowledges the whole window.
    Whole,
    /// It acknowledges more data frames than the window has.
    Beyond,
}

/// What the frame does, where the window has this size and its data frames are acknowledged up to this number.
pub(crate) fn hear(size: usize, acked: u32, frame: &LumberFrame) -> Heard
    requires { MayCome Sender frame.now }
    ensures { IsHeard size acked frame.now result }
{
    match frame {
        LumberFrame::Ack { seq } => {
            let seq = *seq;
            if seq as usize > size {
                Heard::Beyond
            } else if seq <= acked {
                Heard::Nothing
            } else if seq as usize == size {
                Heard::Whole
            } else {
                Heard::Part(seq)
            }
        }
        LumberFrame::Window { .. } | LumberFrame::Pairs { .. } | LumberFrame::Json { .. } => {
            unreachable!()
        }
    }
}
