//! A run over the bytes of frames, field by field. It builds nothing and takes no memory.
ghost use Rattle.std.specs.Prelude.{◌≡◌, ◌+◌, ◌≤◌, List, [], ◌++◌, length, drop, MatchOption};
ghost use Rattle.lumber_frame.specs.declared.frame.LumberFrame.{LumberFrame};
ghost use Rattle.lumber_frame.specs.Places.{IsUnfinished, Reaches};
ghost use Rattle.lumber_frame.specs.Running.{Finds, Judges, Runs};
ghost use Rattle.lumber_frame.specs.Spelling.{Spells};
ghost use Rattle.stream_grammar.specs.Framing.{AreSpelled};

use crate::fault::LumberWhy;
use crate::field::{Phase, START, Turn, Whole, field_size};
use crate::json::json_at;
use crate::side::Side;
use crate::turn::after_field;

/// Where a run over a frame ended.
#[derive(Clone, Copy)]
pub enum Ran {
    /// At the bytes' end, within this field.
    Rest(Phase),
    /// At the frame's end, after so many bytes of it.
    Ends(Whole, usize),
    /// At this field, which breaks a rule.
    Bad(LumberWhy, Phase),
}

/// Runs over the frame that begins at a place of the bytes held and the piece, joined, and is read up to
/// the phase: to the frame's end, the piece's end or a fault. A JSON frame that lies whole in the piece is
/// read at once.
pub fn run_on(side: Side, held: &[u8], piece: &[u8], begin: usize, phase: Phase) -> Ran
    requires begins { begin ≤ length held.now + length piece.now }
    requires reaches { Reaches side (drop begin (held.now ++ piece.now)) phase }
    ensures { Runs side (drop begin (held.now ++ piece.now)) result }
{
    if let Some((seq, n)) = json_at(side, held, piece, begin) {
        return Ran::Ends(Whole::Json { seq }, n);
    }
    let rest = held.len() + piece.len() - begin;
    let mut now = phase;
    loop {
        let next = now.at + field_size(now.field);
        if rest < next {
            return Ran::Rest(now);
        }
        match after_field(side, now.field, now.at, held, piece, begin + now.at) {
            Turn::Go(field) => now = Phase { field, at: next },
            Turn::Done(whole) => return Ran::Ends(whole, next),
            Turn::Bad(why) => return Ran::Bad(why, now),
        }
    }
}

/// What a piece brought.
#[derive(Clone, Copy)]
pub struct Judged {
    /// How many bytes the whole frames take, of those held and then of the piece.
    pub end: usize,
    /// What has been read of the frame after them; with a fault, up to the field that breaks a rule.
    pub phase: Phase,
    /// How many bytes stand before the fault, of those held and then of the piece; else all.
    pub kept: usize,
    pub fault: Option<LumberWhy>,
}

/// Runs over a piece that follows the bytes held of an unfinished frame, to its end or to the first
/// fault.
pub fn judge(side: Side, held: &[u8], phase: Phase, piece: &[u8]) -> Judged
    requires { IsUnfinished side held.now phase }
    ensures judges { Judges side (held.now ++ piece.now) result }
    ensures kept { result.end + result.phase.at ≤ result.kept }
    ensures room { result.kept ≤ length held.now + length piece.now }
{
    let mut end = 0;
    let mut now = phase;
    loop {
        match run_on(side, held, piece, end, now) {
            Ran::Rest(phase) => {
                return Judged {
                    end,
                    phase,
                    kept: held.len() + piece.len(),
                    fault: None,
                };
            }
            Ran::Ends(_, n) => {
                end += n;
                now = START;
            }
            Ran::Bad(why, phase) => {
                return Judged {
                    end,
                    phase,
                    kept: end + phase.at,
                    fault: Some(why),
                };
            }
        }
    }
}

/// The first frame of bytes that are frames, without its text, and its length; `None` where there are no
/// bytes.
pub fn find(side: Side, bytes: &[u8]) -> Option<(Whole, usize)>
    requires spelled { (frames : List LumberFrame) × AreSpelled (Spells side) frames bytes.now }
    ensures { MatchOption result (bytes.now ≡ []) (λ found. Finds side bytes.now found.0 found.1) }
{
    match run_on(side, &[], bytes, 0, START) {
        Ran::Ends(whole, n) => Some((whole, n)),
        Ran::Rest(_) => None,
        Ran::Bad(..) => None,
    }
}
