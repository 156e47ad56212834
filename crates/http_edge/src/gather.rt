//! The bytes of a body, gathered from a piece.
ghost use Rattle.std.specs.Prelude.{◌+◌, ◌≤◌, length};
ghost use Rattle.std.specs.Vec.{vec_len, vec_capacity};
ghost use Rattle.http_edge.specs.Gathering.{Gathers, GathersPast};
ghost use Rattle.http_edge.specs.Steps.{Fits};

use crate::copy::append;
use crate::fault::HttpWhy;
use crate::stage::Stage;
use crate::step::{Turn, step};

/// Where a body stands at the end of a piece.
#[derive(Clone, Copy)]
pub enum Ending {
    /// The request is whole.
    Whole,
    /// More is due, at this stage.
    Open(Stage),
    Bad(HttpWhy),
}

/// What a piece brought of a body.
#[derive(Clone, Copy)]
pub struct Gathered {
    /// How many bytes of the piece were read.
    pub used: usize,
    pub end: Ending,
}

/// What a piece brought of a body that isn't kept.
#[derive(Clone, Copy)]
pub struct Passed {
    /// How many bytes of the piece were read.
    pub used: usize,
    /// How many bytes the body has by then.
    pub held: usize,
    pub end: Ending,
}

/// Reads a piece as [`gather`] does, and keeps a count of the body's bytes alone. It takes no memory.
pub fn pass(stage: Stage, held: usize, piece: &[u8]) -> Passed
    requires { Fits stage held }
    ensures { GathersPast stage held piece.now result }
{
    let mut now = stage;
    let mut count = held;
    let mut from = 0;
    'turns: loop {
        match step(now, count, &piece[from..]) {
            Turn::Took { stage, used } => {
                now = stage;
                count += used;
                from += used;
            }
            Turn::Past { stage, used } => {
                now = stage;
                from += used;
            }
            Turn::Done { used } => {
                return Passed {
                    used: from + used,
                    held: count,
                    end: Ending::Whole,
                };
            }
            Turn::Open => {
                return Passed {
                    used: from,
                    held: count,
                    end: Ending::Open(now),
                };
            }
            Turn::Bad(why) => {
                return Passed {
                    used: from,
                    held: count,
                    end: Ending::Bad(why),
                };
            }
        }
    }
}

/// Reads a piece after a body of so many bytes so far that has come to this stage: to the end of the
/// request or of the piece, or to the first fault. The body's bytes are appended. It takes no memory.
pub fn gather(bytes: &mut Vec<u8>, stage: Stage, held: usize, piece: &[u8]) -> Gathered
    requires fits { Fits stage held }
    requires room { vec_len bytes.old + length piece.now ≤ vec_capacity bytes.old }
    ensures gathers { Gathers stage held piece.now bytes.old.items bytes.new.items result }
    ensures capacity { vec_capacity bytes.old ≤ vec_capacity bytes.new }
{
    let before = bytes.len();
    let mut now = stage;
    let mut from = 0;
    'turns: loop {
        match step(now, held + (bytes.len() - before), &piece[from..]) {
            Turn::Took { stage, used } => {
                append(bytes, &piece[from..from + used]);
                now = stage;
                from += used;
            }
            Turn::Past { stage, used } => {
                now = stage;
                from += used;
            }
            Turn::Done { used } => {
                return Gathered {
                    used: from + used,
                    end: Ending::Whole,
                };
            }
            Turn::Open => {
                return Gathered {
                    used: from,
                    end: Ending::Open(now),
                };
            }
            Turn::Bad(why) => {
                return Gathered {
                    used: from,
                    end: Ending::Bad(why),
                };
            }
        }
    }
}
