//! What the next bytes of a body do.
ghost use Rattle.std.specs.Prelude.{◌≤◌};
ghost use Rattle.http_edge.specs.declared.stage.Stage.TheVariants.{Data, End, Line, Plain, Trailer};
ghost use Rattle.http_edge.specs.Steps.{Fits};
ghost use Rattle.http_edge.specs.Turns.{Turns};

use crate::chunk::{LineTurn, TrailerTurn, read_line, read_trailer};
use crate::fault::HttpWhy;
use crate::limits::MOST_BODY;
use crate::stage::Stage;

/// What the next bytes of a body do.
#[derive(Clone, Copy)]
pub enum Turn {
    /// So many of them are the body's, and bring it to a stage.
    Took { stage: Stage, used: usize },
    /// So many of them aren't, and bring it to a stage.
    Past { stage: Stage, used: usize },
    /// So many of them, none of them the body's, end the request.
    Done { used: usize },
    /// They are a front, and no more, of what is due.
    Open,
    /// They can't be what is due.
    Bad(HttpWhy),
}

// Where so many bytes are due of a body whose head gave its length.
fn after_plain(left: usize, held: usize, unread: &[u8]) -> Turn
    requires { Fits (Plain left) held }
    ensures { Turns (Plain left) held unread.now result }
{
    if left == 0 {
        return Turn::Done { used: 0 };
    }
    if unread.is_empty() {
        return Turn::Open;
    }
    let used = left.min(unread.len());
    Turn::Took {
        stage: Stage::Plain { left: left - used },
        used,
    }
}

// Where a chunk line is due.
fn after_line(held: usize, unread: &[u8]) -> Turn
    requires { Fits Line held }
    ensures { Turns Line held unread.now result }
{
    match read_line(unread) {
        LineTurn::Whole { used, size: 0 } => Turn::Past {
            stage: Stage::Trailer,
            used,
        },
        LineTurn::Whole { used, size } => {
            if size > (MOST_BODY - held) as u64 {
                return Turn::Bad(HttpWhy::TooLong);
            }
            Turn::Past {
                stage: Stage::Data {
                    left: size as usize,
                },
                used,
            }
        }
        LineTurn::Open => Turn::Open,
        LineTurn::Bad => Turn::Bad(HttpWhy::BadChunk),
    }
}

// Where so many bytes of a chunk's data are due.
fn after_data(left: usize, held: usize, unread: &[u8]) -> Turn
    requires { Fits (Data left) held }
    ensures { Turns (Data left) held unread.now result }
{
    if unread.is_empty() {
        return Turn::Open;
    }
    if unread.len() < left {
        return Turn::Took {
            stage: Stage::Data {
                left: left - unread.len(),
            },
            used: unread.len(),
        };
    }
    Turn::Took {
        stage: Stage::End,
        used: left,
    }
}

// Where CR LF after a chunk's data is due.
fn after_end(held: usize, unread: &[u8]) -> Turn
    requires { Fits End held }
    ensures { Turns End held unread.now result }
{
    match unread {
        [] | [b'\r'] => Turn::Open,
        [b'\r', b'\n', ..] => Turn::Past {
            stage: Stage::Line,
            used: 2,
        },
        _ => Turn::Bad(HttpWhy::BadChunk),
    }
}

// Where the trailer is due.
fn after_trailer(held: usize, unread: &[u8]) -> Turn
    requires { Fits Trailer held }
    ensures { Turns Trailer held unread.now result }
{
    match read_trailer(unread) {
        TrailerTurn::Whole { used } => Turn::Done { used },
        TrailerTurn::Open => Turn::Open,
        TrailerTurn::Bad => Turn::Bad(HttpWhy::BadChunk),
    }
}

/// What the bytes after a body of so many bytes so far do at a stage.
pub fn step(stage: Stage, held: usize, unread: &[u8]) -> Turn
    requires { Fits stage held }
    ensures { Turns stage held unread.now result }
{
    match stage {
        Stage::Plain { left } => after_plain(left, held, unread),
        Stage::Line => after_line(held, unread),
        Stage::Data { left } => after_data(left, held, unread),
        Stage::End => after_end(held, unread),
        Stage::Trailer => after_trailer(held, unread),
    }
}
