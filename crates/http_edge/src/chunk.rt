//! Chunk lines and trailers (RFC 9112, section 7.1).
ghost use Rattle.std.specs.Prelude.{◌≡◌, ◌≤◌, length};
ghost use Rattle.http_edge.specs.Turns.{JudgesLine, JudgesTrailer, JudgesTrailerFront};

use crate::copy::front;
use crate::limits::{MOST_FIELDS, MOST_HEAD, MOST_LINE};
use crate::lines::{AT_FIELDS, too_many_lines};
use httparse::spans::{EMPTY_HEADER_SPAN, parse_headers};
use httparse::{Status, parse_chunk_size};

/// What bytes are where a chunk line is due.
#[derive(Clone, Copy)]
pub enum LineTurn {
    /// A chunk line of so many bytes, which writes this size, and perhaps more.
    Whole { used: usize, size: u64 },
    /// The beginning of a chunk line.
    Open,
    /// Neither.
    Bad,
}

/// What bytes are where a chunk line is due.
pub fn read_line(unread: &[u8]) -> LineTurn
    ensures { JudgesLine unread.now result }
{
    match parse_chunk_size(front(unread, MOST_LINE)) {
        Ok(Status::Complete((used, size))) => LineTurn::Whole { used, size },
        Ok(Status::Partial) => {
            if unread.len() < MOST_LINE {
                LineTurn::Open
            } else {
                LineTurn::Bad
            }
        }
        Err(_) => LineTurn::Bad,
    }
}

/// What bytes are where a trailer is due.
#[derive(Clone, Copy)]
pub enum TrailerTurn {
    /// A trailer of so many bytes, and perhaps more.
    Whole { used: usize },
    /// The beginning of a trailer.
    Open,
    /// Neither.
    Bad,
}

// What at most 16,384 bytes are where a trailer is due. A parser of fields reports a field too many only
// once its line is whole; where it wants more bytes, the lines are counted here.
fn read_front(buf: &[u8]) -> TrailerTurn
    requires { length buf.now ≤ MOST_HEAD }
    ensures { JudgesTrailerFront buf.now result }
{
    let mut spans = [EMPTY_HEADER_SPAN; MOST_FIELDS];
    match parse_headers(buf, &mut spans) {
        Ok(Status::Complete((used, _))) => TrailerTurn::Whole { used },
        Ok(Status::Partial) => {
            if too_many_lines(AT_FIELDS, buf) {
                TrailerTurn::Bad
            } else {
                TrailerTurn::Open
            }
        }
        Err(_) => TrailerTurn::Bad,
    }
}

/// What bytes are where a trailer is due.
pub fn read_trailer(unread: &[u8]) -> TrailerTurn
    ensures { JudgesTrailer unread.now result }
{
    match read_front(front(unread, MOST_HEAD)) {
        TrailerTurn::Open => {
            if unread.len() < MOST_HEAD {
                TrailerTurn::Open
            } else {
                TrailerTurn::Bad
            }
        }
        TrailerTurn::Whole { used } => TrailerTurn::Whole { used },
        TrailerTurn::Bad => TrailerTurn::Bad,
    }
}
