//! The field lines of a head or a trailer that isn't whole, counted.
ghost use Rattle.std.specs.Prelude.{◌≡◌, ◌+◌, ◌≤◌, length};
ghost use Rattle.http_edge.specs.declared.limits.TheConstants.{MOST_HEAD};
ghost use Rattle.http_edge.specs.LineCount.{count_byte, count_lines, is_over, last_after};

use crate::limits::MOST_FIELDS;

/// The line that hasn't ended.
#[derive(Clone, Copy)]
pub enum LastLine {
    Empty,
    /// CR alone.
    Return,
    /// Any other bytes.
    Text,
}

/// The lines of a head, as far as they were read. Empty lines before the start line don't count.
#[derive(Clone, Copy)]
pub struct Lines {
    /// Whether the start line has begun.
    started: bool,
    /// How many lines have ended since, the start line among them.
    ended: usize,
    last: LastLine,
}

/// Before a head.
pub const AT_START: Lines = Lines {
    started: false,
    ended: 0,
    last: LastLine::Empty,
};

/// Before a trailer: as after a start line.
pub const AT_FIELDS: Lines = Lines {
    started: true,
    ended: 1,
    last: LastLine::Empty,
};

fn last_after(last: LastLine, byte: u8) -> LastLine
    ensures { result ≡ last_after last byte }
{
    match (last, byte) {
        (LastLine::Empty, b'\r') => LastLine::Return,
        _ => LastLine::Text,
    }
}

fn after_byte(now: Lines, byte: u8) -> Lines
    requires { now.ended ≤ 16385 }
    ensures count { result ≡ count_byte now byte }
    ensures few { result.ended ≤ now.ended + 1 }
{
    if byte == b'\n' {
        Lines {
            started: now.started,
            ended: if now.started {
                now.ended + 1
            } else {
                now.ended
            },
            last: LastLine::Empty,
        }
    } else {
        Lines {
            started: now.started || byte != b'\r',
            ended: now.ended,
            last: last_after(now.last, byte),
        }
    }
}

/// Whether the bytes after these lines hold 64 field lines and the beginning of a further one.
pub fn too_many_lines(from: Lines, buf: &[u8]) -> bool
    requires few { from.ended ≤ 1 }
    requires small { length buf.now ≤ MOST_HEAD }
    ensures { result ≡ is_over (count_lines from buf.now) }
{
    let mut now = from;
    for i in 0..buf.len() {
        now = after_byte(now, buf[i]);
    }
    now.ended > MOST_FIELDS + 1 || (now.ended > MOST_FIELDS && matches!(now.last, LastLine::Text))
}
