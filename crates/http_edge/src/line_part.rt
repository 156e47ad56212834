//! How far the field lines of a head have been read.
ghost use Rattle.std.specs.Prelude.{◌≡◌, ◌≤◌, List, ℕ, [], ◌∷◌, ◌++◌, IfSome};
ghost use Rattle.http_edge.specs.LineParts.{AreLines, at_field};

use crate::limits::MOST_FIELDS;
use httparse::{is_header_name_token, is_header_value_token};

/// How far a field line, or the empty line after the fields, has been read.
#[derive(Clone, Copy, PartialEq, Eq)]
pub enum LinePart {
    Begin,
    /// CR alone.
    Return,
    /// The beginning of a name.
    Name,
    /// A name, a colon, and the beginning of a value.
    Value,
    /// A name, a colon, a value, and CR.
    End,
}

/// How far the field lines of a head, and the empty line after them, have been read.
#[derive(Clone, Copy, PartialEq, Eq)]
pub struct LinesPart {
    /// How many field lines are whole.
    pub count: usize,
    /// What has been read of the line after them.
    pub line: LinePart,
}

/// After a start line.
pub const NO_LINES: LinesPart = LinesPart {
    count: 0,
    line: LinePart::Begin,
};

/// After another byte of a line after so many field lines; `None` where a parser is to judge it. In the bytes read there
/// are at most 64 field lines.
pub fn after_line(count: usize, line: LinePart, byte: u8) -> Option<LinesPart>
    requires { count ≤ MOST_FIELDS }
    ensures { IfSome result (λ next. (s : List ℕ) → AreLines (at_field count line) s → AreLines next (s ++ byte ∷ [])) }
{
    match line {
        LinePart::Begin => {
            if byte == b'\r' {
                return Some(LinesPart {
                    count,
                    line: LinePart::Return,
                });
            }
            if count < MOST_FIELDS && is_header_name_token(byte) {
                return Some(LinesPart {
                    count,
                    line: LinePart::Name,
                });
            }
        }
        LinePart::Return => {}
        LinePart::Name => {
            if is_header_name_token(byte) {
                return Some(LinesPart { count, line });
            }
            if byte == b':' {
                return Some(LinesPart {
                    count,
                    line: LinePart::Value,
                });
            }
        }
        LinePart::Value => {
            if is_header_value_token(byte) {
                return Some(LinesPart { count, line });
            }
            if byte == b'\r' {
                return Some(LinesPart {
                    count,
                    line: LinePart::End,
                });
            }
            if byte == b'\n' && count < MOST_FIELDS {
                return Some(LinesPart {
                    count: count + 1,
                    line: LinePart::Begin,
                });
            }
        }
        LinePart::End => {
            if byte == b'\n' && count < MOST_FIELDS {
                return Some(LinesPart {
                    count: count + 1,
                    line: LinePart::Begin,
                });
            }
        }
    }
    None
}
