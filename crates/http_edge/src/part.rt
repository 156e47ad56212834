//! How far a head has been read that isn't whole.
ghost use Rattle.std.specs.Prelude.{◌≡◌, ◌+◌, ◌<◌, ◌≤◌, List, ℕ, [], ◌∷◌, ◌++◌, IfSome, length, take};
ghost use Rattle.std.specs.Bool.{OnTrue};
ghost use Rattle.http_edge.specs.declared.part.HeadPart.TheVariants.{Target};
ghost use Rattle.http_edge.specs.declared.limits.TheConstants.{MOST_HEAD};
ghost use Rattle.http_edge.specs.Heads.{IsOpenHead};
ghost use Rattle.http_edge.specs.Parts.{IsPart, IsVersion};

use crate::limits::MOST_FIELDS;
use crate::line_part::{LinesPart, NO_LINES, after_line};
use httparse::{is_method_token, is_uri_token};
use std::str::from_utf8;

/// How far a head has been read that isn't whole.
#[derive(Clone, Copy)]
pub enum HeadPart {
    /// Empty lines, or nothing.
    Blank,
    /// Empty lines, and CR.
    Return,
    /// Empty lines, and the beginning of a method.
    Method,
    /// The same, a space, and the beginning of a target, which stands at this place.
    Target { from: usize },
    /// The start line, and this of the field lines.
    Fields(LinesPart),
    /// The beginning of a head.
    Other,
}

// How far a head has been read after one more byte, which stands at this place of it; `None` where a
// parser is to judge it.
fn after(part: HeadPart, at: usize, byte: u8) -> Option<HeadPart>
    requires { at ≤ MOST_HEAD }
    ensures { IfSome result (λ next. (b : List ℕ) → length b ≡ at → IsPart part b → IsPart next (b ++ byte ∷ [])) }
{
    match part {
        HeadPart::Blank => {
            if byte == b'\n' {
                return Some(HeadPart::Blank);
            }
            if byte == b'\r' {
                return Some(HeadPart::Return);
            }
            if is_method_token(byte) {
                return Some(HeadPart::Method);
            }
        }
        HeadPart::Return => {
            if byte == b'\n' {
                return Some(HeadPart::Blank);
            }
        }
        HeadPart::Method => {
            if is_method_token(byte) {
                return Some(HeadPart::Method);
            }
            if byte == b' ' {
                return Some(HeadPart::Target { from: at + 1 });
            }
        }
        HeadPart::Target { from } => {
            if is_uri_token(byte) {
                return Some(HeadPart::Target { from });
            }
        }
        HeadPart::Fields(LinesPart { count, line }) => {
            if count <= MOST_FIELDS {
                let lines = after_line(count, line, byte)?;
                return Some(HeadPart::Fields(lines));
            }
        }
        HeadPart::Other => {}
    }
    None
}

/// How far some bytes bring a head.
#[derive(Clone, Copy)]
pub struct Ran {
    /// How many of them were read. The next one a parser is to judge.
    pub used: usize,
    pub part: HeadPart,
}

/// Reads further bytes of a head, of which so many have been read to this part, up to one that a parser is
/// to judge.
pub fn run(part: HeadPart, at: usize, bytes: &[u8]) -> Ran
    requires { at + length bytes.now ≤ MOST_HEAD }
    ensures inside { result.used ≤ length bytes.now }
    ensures part { (b : List ℕ) → length b ≡ at → IsPart part b → IsPart result.part (b ++ take result.used bytes.now) }
{
    let mut now = part;
    let mut i = 0;
    while i < bytes.len() {
        let Some(next) = after(now, at + i, bytes[i]) else {
            break;
        };
        now = next;
        i += 1;
    }
    Ran { used: i, part: now }
}

// Whether the bytes are the version and the end of a start line.
fn is_version(tail: &[u8]) -> bool
    ensures { OnTrue result (IsVersion tail.now) }
{
    tail == b"HTTP/1.1\r\n".as_slice()
        || tail == b"HTTP/1.0\r\n".as_slice()
        || tail == b"HTTP/1.1\n".as_slice()
        || tail == b"HTTP/1.0\n".as_slice()
}

// How far a head has been read of which so many bytes end in a target, or may.
fn after_target(buf: &[u8], from: usize, to: usize) -> HeadPart
    requires small { length buf.now ≤ MOST_HEAD }
    requires inside { to < length buf.now }
    requires target { IsPart (Target from) (take to buf.now) }
    requires begins { IsOpenHead buf.now }
    ensures { IsPart result buf.now }
{
    let line = &buf[to..];
    if line[0] != b' ' || from >= to {
        return HeadPart::Other;
    }
    let Ok(_) = from_utf8(&buf[from..to]) else {
        return HeadPart::Other;
    };
    let Some(end) = line.iter().position(|byte| *byte == b'\n') else {
        return HeadPart::Other;
    };
    if end == 0 || !is_version(&line[1..end + 1]) {
        return HeadPart::Other;
    }
    let fields = &line[end + 1..];
    let ran = run(HeadPart::Fields(NO_LINES), to + end + 1, fields);
    if ran.used < fields.len() {
        return HeadPart::Other;
    }
    ran.part
}

/// How far bytes have been read that begin a head.
pub fn part_of(buf: &[u8]) -> HeadPart
    requires small { length buf.now ≤ MOST_HEAD }
    requires begins { IsOpenHead buf.now }
    ensures { IsPart result buf.now }
{
    let ran = run(HeadPart::Blank, 0, buf);
    if ran.used == buf.len() {
        return ran.part;
    }
    match ran.part {
        HeadPart::Target { from } => after_target(buf, from, ran.used),
        _ => HeadPart::Other,
    }
}
