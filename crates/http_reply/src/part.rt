//! How far a head has been read that isn't whole.
ghost use Rattle.std.specs.Prelude.{◌≡◌, ◌≤◌, List, ℕ, [], ◌∷◌, ◌++◌, IfSome, length, take};
ghost use Rattle.std.specs.Bool.{OnTrue};
ghost use Rattle.http_reply.specs.declared.part.HeadPart.TheVariants.{Blank};
ghost use Rattle.http_reply.specs.Heads.{IsOpenHead};
ghost use Rattle.http_reply.specs.Parts.{IsCode, IsPart, IsVersion};

use http_edge::{LinesPart, MOST_FIELDS, NO_LINES, after_line};
use httparse::is_header_value_token;

/// How far a head has been read that isn't whole.
#[derive(Clone, Copy, PartialEq, Eq)]
pub enum HeadPart {
    /// Empty lines, or nothing.
    Blank,
    /// Empty lines, and CR.
    Return,
    /// Empty lines, the version, a space and the status code.
    Code,
    /// The same, a space, and the beginning of a reason.
    Reason,
    /// A start line, but for its LF.
    End,
    /// The start line, and this of the field lines.
    Fields(LinesPart),
    /// The beginning of a head.
    Other,
}

// How far a head has been read after one more byte; `None` where a parser is to judge it.
fn after(part: HeadPart, byte: u8) -> Option<HeadPart>
    ensures { IfSome result (λ next. (b : List ℕ) → IsPart part b → IsPart next (b ++ byte ∷ [])) }
{
    match part {
        HeadPart::Blank => {
            if byte == b'\n' {
                return Some(HeadPart::Blank);
            }
            if byte == b'\r' {
                return Some(HeadPart::Return);
            }
        }
        HeadPart::Return => {
            if byte == b'\n' {
                return Some(HeadPart::Blank);
            }
        }
        HeadPart::Code => {
            if byte == b' ' {
                return Some(HeadPart::Reason);
            }
            if byte == b'\r' {
                return Some(HeadPart::End);
            }
            if byte == b'\n' {
                return Some(HeadPart::Fields(NO_LINES));
            }
        }
        HeadPart::Reason => {
            if is_header_value_token(byte) {
                return Some(HeadPart::Reason);
            }
            if byte == b'\r' {
                return Some(HeadPart::End);
            }
            if byte == b'\n' {
                return Some(HeadPart::Fields(NO_LINES));
            }
        }
        HeadPart::End => {
            if byte == b'\n' {
                return Some(HeadPart::Fields(NO_LINES));
            }
        }
        HeadPart::Fields(LinesPart { count, line }) => {
            if count <= MOST_FIELDS {
                let lines = after_line(count, line, byte)?;
                return Some(HeadPart::Fields(lines));
            }
        }
        HeadPart::Other => {}
    }
    None
}

/// How far some bytes bring a head.
#[derive(Clone, Copy)]
pub struct Ran {
    /// How many of them were read. The next one a parser is to judge.
    pub used: usize,
    pub part: HeadPart,
}

/// Reads further bytes of a head that has been read to this part, up to one that a parser is to judge.
pub fn run(part: HeadPart, bytes: &[u8]) -> Ran
    ensures inside { result.used ≤ length bytes.now }
    ensures part { (b : List ℕ) → IsPart part b → IsPart result.part (b ++ take result.used bytes.now) }
{
    let mut now = part;
    let mut i = 0;
    while i < bytes.len() {
        let Some(next) = after(now, bytes[i]) else {
            break;
        };
        now = next;
        i += 1;
    }
    Ran { used: i, part: now }
}

// Whether the bytes are the version and the space after it.
fn is_version(text: &[u8]) -> bool
    ensures { OnTrue result (IsVersion text.now) }
{
    text == b"HTTP/1.1 ".as_slice() || text == b"HTTP/1.0 ".as_slice()
}

// Whether the bytes are a status code.
fn is_code(text: &[u8]) -> bool
    ensures { OnTrue result (IsCode text.now) }
{
    text.len() == 3
        && text[0].is_ascii_digit()
        && text[1].is_ascii_digit()
        && text[2].is_ascii_digit()
}

// How far bytes have been read that begin a head, after so many that are empty lines.
fn after_blank(buf: &[u8], from: usize) -> HeadPart
    requires inside { from ≤ length buf.now }
    requires blank { IsPart Blank (take from buf.now) }
    requires begins { IsOpenHead buf.now }
    ensures { IsPart result buf.now }
{
    let line = &buf[from..];
    if line.len() < 12 || !is_version(&line[..9]) || !is_code(&line[9..12]) {
        return HeadPart::Other;
    }
    let rest = &line[12..];
    let ran = run(HeadPart::Code, rest);
    if ran.used < rest.len() {
        return HeadPart::Other;
    }
    ran.part
}

/// How far bytes have been read that begin a head.
pub fn part_of(buf: &[u8]) -> HeadPart
    requires { IsOpenHead buf.now }
    ensures { IsPart result buf.now }
{
    let ran = run(HeadPart::Blank, buf);
    if ran.used == buf.len() {
        return ran.part;
    }
    match ran.part {
        HeadPart::Blank => after_blank(buf, ran.used),
        _ => HeadPart::Other,
    }
}
