//! What an answer says, as its first bytes show it.
ghost use Rattle.std.specs.Prelude.{◌≡◌, ◌<◌, ◌≤◌, IfSome, IfNone};
ghost use Rattle.edge_net.specs.Answer.{code_of as code_in};

/// An answer that begins a piece of bytes.
#[derive(Clone, Copy, PartialEq, Eq)]
pub enum Answer {
    /// A reply of HTTP with this status (RFC 9112, section 4).
    Reply { code: u16 },
    /// A `rsp` frame of RELP with this code (rsyslog's RELP specification, COMMAND SEMANTICS, "rsp").
    Frame { code: u16 },
}

// The least code by which an answer refuses what it is an answer to.
const LEAST_REFUSAL: u16 = 400;

// The number that three digits at the beginning spell.
fn code_of(bytes: &[u8]) -> Option<u16> {
    let [a, b, c, ..] = bytes else {
        return None;
    };
    let mut code = 0u16;
    for digit in [*a, *b, *c] {
        if !digit.is_ascii_digit() {
            return None;
        }
        code = code
            .saturating_mul(10)
            .saturating_add(u16::from(digit.saturating_sub(b'0')));
    }
    Some(code)
}

// What stands after a number and a space.
fn after_number(bytes: &[u8]) -> Option<&[u8]> {
    for i in 0..bytes.len() {
        if !bytes[i].is_ascii_digit() {
            return if i == 0 {
                None
            } else {
                bytes[i..].strip_prefix(b" ")
            };
        }
    }
    None
}

// The code of a `rsp` frame: `TXNR rsp LENGTH CODE ..`.
fn frame_code(bytes: &[u8]) -> Option<u16> {
    let command = after_number(bytes)?;
    let length = command.strip_prefix(b"rsp ")?;
    code_of(after_number(length)?)
}

// What stands before the number of a reply's reason in its body.
const REASON: &[u8] = b"\"code\":";

// The field of a reply after which its connection ends.
const CLOSES: &[u8] = b"Connection: close\r\n";

// The number that the bytes begin with.
fn number_at(bytes: &[u8]) -> u16 {
    let mut number = 0u16;
    for byte in bytes {
        if !byte.is_ascii_digit() {
            break;
        }
        let digit = u16::from(byte.saturating_sub(b'0'));
        number = number.saturating_mul(10).saturating_add(digit);
    }
    number
}

// What stands after these bytes, where they come first.
fn after<'a>(bytes: &'a [u8], mark: &[u8]) -> Option<&'a [u8]> {
    for at in 0..bytes.len() {
        if let Some(rest) = bytes[at..].strip_prefix(mark) {
            return Some(rest);
        }
    }
    None
}

/// The number by which a reply of the collector says why it refuses ("Troubleshoot HTTP Event Collector", possible error codes), where its
/// body has one.
pub(crate) fn reason_in(reply: &[u8]) -> Option<u16> {
    Some(number_at(after(reply, REASON)?))
}

/// Whether a reply says that it is the last one of its connection (RFC 9112, section 9.6).
pub(crate) fn closes(reply: &[u8]) -> bool {
    after(reply, CLOSES).is_some()
}

impl Answer {
    /// The answer that the bytes begin with, where that can be told.
    pub fn at(bytes: &[u8]) -> Option<Answer> {
        if let Some(status) = bytes.strip_prefix(b"HTTP/1.1 ") {
            return Some(Answer::Reply {
                code: code_of(status)?,
            });
        }
        Some(Answer::Frame {
            code: frame_code(bytes)?,
        })
    }

    /// The code by which it refuses what it is an answer to, if it does.
    pub fn refusal(self) -> Option<u16>
        ensures some { IfSome result (λ code. (code ≡ code_in self) × (400 ≤ code)) }
        ensures none { IfNone result (code_in self < 400) }
    {
        let (Answer::Reply { code } | Answer::Frame { code }) = self;
        if code >= LEAST_REFUSAL {
            Some(code)
        } else {
            None
        }
    }
}
