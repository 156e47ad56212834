//! A head of version 1.
ghost use Rattle.std.specs.Prelude.{ℕ, ◌≤◌, IfSome, IfNone};
ghost use Rattle.std.specs.Net.Addr.{HasPrefix};
ghost use Rattle.proxy_head.specs.Line.{EndsAt, NoEnd};
ghost use Rattle.proxy_head.specs.Head.{Reads};

use crate::fault::{HeadFault, HeadWhy};
use crate::head::{Head, Reading};
use crate::limits::{LAST_CR, LAST_LF, LINE};
use crate::words::told;

/// The offset of the first CR that LF follows, where both are among the first 107 bytes.
fn line_end(bytes: &[u8]) -> Option<usize>
    ensures found { IfSome result (λ end. EndsAt bytes.now end × (end ≤ LAST_CR)) }
    ensures first { IfSome result (λ end. (at : ℕ) → EndsAt bytes.now at → end ≤ at) }
    ensures none { IfNone result (NoEnd bytes.now) }
{
    for at in 0..bytes.len().saturating_sub(1).min(LAST_LF) {
        if bytes[at] == b'\r' && bytes[at + 1] == b'\n' {
            return Some(at);
        }
    }
    None
}

/// What bytes are that begin as a line does and have no end of one: the first 107 bytes of a line have its end.
fn unended(bytes: &[u8]) -> Result<Reading, HeadFault>
    requires starts { HasPrefix bytes.now LINE }
    requires none { NoEnd bytes.now }
    ensures { Reads bytes.now result }
{
    let why = HeadWhy::TooLong;
    if bytes.len() <= LAST_CR {
        return Ok(Reading::More);
    }
    if bytes[LAST_CR] != b'\r' {
        let at = LAST_CR;
        return Err(HeadFault { at, why });
    }
    if bytes.len() <= LAST_LF {
        return Ok(Reading::More);
    }
    let at = LAST_LF;
    Err(HeadFault { at, why })
}

/// What bytes are that begin as a line does.
pub fn read_line(bytes: &[u8]) -> Result<Reading, HeadFault>
    requires { HasPrefix bytes.now LINE }
    ensures { Reads bytes.now result }
{
    match line_end(bytes) {
        Some(end) => match told(&bytes[LINE.len()..end]) {
            Ok(source) => {
                let len = end + 2;
                Ok(Reading::Whole(Head { source, len }))
            }
            Err(fault) => Err(fault),
        },
        None => unended(bytes),
    }
}
