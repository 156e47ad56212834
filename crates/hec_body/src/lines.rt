//! Raw bodies.
ghost use Rattle.std.specs.Prelude.{◌≡◌, ◌<◌, ◌≤◌, ◌==◌, ◌∷◌, length, position, IfOk, IfErr};
ghost use Rattle.std.specs.Str.Lines.{lines};
ghost use Rattle.hec_body.specs.Limits.{AreWithinLimits};
ghost use Rattle.hec_body.specs.Lines.{filled_lines, IsLineFault};

use crate::limits::{MOST_EVENTS, MOST_TEXT};
use body_faults::BodyFault;
use event_form::Blob;
use std::alloc::Global;

/// Where the first LF stands.
fn line_feed(bytes: &[u8]) -> Option<usize>
    ensures { result ≡ position (λ byte. byte == 10) bytes.now }
{
    bytes.iter().position(|&byte| byte == b'\n')
}

/// The first line of some bytes, and what is after its end.
fn first_line(bytes: &[u8]) -> (&[u8], &[u8])
    requires { 0 < length bytes.now }
    ensures line { lines bytes.now ≡ result.0.now ∷ lines result.1.now }
    ensures shorter { length result.1.now < length bytes.now }
{
    match line_feed(bytes) {
        Some(end) if end > 0 && bytes[end - 1] == b'\r' => (&bytes[..end - 1], &bytes[end + 1..]),
        Some(end) => (&bytes[..end], &bytes[end + 1..]),
        None => (bytes, &bytes[bytes.len()..]),
    }
}

/// The events of a raw body (Splunk's endpoint `services/collector/raw`), in their order: its lines but
/// the empty ones. A line ends with LF or with the body, and one CR before that LF is dropped. There is at
/// least one event and at most 10,000, and each has at most 131,072 bytes.
///
/// The first fault decides. `NoData`: no line has a byte. `Format`: this event, counted without the empty
/// lines, has more than 131,072 bytes. `TooMany`: another event, however long, stands after 10,000.
/// `NoMemory`: no memory was found; it can come in place of any answer. `NoEvent` and `Blank` never come.
pub fn raw_lines(alloc: Global, body: &[u8]) -> Result<Vec<Blob>, BodyFault>
    ensures lines { IfOk result (λ texts. texts.items ≡ filled_lines body.now) }
    ensures limits { IfOk result (λ texts. AreWithinLimits texts.items) }
    ensures bounded { IfOk result (λ texts. length texts.items ≤ length body.now) }
    ensures fault { IfErr result (λ fault. IsLineFault (filled_lines body.now) fault) }
{
    let mut texts = Vec::new(alloc);
    let mut rest = body;
    while !rest.is_empty() {
        let (line, behind) = first_line(rest);
        rest = behind;
        if line.is_empty() {
            continue;
        }
        if texts.len() == MOST_EVENTS {
            return Err(BodyFault::TooMany);
        }
        if line.len() > MOST_TEXT {
            return Err(BodyFault::Format {
                event: texts.len() as u32,
            });
        }
        texts.push(Blob::of(Vec::from_slice(alloc, line)?))?;
    }
    if texts.is_empty() {
        return Err(BodyFault::NoData);
    }
    Ok(texts)
}
