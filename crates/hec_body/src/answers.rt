//! Answers of ack queries.
ghost use Rattle.std.specs.Prelude.{◌≡◌, ◌+◌, ◌*◌, ◌<◌, ◌≤◌, length, string_bytes, IfOk};
ghost use Rattle.hec_body.specs.Acks.{ack_member, answer_of};

use event_form::Blob;
use std::alloc::{AllocError, Global};

/// The member for an id.
fn member(alloc: Global, id: u64, known: bool) -> Result<String, AllocError>
    ensures { IfOk result (λ text. string_bytes text ≡ ack_member (id, known)) }
{
    format!(in alloc; "\"{id}\":{known}")
}

/// The answer of an ack query (Splunk's endpoint `services/collector/ack`), `{"acks":{"N":true,"M":false}}`:
/// for each id, in this order, whether its events are known to be stored. The lists have one length. The
/// answer has at most 29 bytes an id, and 11 more. The error says that no memory was found.
pub fn ack_text(alloc: Global, ids: &[u64], known: &[bool]) -> Result<Blob, AllocError>
    requires { length ids.now ≡ length known.now }
    ensures text { IfOk result (λ text. text ≡ answer_of ids.now known.now) }
    ensures short { IfOk result (λ text. length text ≤ 29 * length ids.now + 11) }
{
    let mut text = Vec::from_slice(alloc, b"{\"acks\":{")?;
    for (i, id) in ids.iter().enumerate() {
        if i > 0 {
            text.push(b',')?;
        }
        text.extend_from_slice(member(alloc, *id, known[i])?.as_bytes())?;
    }
    text.extend_from_slice(b"}}")?;
    Ok(Blob::of(text))
}
