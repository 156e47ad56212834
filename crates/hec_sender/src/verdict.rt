//! What a collector's reply says.
ghost use Rattle.std.specs.Prelude.{◌≡◌, codes, IfOk, Some, option_map};
ghost use Rattle.serde_json.specs.View.{view};
ghost use Rattle.serde_json.specs.Find.{get};
ghost use Rattle.hec_sender.specs.Replies.{Says, ack_of, by_code, by_id, code_of, query_verdict, request_verdict, verdict_of};

use crate::query::Query;
use http_reply::HttpReply;
use itoa::Buffer;
use serde_json::Value;
use std::alloc::{AllocError, Global};

/// What a reply says.
#[derive(Clone, Copy)]
pub(crate) enum Verdict {
    /// The request is acknowledged.
    Confirms,
    /// The request is taken, and this id is to be asked for.
    Asks { id: u64 },
    /// The request isn't acknowledged yet.
    Denies,
    /// The request is refused with this code.
    Refuses { code: u32 },
    /// It is no reply that may come.
    Faults,
}

// The reply's code.
fn code_of(value: &Value) -> Option<u32>
    ensures { result ≡ code_of (view value.now) }
{
    let code = value.get("code")?.as_u64()?;
    u32::try_from(code).ok()
}

// What the reply says of an id.
fn ack_of(id: u64, value: &Value) -> Option<bool>
    ensures { result ≡ ack_of id (view value.now) }
{
    let mut buffer = Buffer::new();
    let acks = value.get("acks")?;
    acks.get(buffer.format(id))?.as_bool()
}

// What a success says by its id, where it has one.
fn by_id(id: Option<&Value>) -> Verdict
    ensures { result ≡ by_id (option_map (λ v. view v.now) id.entry) }
{
    match id {
        None => Verdict::Confirms,
        Some(value) => match value.as_u64() {
            Some(id) => Verdict::Asks { id },
            None => Verdict::Faults,
        },
    }
}

// What the code says, where a success says this.
fn by_code(status: u16, success: Verdict, code: Option<u32>) -> Verdict
    ensures { result ≡ by_code status success code }
{
    match code {
        None => Verdict::Faults,
        Some(0) if status == 200 => success,
        Some(code) => Verdict::Refuses { code },
    }
}

// What a reply to a request says.
fn request_verdict(status: u16, value: &Value) -> Verdict
    ensures { result ≡ request_verdict status (view value.now) }
{
    by_code(status, by_id(value.get("ackId")), code_of(value))
}

// What a reply to the query of an id says.
fn query_verdict(id: u64, status: u16, value: &Value) -> Verdict
    ensures { result ≡ query_verdict id status (view value.now) }
{
    let answer = if status == 200 {
        ack_of(id, value)
    } else {
        None
    };
    match answer {
        Some(true) => Verdict::Confirms,
        Some(false) => Verdict::Denies,
        None => by_code(status, Verdict::Faults, code_of(value)),
    }
}

// What a reply with this status and this value says, where so was asked.
fn verdict_of(asked: Option<Query>, status: u16, value: &Value) -> Verdict
    ensures { result ≡ verdict_of asked status (Some (view value.now)) }
{
    match asked {
        None => request_verdict(status, value),
        Some(query) => query_verdict(query.id, status, value),
    }
}

/// What a reply to the last query says, or to the request where nothing was asked. Its body is read by
/// `serde_json`, so that of members of one name the last one counts. The error says that no memory was found.
pub(crate) fn judge(
    alloc: Global,
    asked: Option<Query>,
    reply: &HttpReply,
) -> Result<Verdict, AllocError>
    ensures { IfOk result (λ verdict. Says asked reply.now verdict) }
{
    match Value::from_slice(alloc, reply.body.bytes()) {
        Ok(value) => Ok(verdict_of(asked, reply.status, &value)),
        Err(error) if error.is_memory() => Err(AllocError),
        Err(_) => Ok(Verdict::Faults),
    }
}
