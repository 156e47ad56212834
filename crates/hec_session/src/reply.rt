//! The bodies of replies.
ghost use Rattle.std.specs.Prelude.{◌≡◌, ◌≤◌, ◌++◌, length, Some, IfOk, OnOk};
ghost use Rattle.hec_session.specs.declared.code.HecCode.{HecCode};
ghost use Rattle.hec_session.specs.Codes.{IsSay, body_of, member_of, number_of, object_of, success_of};

use crate::code::HecCode;
use crate::say::HecSay;
use event_form::Blob;
use std::alloc::{AllocError, Global};

// A member with this number, after a comma.
fn member(alloc: Global, name: &[u8], number: u64) -> Result<Vec<u8>, AllocError>
    requires { length name.now ≤ 20 }
    ensures value { IfOk result (λ text. text.items ≡ member_of name.now (Some number)) }
    ensures short { IfOk result (λ text. length text.items ≤ 44) }
{
    let mut text = Vec::from_slice(alloc, b",\"")?;
    text.extend_from_slice(name)?;
    text.extend_from_slice(b"\":")?;
    text.extend_from_slice(number.to_string(alloc)?.as_bytes())?;
    Ok(text)
}

// That member where there is a number.
fn member_of(alloc: Global, name: &[u8], number: Option<u64>) -> Result<Vec<u8>, AllocError>
    requires { length name.now ≤ 20 }
    ensures value { IfOk result (λ text. text.items ≡ member_of name.now number) }
    ensures short { IfOk result (λ text. length text.items ≤ 44) }
{
    match number {
        Some(number) => member(alloc, name, number),
        None => Ok(Vec::new(alloc)),
    }
}

// The object of a code, with one more member where there is a number.
fn object_of(
    alloc: Global,
    code: HecCode,
    name: &[u8],
    number: Option<u64>,
) -> Result<Blob, AllocError>
    requires { length name.now ≤ 20 }
    ensures value { IfOk result (λ body. body ≡ object_of code name.now number) }
    ensures short { IfOk result (λ body. length body ≤ 128) }
{
    let member = member_of(alloc, name, number)?;
    let mut text = Vec::from_slice(alloc, b"{\"text\":\"")?;
    text.extend_from_slice(code.text())?;
    text.extend_from_slice(b"\",\"code\":")?;
    text.extend_from_slice(code.number().to_string(alloc)?.as_bytes())?;
    text.extend_from_slice(&member)?;
    text.extend_from_slice(b"}")?;
    Ok(Blob::of(text))
}

// The code of a reply.
fn code_of(say: &HecSay) -> HecCode
    ensures { (code : HecCode) → say.now.code ≡ number_of code → result ≡ code }
{
    HecCode::with(say.code)
}

// The number of its event.
fn event_of(say: &HecSay) -> Option<u64>
    ensures { result ≡ say.now.event }
{
    match say.event {
        Some(event) => Some(event.into()),
        None => None,
    }
}

/// The body of a reply ("Troubleshoot HTTP Event Collector", possible error codes):
/// `{"text":"TEXT","code":N}`, and where an event is at fault `,"invalid-event-number":K` before the brace.
/// The reply has one of the codes, and its status. The only error is want of memory.
pub fn say_body(alloc: Global, say: &HecSay) -> Result<Blob, AllocError>
    requires { IsSay say.now }
    ensures value { IfOk result (λ body. (code : HecCode) → say.now.code ≡ number_of code → body ≡ body_of code say.now.event) }
    ensures short { IfOk result (λ body. length body ≤ 128) }
{
    object_of(alloc, code_of(say), b"invalid-event-number", event_of(say))
}

/// The body of Success ("HTTP Event Collector indexer acknowledgment"): `{"text":"Success","code":0}`, and
/// with an id `,"ackId":N` before the brace. The only error is want of memory.
pub fn success_body(alloc: Global, ack: Option<u64>) -> Result<Blob, AllocError>
    ensures value { IfOk result (λ body. body ≡ success_of ack) }
    ensures short { IfOk result (λ body. length body ≤ 128) }
{
    object_of(alloc, HecCode::Success, b"ackId", ack)
}
