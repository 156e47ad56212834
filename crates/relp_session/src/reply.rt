//! The receiver's texts.
ghost use Rattle.std.specs.Prelude.{◌≡◌, ◌<◌, ◌++◌, [], length, take, IfOk, OnOk, OnErr};
ghost use Rattle.relp_session.specs.Answer.{reply, stored, hint};
ghost use Rattle.relp_session.specs.Row.{answer_text};

use crate::act::RelpActRef;
use event_form::Blob;
use itoa::Buffer;
use relp_frame::write_parts;
use std::alloc::{AllocError, Global};

// Appends the answer to the frame of that transaction number, with this text as its data: a `rsp` frame (rsyslog's
// RELP specification, COMMAND SEMANTICS, "rsp"). The only error is want of memory, and after it `out`
// is as before.
fn write_reply(txnr: u32, text: &[u8], out: &mut Vec<u8>) -> Result<(), AllocError>
    ensures ok { OnOk result (out.new.items ≡ out.old.items ++ reply txnr text.now) }
    ensures err { OnErr result (out.new.items ≡ out.old.items) }
{
    write_parts(txnr, b"rsp", text, out)
}

/// Appends the hint that the connection ends, which answers no frame: `0 serverclose 0` and LF (rsyslog's
/// RELP specification, COMMAND SEMANTICS, "serverclose"). The only error is want of memory, and after it
/// `out` is as before.
pub fn write_hint(out: &mut Vec<u8>) -> Result<(), AllocError>
    ensures ok { OnOk result (out.new.items ≡ out.old.items ++ hint) }
    ensures err { OnErr result (out.new.items ≡ out.old.items) }
{
    write_parts(0, b"serverclose", b"", out)
}

// Appends the answer to a `close` of that transaction number, without data, and after it the hint. The
// only error is want of memory, and after it the bytes that `out` had are as before.
fn write_closing_reply(txnr: u32, out: &mut Vec<u8>) -> Result<(), AllocError>
    ensures ok { OnOk result (out.new.items ≡ out.old.items ++ (reply txnr [] ++ hint)) }
    ensures err { OnErr result (take (length out.old.items) out.new.items ≡ out.old.items) }
{
    write_reply(txnr, b"", out)?;
    write_hint(out)
}

// Appends the answer to the `syslog` of that transaction number, once its event is durable. It is written for each
// event, so all but the number is one text. The only error is want of memory, and after it the bytes that `out` had are
// as before.
fn write_stored(txnr: u32, out: &mut Vec<u8>) -> Result<(), AllocError>
    ensures ok { OnOk result (out.new.items ≡ out.old.items ++ stored txnr) }
    ensures err { OnErr result (take (length out.old.items) out.new.items ≡ out.old.items) }
{
    let mut number = Buffer::new();
    out.extend_from_slice(number.format(txnr).as_bytes())?;
    out.extend_from_slice(b" rsp 6 200 OK\n")
}

/// Appends the text by which an act is answered, a `rsp` frame: of an event that is to be stored, for
/// when it is durable. For a frame after the `close` there is none. The only error is want of memory,
/// and after it the bytes that `out` had are as before.
pub fn write_answer(act: RelpActRef<'_>, out: &mut Vec<u8>) -> Result<(), AllocError>
    ensures ok { OnOk result (out.new.items ≡ out.old.items ++ answer_text act.entry) }
    ensures err { OnErr result (take (length out.old.items) out.new.items ≡ out.old.items) }
{
    match act {
        RelpActRef::Store { txnr, .. } => write_stored(txnr, out),
        RelpActRef::Say { text, txnr } => write_reply(txnr, text, out),
        RelpActRef::Close { txnr } => write_closing_reply(txnr, out),
        RelpActRef::Nothing => Ok(()),
    }
}

/// An answer to the frame of that transaction number, with this data.
pub fn reply(alloc: Global, txnr: u32, text: &[u8]) -> Result<Blob, AllocError>
    ensures value { IfOk result (λ answer. answer ≡ reply txnr text.now) }
    ensures bytes { IfOk result (λ answer. 0 < length answer) }
{
    let mut out = Vec::new(alloc);
    write_reply(txnr, text, &mut out)?;
    Ok(Blob::of(out))
}

/// The answer to a `close` of that transaction number, without data, and after it the hint.
pub fn closing_reply(alloc: Global, txnr: u32) -> Result<Blob, AllocError>
    ensures value { IfOk result (λ answer. answer ≡ reply txnr [] ++ hint) }
    ensures bytes { IfOk result (λ answer. 0 < length answer) }
{
    let mut out = Vec::new(alloc);
    write_closing_reply(txnr, &mut out)?;
    Ok(Blob::of(out))
}

/// The answer to the `syslog` of that transaction number, once its event is durable: `TXNR rsp 6
/// 200 OK` and LF (rsyslog's RELP specification, COMMAND SEMANTICS, "rsp"). The only error is want
/// of memory.
pub fn stored_reply(alloc: Global, txnr: u32) -> Result<Blob, AllocError>
    ensures value { IfOk result (λ answer. answer ≡ stored txnr) }
    ensures bytes { IfOk result (λ answer. 0 < length answer) }
{
    reply(alloc, txnr, b"200 OK")
}

/// The hint that the connection ends, which answers no frame: `0 serverclose 0` and LF (rsyslog's
/// RELP specification, COMMAND SEMANTICS, "serverclose"). The only error is want of memory.
pub fn closing_hint(alloc: Global) -> Result<Blob, AllocError>
    ensures value { IfOk result (λ text. text ≡ hint) }
    ensures bytes { IfOk result (λ text. 0 < length text) }
{
    let mut out = Vec::new(alloc);
    write_hint(&mut out)?;
    Ok(Blob::of(out))
}
