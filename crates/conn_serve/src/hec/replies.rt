//! The replies of a connection. Each is made in one buffer, which is kept for the connection.
ghost use Rattle.std.specs.Prelude.{◌≡◌, ◌≤◌, length, OnOk, IfErr, IsTrue};
ghost use Rattle.http_edge.specs.Reply.{is_status, reply_text};
ghost use Rattle.hec_session.specs.Codes.{IsReply, say_of};
ghost use Rattle.hec_session.specs.declared.code.HecCode.{HecCode as Code};
ghost use Rattle.conn_serve.specs.Hec.{reply, success, answers};

use event_form::Talk;
use hec_body::ack_text;
use hec_session::{HecSay, say_body, success_body};
use http_edge::write_reply;
use std::alloc::Global;

/// The leave to send a body (RFC 9110, section 15.2.1).
pub const CONTINUED: &[u8] = b"HTTP/1.1 100 Continue\r\n\r\n";

// Makes the reply with this status and body. The error is want of memory.
fn make(text: &mut Vec<u8>, status: u16, closing: bool, body: &[u8]) -> Result<(), Talk>
    requires status { IsTrue (is_status status) }
    requires body { length body.now ≤ 1048576 }
    ensures text { OnOk result (text.new.items ≡ reply_text status closing body.now) }
    ensures starved { IfErr result (λ talk. talk ≡ Talk.NoMemory) }
{
    text.clear();
    match write_reply(status, closing, body, text) {
        Ok(()) => Ok(()),
        Err(_) => Err(Talk::NoMemory),
    }
}

/// Makes the reply with a code. The error is want of memory.
pub fn make_say(alloc: Global, text: &mut Vec<u8>, say: HecSay, closing: bool) -> Result<(), Talk>
    requires reply { IsReply say }
    ensures text { OnOk result ((code : Code) → say ≡ say_of code say.event → text.new.items ≡ reply code say.event closing) }
    ensures starved { IfErr result (λ talk. talk ≡ Talk.NoMemory) }
{
    match say_body(alloc, &say) {
        Ok(body) => make(text, say.status, closing, body.bytes()),
        Err(_) => Err(Talk::NoMemory),
    }
}

/// Makes Success, with the id of the events where they have one. The error is want of memory.
pub fn make_success(
    alloc: Global,
    text: &mut Vec<u8>,
    ack: Option<u64>,
    closing: bool,
) -> Result<(), Talk>
    ensures text { OnOk result (text.new.items ≡ success ack closing) }
    ensures starved { IfErr result (λ talk. talk ≡ Talk.NoMemory) }
{
    match success_body(alloc, ack) {
        Ok(body) => make(text, 200, closing, body.bytes()),
        Err(_) => Err(Talk::NoMemory),
    }
}

/// Makes the answer to a query. The error is want of memory.
pub fn make_answers(
    alloc: Global,
    text: &mut Vec<u8>,
    ids: &[u64],
    known: &[bool],
    closing: bool,
) -> Result<(), Talk>
    requires equal { length ids.now ≡ length known.now }
    requires few { length ids.now ≤ 10000 }
    ensures text { OnOk result (text.new.items ≡ answers ids.now known.now closing) }
    ensures starved { IfErr result (λ talk. talk ≡ Talk.NoMemory) }
{
    match ack_text(alloc, ids, known) {
        Ok(body) => make(text, 200, closing, body.bytes()),
        Err(_) => Err(Talk::NoMemory),
    }
}
