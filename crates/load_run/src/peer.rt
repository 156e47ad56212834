//! What a peer sends that confirms all entries of a drain, by the protocol.
ghost use Rattle.std.specs.Prelude.{◌≡◌, ◌+◌, ◌≤◌, None, false, IfOk};
ghost use Rattle.http_edge.specs.Reply.{reply_text};
ghost use Rattle.hec_session.specs.Codes.{success_of};
ghost use Rattle.load_run.specs.Peer.{peer_of, relp_replies, runs_of, successes, window_acks};

use edge_io::Proto;
use hec_session::success_body;
use http_edge::write_reply;
use lumber_frame::ack_frame;
use relp_frame::write_parts;
use std::alloc::{AllocError, Global};

/// How many entries a window of Lumberjack has, and a request of the collector.
const RUN: u32 = 128;

// An answer to the frame that opens the session, and one to each frame of an entry.
fn relp_peer(alloc: Global, count: u32) -> Result<Vec<u8>, AllocError>
    requires few { count ≤ 100000 }
    ensures { IfOk result (λ bytes. bytes.items ≡ relp_replies 1 (count + 1)) }
{
    let mut out = Vec::new(alloc);
    for txnr in 1..count + 2 {
        write_parts(txnr, b"rsp", b"200 OK", &mut out)?;
    }
    Ok(out)
}

// How many runs of 128 so many entries are.
fn runs_of(count: u32) -> u32
    requires few { count ≤ 100000 }
    ensures { result ≡ runs_of count }
{
    (count + 127) / RUN
}

// An acknowledgment of each window.
fn lumber_peer(alloc: Global, count: u32) -> Result<Vec<u8>, AllocError>
    requires few { count ≤ 100000 }
    ensures { IfOk result (λ bytes. bytes.items ≡ window_acks (runs_of count) count) }
{
    let mut out = Vec::new(alloc);
    for window in 0..runs_of(count) {
        let entries = count - window * RUN;
        out.extend_from_slice(&ack_frame(entries.min(RUN)))?;
    }
    Ok(out)
}

// Success, without an id.
fn success(alloc: Global) -> Result<Vec<u8>, AllocError>
    ensures { IfOk result (λ text. text.items ≡ reply_text 200 false (success_of None)) }
{
    let body = success_body(alloc, None)?;
    let mut text = Vec::new(alloc);
    write_reply(200, false, body.bytes(), &mut text)?;
    Ok(text)
}

// Success for each request.
fn hec_peer(alloc: Global, count: u32) -> Result<Vec<u8>, AllocError>
    requires few { count ≤ 100000 }
    ensures { IfOk result (λ bytes. bytes.items ≡ successes (runs_of count)) }
{
    let text = success(alloc)?;
    let mut out = Vec::new(alloc);
    for request in 0..runs_of(count) {
        out.extend_from_slice(&text)?;
    }
    Ok(out)
}

/// What the peer sends to a session of so many entries, by the protocol.
pub(crate) fn peer(alloc: Global, proto: Proto, count: u32) -> Result<Vec<u8>, AllocError>
    requires few { count ≤ 100000 }
    ensures { IfOk result (λ bytes. bytes.items ≡ peer_of proto count) }
{
    match proto {
        Proto::Relp => relp_peer(alloc, count),
        Proto::Lumberjack => lumber_peer(alloc, count),
        Proto::Hec => hec_peer(alloc, count),
    }
}
