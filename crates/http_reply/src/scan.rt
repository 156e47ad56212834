//! The replies of some bytes.
ghost use Rattle.std.specs.Prelude.{◌≡◌, ◌≤◌, ◌+◌, ◌^◌, ◌++◌, IfOk, OnOk, length};
ghost use Rattle.http_reply.specs.ReplyStream.{given_of};
ghost use Rattle.http_reply.specs.Scanning.{Scans};

use crate::left::Left;
use crate::next::{Next, next_reply};
use crate::reply::{HttpReply, is_interim};
use event_form::Blob;
use http_edge::{HttpFault, Stage};
use std::alloc::{AllocError, Global};
use std::collections::VecDeque;

/// What some bytes brought.
#[derive(Drop)]
pub struct Scanned {
    /// The whole replies that aren't interim ones.
    pub replies: VecDeque<HttpReply>,
    pub left: Left,
}

/// Adds a reply that isn't an interim one.
pub fn give(replies: &mut VecDeque<HttpReply>, reply: HttpReply) -> Result<(), AllocError>
    ensures { OnOk result (replies.new.items ≡ replies.old.items ++ given_of reply) }
{
    if !is_interim(reply.status) {
        replies.push_back(reply)?;
    }
    Ok(())
}

/// Reads bytes that begin at an offset, where a reply does, to their end or to the first fault.
pub fn scan(alloc: Global, base: u64, buf: &[u8]) -> Result<Scanned, AllocError>
    requires { base + length buf.now ≤ 2 ^ 40 }
    ensures { IfOk result (Scans base buf.now) }
{
    let mut replies = VecDeque::new(alloc);
    let mut from = 0;
    'replies: loop {
        match next_reply(alloc, &buf[from..])? {
            Next::Whole { status, body, used } => {
                let reply = HttpReply {
                    status,
                    body: Blob::of(body),
                    at: base + from as u64,
                };
                give(&mut replies, reply)?;
                from += used;
            }
            Next::Part(part) => {
                let unread = Vec::from_slice(alloc, &buf[from + part.used..])?;
                let left = Left {
                    from,
                    begun: Some(part.status),
                    stage: part.stage,
                    body: part.body,
                    read: part.used,
                    unread,
                    fault: None,
                };
                return Ok(Scanned { replies, left });
            }
            Next::Open => {
                let unread = Vec::from_slice(alloc, &buf[from..])?;
                let left = Left {
                    from,
                    begun: None,
                    stage: Stage::Plain { left: 0 },
                    body: Vec::new(alloc),
                    read: 0,
                    unread,
                    fault: None,
                };
                return Ok(Scanned { replies, left });
            }
            Next::Bad { why, at } => {
                let fault = HttpFault {
                    at: base + (from + at) as u64,
                    why,
                };
                let left = Left::cleared(alloc, from, fault);
                return Ok(Scanned { replies, left });
            }
        }
    }
}
