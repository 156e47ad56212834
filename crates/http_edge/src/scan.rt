//! The requests of some bytes.
ghost use Rattle.std.specs.Prelude.{◌≡◌, ◌≤◌, ◌+◌, ℕ, List, ◌++◌, IfOk, OnErr, OnOk, length};
ghost use Rattle.std.specs.Vec.{vec_len, vec_capacity};
ghost use Rattle.http_edge.specs.declared.waiting.Waiting.{Waiting};
ghost use Rattle.http_edge.specs.Scanning.{ScansInto};
ghost use Rattle.http_edge.specs.Waits.{told_if};

use crate::fault::HttpFault;
use crate::left::Left;
use crate::next::{Next, next_request};
use crate::stage::Stage;
use crate::waiting::Waiting;
use std::alloc::{AllocError, Global};
use std::collections::VecDeque;

/// What some bytes brought, but for the items.
#[derive(Drop)]
pub struct Scanned {
    /// How many bytes the heads of the whole requests have.
    pub heads: usize,
    pub left: Left,
}

// Adds the item Continue, where it is given.
fn tell(queue: &mut VecDeque<Waiting>, asks: bool) -> Result<(), AllocError>
    ensures ok { OnOk result (queue.new.items ≡ queue.old.items ++ told_if asks) }
    ensures err { OnErr result (queue.new.items ≡ queue.old.items) }
{
    if asks {
        queue.push_back(Waiting::Continue)?;
    }
    Ok(())
}

// Reads bytes that begin where a request does, to their end or to the first fault. Where no memory was found,
// some items and some bytes may have been added.
fn scan_all(
    alloc: Global,
    queue: &mut VecDeque<Waiting>,
    bytes: &mut Vec<u8>,
    buf: &[u8],
) -> Result<Scanned, AllocError>
    requires { vec_len bytes.old + length buf.now ≤ vec_capacity bytes.old }
    ensures scans { IfOk result (ScansInto buf.now queue.old.items queue.new.items bytes.old.items bytes.new.items) }
    ensures added { (added : List ℕ) × (bytes.new.items ≡ bytes.old.items ++ added) }
    ensures queued { (more : List Waiting) × (queue.new.items ≡ queue.old.items ++ more) }
    ensures capacity { vec_capacity bytes.old ≤ vec_capacity bytes.new }
{
    let mut heads = 0;
    let mut from = 0;
    'requests: loop {
        let body = bytes.len();
        match next_request(alloc, bytes, &buf[from..])? {
            Next::Whole { parked, asks, used } => {
                tell(queue, asks)?;
                heads += parked.size;
                queue.push_back(Waiting::Request(parked))?;
                from += used;
            }
            Next::Part(part) => {
                tell(queue, part.asks)?;
                let left = Left {
                    from,
                    begun: Some(part.head),
                    size: part.size,
                    stage: part.stage,
                    body: part.body,
                    read: part.used,
                    rest: buf.len() - from - part.used,
                    fault: None,
                };
                return Ok(Scanned { heads, left });
            }
            Next::Open => {
                let left = Left {
                    from,
                    begun: None,
                    size: 0,
                    stage: Stage::Plain { left: 0 },
                    body: 0,
                    read: 0,
                    rest: buf.len() - from,
                    fault: None,
                };
                return Ok(Scanned { heads, left });
            }
            Next::Bad { why, asks, at } => {
                bytes.truncate(body);
                tell(queue, asks)?;
                let fault = HttpFault {
                    at: (from + at) as u64,
                    why,
                };
                let left = Left::cleared(from, fault);
                return Ok(Scanned { heads, left });
            }
        }
    }
}

/// Reads bytes that begin where a request does, to their end or to the first fault. Places are counted
/// from the first of these bytes. The items of the whole requests and those given of the next one go to the back
/// of the queue; the bodies' bytes are appended, those of whole requests first. Where no memory was found,
/// nothing is added.
pub fn scan(
    alloc: Global,
    queue: &mut VecDeque<Waiting>,
    bytes: &mut Vec<u8>,
    buf: &[u8],
) -> Result<Scanned, AllocError>
    requires { vec_len bytes.old + length buf.now ≤ vec_capacity bytes.old }
    ensures scans { IfOk result (ScansInto buf.now queue.old.items queue.new.items bytes.old.items bytes.new.items) }
    ensures kept { OnErr result (bytes.new.items ≡ bytes.old.items) }
    ensures waits { OnErr result (queue.new.items ≡ queue.old.items) }
    ensures capacity { vec_capacity bytes.old ≤ vec_capacity bytes.new }
{
    let before = bytes.len();
    let count = queue.len();
    match scan_all(alloc, queue, bytes, buf) {
        Ok(scanned) => Ok(scanned),
        Err(error) => {
            bytes.truncate(before);
            queue.truncate(count);
            Err(error)
        }
    }
}
