//! The next request of some bytes.
ghost use Rattle.std.specs.Prelude.{◌≡◌, ◌+◌, ◌≤◌, ℕ, List, IfOk, OnErr, drop, length};
ghost use Rattle.std.specs.Vec.{vec_len, vec_capacity};
ghost use Rattle.http_edge.specs.declared.limits.TheConstants.{MOST_HEAD};
ghost use Rattle.http_edge.specs.Scanning.{NextsInto, place_of};
ghost use Rattle.http_edge.specs.Steps.{Fits, IsOpening};

use crate::fault::HttpWhy;
use crate::gather::{Ending, Gathered, gather};
use crate::head::Head;
use crate::look::{Look, Opening, look_at};
use crate::stage::Stage;
use crate::waiting::Parked;
use std::alloc::{AllocError, Global};

/// A request whose head is whole and whose body isn't.
#[derive(Drop)]
pub struct Unfinished {
    pub head: Head,
    /// How many bytes the head has.
    pub size: usize,
    /// Whether the item Continue is given.
    pub asks: bool,
    /// How many bytes the body has so far.
    pub body: usize,
    pub stage: Stage,
    /// How many bytes of the request were read.
    pub used: usize,
}

/// What stands at the front of bytes.
#[derive(Drop)]
pub enum Next {
    /// A request of so many bytes, and whether the item Continue is given before it.
    Whole {
        parked: Parked,
        asks: bool,
        used: usize,
    },
    Part(Unfinished),
    /// A head that isn't whole.
    Open,
    /// A fault at this place, and whether the item Continue is given before it.
    Bad {
        why: HttpWhy,
        asks: bool,
        at: usize,
    },
}

/// How far after a request's first byte a fault of its body lies that was found at this place.
pub fn place(why: HttpWhy, at: usize) -> usize
    ensures { result ≡ place_of why at }
{
    match why {
        HttpWhy::BadChunk => at,
        HttpWhy::BadHead | HttpWhy::BadLength | HttpWhy::TooLong => 0,
    }
}

/// What stands at the front of bytes that begin with a head and go on so. The body's bytes are appended.
/// It takes no memory.
pub fn next_body(bytes: &mut Vec<u8>, after: &[u8], opening: Opening) -> Next
    requires fits { Fits opening.stage 0 }
    requires short { opening.len ≤ MOST_HEAD }
    requires room { vec_len bytes.old + length after.now ≤ vec_capacity bytes.old }
    ensures next { (b : List ℕ) → IsOpening b opening → after.now ≡ drop opening.len b → NextsInto b bytes.old.items bytes.new.items result }
    ensures capacity { vec_capacity bytes.old ≤ vec_capacity bytes.new }
{
    let before = bytes.len();
    let Opening {
        head,
        len,
        stage,
        asks,
    } = opening;
    let Gathered { used, end } = gather(bytes, stage, 0, after);
    let body = bytes.len() - before;
    let used = len + used;
    match end {
        Ending::Whole => Next::Whole {
            parked: Parked {
                head,
                size: len,
                body,
            },
            asks,
            used,
        },
        Ending::Open(stage) => Next::Part(Unfinished {
            head,
            size: len,
            asks,
            body,
            stage,
            used,
        }),
        Ending::Bad(why) => Next::Bad {
            why,
            asks,
            at: place(why, used),
        },
    }
}

/// The next request of bytes that begin where one does. The bytes of its body, or of what came of it, are
/// appended.
pub fn next_request(alloc: Global, bytes: &mut Vec<u8>, buf: &[u8]) -> Result<Next, AllocError>
    requires { vec_len bytes.old + length buf.now ≤ vec_capacity bytes.old }
    ensures next { IfOk result (NextsInto buf.now bytes.old.items bytes.new.items) }
    ensures kept { OnErr result (bytes.new.items ≡ bytes.old.items) }
    ensures capacity { vec_capacity bytes.old ≤ vec_capacity bytes.new }
{
    match look_at(alloc, buf)? {
        Look::Open => Ok(Next::Open),
        Look::Bad(why) => Ok(Next::Bad {
            why,
            asks: false,
            at: 0,
        }),
        Look::Whole(opening) => {
            let len = opening.len;
            Ok(next_body(bytes, &buf[len..], opening))
        }
    }
}
