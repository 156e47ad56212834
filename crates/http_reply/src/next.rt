//! The next reply of some bytes.
ghost use Rattle.std.specs.Prelude.{◌≡◌, IfOk};
ghost use Rattle.http_reply.specs.Scanning.{Nexts};
ghost use Rattle.http_reply.specs.Steps.{IsOpening};

use crate::body::{Brought, bring};
use crate::look::{Look, Opening, look_at};
use http_edge::gather::Ending;
use http_edge::{HttpWhy, Stage, place};
use std::alloc::{AllocError, Global};

/// A reply whose head is whole and whose body isn't.
#[derive(Drop)]
pub struct Unfinished {
    pub status: u16,
    /// The body so far.
    pub body: Vec<u8>,
    pub stage: Stage,
    /// How many bytes of the reply were read.
    pub used: usize,
}

/// What stands at the front of bytes.
#[derive(Drop)]
pub enum Next {
    /// A reply of so many bytes.
    Whole {
        status: u16,
        body: Vec<u8>,
        used: usize,
    },
    Part(Unfinished),
    /// A head that isn't whole.
    Open,
    /// A fault at this place.
    Bad {
        why: HttpWhy,
        at: usize,
    },
}

// What stands at the front of bytes that begin with a head.
fn next_body(alloc: Global, buf: &[u8], opening: Opening) -> Result<Next, AllocError>
    requires { IsOpening buf.now opening }
    ensures { IfOk result (Nexts buf.now) }
{
    let Opening { status, len, stage } = opening;
    let Brought { bytes, used, end } = bring(alloc, stage, 0, &buf[len..])?;
    let used = len + used;
    match end {
        Ending::Whole => Ok(Next::Whole {
            status,
            body: bytes,
            used,
        }),
        Ending::Open(stage) => Ok(Next::Part(Unfinished {
            status,
            body: bytes,
            stage,
            used,
        })),
        Ending::Bad(why) => Ok(Next::Bad {
            why,
            at: place(why, used),
        }),
    }
}

/// The next reply of bytes that begin where one does.
pub fn next_reply(alloc: Global, buf: &[u8]) -> Result<Next, AllocError>
    ensures { IfOk result (Nexts buf.now) }
{
    match look_at(alloc, buf)? {
        Look::Open => Ok(Next::Open),
        Look::Bad(why) => Ok(Next::Bad { why, at: 0 }),
        Look::Whole(opening) => next_body(alloc, buf, opening),
    }
}
