//! The head of a reply.
ghost use Rattle.std.specs.Prelude.{◌≡◌, ℕ, List, IfOk, take};
ghost use Rattle.http_reply.specs.Steps.{JudgesHead, Looks};

use crate::head::{HeadTurn, read_head};
use crate::size::reply_size;
use http_edge::{HttpWhy, MOST_FIELDS, MOST_HEAD, Stage, copy_fields, first_stage, front};
use httparse::spans::{EMPTY_HEADER_SPAN, HeaderSpan, ResponseSpans};
use std::alloc::{AllocError, Global};

/// A whole head, and where its body begins.
#[derive(Clone, Copy)]
pub struct Opening {
    pub status: u16,
    /// How many bytes the head has.
    pub len: usize,
    /// What is due first of the body.
    pub stage: Stage,
}

/// What stands at the front of bytes.
#[derive(Clone, Copy)]
pub enum Look {
    /// A head that isn't whole.
    Open,
    Bad(HttpWhy),
    Whole(Opening),
}

// A whole head, judged by its fields.
fn whole_head(
    alloc: Global,
    window: &[u8],
    found: ResponseSpans,
    spans: &[HeaderSpan],
) -> Result<Look, AllocError>
    requires { JudgesHead window.now spans.now (HeadTurn.Whole found) }
    ensures { (b : List ℕ) → window.now ≡ take MOST_HEAD b → IfOk result (Looks b) }
{
    let fields = copy_fields(alloc, spans, found.headers, window)?;
    let size = reply_size(found.code, found.version, fields.as_slice());
    match first_stage(size) {
        Err(why) => Ok(Look::Bad(why)),
        Ok(stage) => Ok(Look::Whole(Opening {
            status: found.code,
            len: found.len,
            stage,
        })),
    }
}

/// What stands at the front of the bytes of a reply.
pub fn look_at(alloc: Global, buf: &[u8]) -> Result<Look, AllocError>
    ensures { IfOk result (Looks buf.now) }
{
    let window = front(buf, MOST_HEAD);
    let mut spans = [EMPTY_HEADER_SPAN; MOST_FIELDS];
    match read_head(window, &mut spans) {
        HeadTurn::Bad => Ok(Look::Bad(HttpWhy::BadHead)),
        HeadTurn::Open => {
            if buf.len() < MOST_HEAD {
                Ok(Look::Open)
            } else {
                Ok(Look::Bad(HttpWhy::TooLong))
            }
        }
        HeadTurn::Whole(found) => whole_head(alloc, window, found, &spans),
    }
}
