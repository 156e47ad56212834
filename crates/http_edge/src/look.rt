//! The head of a request.
ghost use Rattle.std.specs.Prelude.{◌≡◌, ℕ, List, IfOk, take};
ghost use Rattle.http_edge.specs.Lengths.{BodySize};
ghost use Rattle.http_edge.specs.Steps.{IsSize, JudgesHead, Looks, MakesHead, StartsAt};

use crate::copy::{copy, copy_fields, front};
use crate::fault::HttpWhy;
use crate::head::{Head, HeadTurn, read_head};
use crate::length::{Size, asks, body_size};
use crate::limits::{MOST_FIELDS, MOST_HEAD};
use crate::stage::Stage;
use httparse::spans::{EMPTY_HEADER_SPAN, HeaderSpan, RequestSpans};
use std::alloc::{AllocError, Global};

/// A whole head, and where its body begins.
#[derive(Drop)]
pub struct Opening {
    pub head: Head,
    /// How many bytes the head has.
    pub len: usize,
    /// What is due first of the body.
    pub stage: Stage,
    /// Whether the item Continue is given.
    pub asks: bool,
}

/// What stands at the front of bytes.
#[derive(Drop)]
pub enum Look {
    /// A head that isn't whole.
    Open,
    Bad(HttpWhy),
    Whole(Opening),
}

// The head that the spans cover.
fn make_head(
    alloc: Global,
    window: &[u8],
    found: RequestSpans,
    spans: &[HeaderSpan],
) -> Result<Head, AllocError>
    requires { JudgesHead window.now spans.now (HeadTurn.Whole found) }
    ensures { IfOk result (MakesHead window.now spans.now found) }
{
    let method = copy(alloc, found.method, window)?;
    let target = copy(alloc, found.path, window)?;
    let fields = copy_fields(alloc, spans, found.headers, window)?;
    Ok(Head {
        method,
        target,
        minor: found.version,
        fields,
    })
}

/// What is due first of a body that is framed so, or the rule that it breaks.
pub fn first_stage(size: Size) -> Result<Stage, HttpWhy>
    ensures { (z : BodySize) → IsSize size z → StartsAt z result }
{
    match size {
        Size::Length(left) => Ok(Stage::Plain { left }),
        Size::Chunked => Ok(Stage::Line),
        Size::TooLong => Err(HttpWhy::TooLong),
        Size::Bad => Err(HttpWhy::BadLength),
    }
}

// A whole head, judged by its fields.
fn whole_head(
    alloc: Global,
    window: &[u8],
    found: RequestSpans,
    spans: &[HeaderSpan],
) -> Result<Look, AllocError>
    requires { JudgesHead window.now spans.now (HeadTurn.Whole found) }
    ensures { (b : List ℕ) → window.now ≡ take MOST_HEAD b → IfOk result (Looks b) }
{
    let head = make_head(alloc, window, found, spans)?;
    let size = body_size(head.minor, head.fields.as_slice());
    match first_stage(size) {
        Err(why) => Ok(Look::Bad(why)),
        Ok(stage) => {
            let asks = asks(head.minor, head.fields.as_slice(), size);
            Ok(Look::Whole(Opening {
                head,
                len: found.len,
                stage,
                asks,
            }))
        }
    }
}

/// What stands at the front of the bytes of a request.
pub fn look_at(alloc: Global, buf: &[u8]) -> Result<Look, AllocError>
    ensures { IfOk result (Looks buf.now) }
{
    let window = front(buf, MOST_HEAD);
    let mut spans = [EMPTY_HEADER_SPAN; MOST_FIELDS];
    match read_head(window, &mut spans) {
        HeadTurn::Bad => Ok(Look::Bad(HttpWhy::BadHead)),
        HeadTurn::Open => {
            if buf.len() < MOST_HEAD {
                Ok(Look::Open)
            } else {
                Ok(Look::Bad(HttpWhy::TooLong))
            }
        }
        HeadTurn::Whole(found) => whole_head(alloc, window, found, &spans),
    }
}
