//! A head that is whole, or not yet.
ghost use Rattle.std.specs.Prelude.{◌≡◌, ◌≤◌, length};
ghost use Rattle.http_edge.specs.declared.limits.TheConstants.{MOST_FIELDS, MOST_HEAD};
ghost use Rattle.http_reply.specs.Steps.{JudgesHead};

use http_edge::{AT_START, too_many_lines};
use httparse::Status;
use httparse::spans::{HeaderSpan, ResponseSpans, parse_response};

/// What the first bytes of a reply are.
#[derive(Clone, Copy)]
pub enum HeadTurn {
    /// A head, and perhaps more.
    Whole(ResponseSpans),
    /// The beginning of a head.
    Open,
    /// Neither.
    Bad,
}

/// What the first bytes of a reply are. A parser of heads reports a field too many only once its line is whole;
/// where it wants more bytes, the lines are counted here.
pub fn read_head(buf: &[u8], spans: &mut [HeaderSpan]) -> HeadTurn
    requires room { length spans.old ≡ MOST_FIELDS }
    requires small { length buf.now ≤ MOST_HEAD }
    ensures { JudgesHead buf.now spans.new result }
{
    match parse_response(buf, spans) {
        Ok(Status::Complete(head)) => HeadTurn::Whole(head),
        Ok(Status::Partial) => {
            if too_many_lines(AT_START, buf) {
                HeadTurn::Bad
            } else {
                HeadTurn::Open
            }
        }
        Err(_) => HeadTurn::Bad,
    }
}
