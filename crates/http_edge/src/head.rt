//! A head that is whole, or not yet.
ghost use Rattle.std.specs.Prelude.{◌≡◌, ◌≤◌, List, ℕ, length};
ghost use Rattle.http_edge.specs.Fields.{closes};
ghost use Rattle.http_edge.specs.declared.limits.TheConstants.{MOST_FIELDS, MOST_HEAD};
ghost use Rattle.http_edge.specs.LineCount.{at_start};
ghost use Rattle.http_edge.specs.Steps.{JudgesHead};
ghost use Rattle.http_edge.specs.Waits.{with_body};

use crate::field::Fields;
use crate::lines::{AT_START, too_many_lines};
use crate::request::{HttpRequest, is_last};
use event_form::Blob;
use httparse::Status;
use httparse::spans::{HeaderSpan, RequestSpans, parse_request};

/// A request but for its body.
#[derive(Drop)]
pub struct Head {
    pub method: Blob,
    pub target: Blob,
    pub minor: u8,
    pub fields: Fields,
}

impl Head {
    /// The request with this body.
    pub fn with_body(self, body: Vec<u8>) -> HttpRequest
        ensures { result ≡ record { method = self.method; target = self.target; minor = self.minor; fields = self.fields; body = body.items } }
    {
        HttpRequest {
            method: self.method,
            target: self.target,
            minor: self.minor,
            fields: self.fields,
            body: Blob::of(body),
        }
    }

    /// Whether the connection ends with the answer to the request, as [`HttpRequest::closes`] has it. It
    /// takes no memory.
    pub fn closes(&self) -> bool
        ensures { (body : List ℕ) → result ≡ closes (with_body self.now body) }
    {
        is_last(self.minor, self.method.bytes(), self.fields.as_slice())
    }
}

/// What the first bytes of a request are.
#[derive(Clone, Copy)]
pub enum HeadTurn {
    /// A head, and perhaps more.
    Whole(RequestSpans),
    /// The beginning of a head.
    Open,
    /// Neither.
    Bad,
}

/// What the first bytes of a request are. A parser of heads reports a field too many only once its line
/// is whole; where it wants more bytes, the lines are counted here.
pub fn read_head(buf: &[u8], spans: &mut [HeaderSpan]) -> HeadTurn
    requires room { length spans.old ≡ MOST_FIELDS }
    requires small { length buf.now ≤ MOST_HEAD }
    ensures { JudgesHead buf.now spans.new result }
{
    match parse_request(buf, spans) {
        Ok(Status::Complete(head)) => HeadTurn::Whole(head),
        Ok(Status::Partial) => {
            if too_many_lines(AT_START, buf) {
                HeadTurn::Bad
            } else {
                HeadTurn::Open
            }
        }
        Err(_) => HeadTurn::Bad,
    }
}
