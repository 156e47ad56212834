//! The replies with which the collector ends a connection. They are constants, so that no memory is sought for them.
ghost use Rattle.std.specs.Prelude.{◌≡◌, ℕ, List, None, true};
ghost use Rattle.std.specs.Io.KnownBytes.{Appends};
ghost use Rattle.event_form.specs.declared.talk.Talk.TheVariants.{WriteFault};
ghost use Rattle.desk_access.specs.Endings.{IsAtMove};
ghost use Rattle.edge_io.specs.Told.{MayFollow};
ghost use Rattle.conn_serve.specs.Endings.{CountsFaults};
ghost use Rattle.conn_serve.specs.Hec.{reply, refusal, unissued, talk_of_issue};
ghost use Rattle.conn_serve.specs.HecServing.{EndsSaying, code_of};
ghost use Rattle.conn_serve.specs.Relp.{talk_of};

use crate::talk::{say, talk_of};
use edge_io::Link;
use event_form::Talk;
use hec_ids::IssueFault;
use spool_answers::TakeFault;

/// A reply that says why the connection ends ("Troubleshoot HTTP Event Collector", possible error codes; RFC 9110,
/// section 15).
#[derive(Clone, Copy)]
pub enum LastReply {
    /// 503 with code 9: there is no room for the events, or for their ids.
    Busy,
    /// 500 with code 8: the events can't be stored.
    Failed,
    /// 400 with code 6: the bytes are no request.
    Malformed,
}

impl LastReply {
    /// The text of the reply, which closes the connection.
    pub fn text(self) -> &'static [u8]
        ensures { result.now ≡ reply (code_of self) None true }
    {
        match self {
            LastReply::Busy => {
                b"HTTP/1.1 503 Service Unavailable\r\n\
                Content-Type: application/json\r\n\
                Content-Length: 34\r\n\
                Connection: close\r\n\
                \r\n\
                {\"text\":\"Server is busy\",\"code\":9}"
            }
            LastReply::Failed => {
                b"HTTP/1.1 500 Internal Server Error\r\n\
                Content-Type: application/json\r\n\
                Content-Length: 41\r\n\
                Connection: close\r\n\
                \r\n\
                {\"text\":\"Internal server error\",\"code\":8}"
            }
            LastReply::Malformed => {
                b"HTTP/1.1 400 Bad Request\r\n\
                Content-Type: application/json\r\n\
                Content-Length: 39\r\n\
                Connection: close\r\n\
                \r\n\
                {\"text\":\"Invalid data format\",\"code\":6}"
            }
        }
    }
}

// Says this as the connection's last reply, and answers how the connection ends: so, unless the reply is cut short.
fn say_last<L: Link>(link: &mut L, last: LastReply, over: Talk) -> Talk
    requires ends { IsAtMove over }
    requires other { over ≡ WriteFault → ⊥ }
    requires permitted { MayFollow (L.permits link.old) (L.taken link.old) (reply (code_of last) None true) }

    ensures ends { (part : List ℕ) × Appends (L.taken link.old) (L.taken link.new) part × EndsSaying (reply (code_of last) None true) over part result }
    ensures only { IsAtMove result }
    ensures writes { CountsFaults (result ≡ WriteFault) (L.write_faults link.old) (L.write_faults link.new) }
    ensures same { L.same link.old link.new }
    ensures apart { L.write_apart link.old link.new }
{
    match say(link, last.text()) {
        Ok(()) => over,
        Err(talk) => talk,
    }
}

/// Ends the connection by a take that wasn't answered Ok, before which nothing was said: 503 where there is no
/// room, 500 where the disk failed or the device is no spool, and nothing for want of memory.
pub fn refuse<L: Link>(link: &mut L, fault: TakeFault) -> Talk
    requires permitted { MayFollow (L.permits link.old) (L.taken link.old) (refusal fault) }

    ensures ends { (part : List ℕ) × Appends (L.taken link.old) (L.taken link.new) part × EndsSaying (refusal fault) (talk_of fault) part result }
    ensures only { IsAtMove result }
    ensures writes { CountsFaults (result ≡ WriteFault) (L.write_faults link.old) (L.write_faults link.new) }
    ensures same { L.same link.old link.new }
    ensures apart { L.write_apart link.old link.new }
{
    match fault {
        TakeFault::TooLarge { .. } | TakeFault::Spent { .. } | TakeFault::Full { .. } => {
            say_last(link, LastReply::Busy, talk_of(fault))
        }
        TakeFault::NotSpool { .. } | TakeFault::DiskFault => {
            say_last(link, LastReply::Failed, talk_of(fault))
        }
        TakeFault::NoMemory => Talk::NoMemory,
    }
}

/// Ends the connection by an id that wasn't issued: 503 where the table of ids is full, or the ids of the run are
/// spent, and nothing for want of memory.
pub fn refuse_id<L: Link>(link: &mut L, fault: IssueFault) -> Talk
    requires permitted { MayFollow (L.permits link.old) (L.taken link.old) (unissued fault) }

    ensures ends { (part : List ℕ) × Appends (L.taken link.old) (L.taken link.new) part × EndsSaying (unissued fault) (talk_of_issue fault) part result }
    ensures only { IsAtMove result }
    ensures writes { CountsFaults (result ≡ WriteFault) (L.write_faults link.old) (L.write_faults link.new) }
    ensures same { L.same link.old link.new }
    ensures apart { L.write_apart link.old link.new }
{
    match fault {
        IssueFault::NoMore { run } => say_last(link, LastReply::Busy, Talk::NoMore { run }),
        IssueFault::Busy { held } => say_last(link, LastReply::Busy, Talk::Busy { held }),
        IssueFault::NoMemory => Talk::NoMemory,
    }
}
