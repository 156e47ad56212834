//! Serving one connection.
ghost use Rattle.std.specs.Prelude.{◌≡◌, ◌≢◌, ◌⊎◌, ◌+◌, ◌<◌, ◌≤◌, ◌^◌, ℕ, List, [], length, Option, IfSome, IfNone};
ghost use Rattle.std.specs.Io.KnownBytes.{Appends, IsAtEnd};
ghost use Rattle.desk_access.specs.Call.{Call};
ghost use Rattle.desk_access.specs.Endings.{IsByFault, IsAtEndOfInput};
ghost use Rattle.conn_serve.specs.Done.{Done, Leads, SoFar};
ghost use Rattle.conn_serve.specs.Endings.{MayEnd, CountsFaults};
ghost use Rattle.conn_serve.specs.Says.{HasCarried, MaySay};
ghost use Rattle.conn_serve.specs.Serves.{CarriedBy, Serves};

use crate::connection::Connection;
use crate::feed::{buffer, fit, heard, may_be_long, turn};
use crate::hec::session::HecSession;
use crate::lumberjack::session::LumberSession;
use crate::relp::session::RelpSession;
use crate::rules::Rules;
use crate::session::Session;
use desk_access::Access;
use edge_io::{Link, Proto};
use event_form::{Attended, Talk};
use std::alloc::Global;

/// How many bytes a connection may have.
const LIMIT: u64 = 1 << 40;

// Whether the input is over, where no frame waits and the last read brought `len` bytes: by a fault of the bytes,
// or because there were none. The answer is how the connection would end; None: it goes on.
fn over<S: Session>(session: &S, len: usize) -> Option<Talk>
    requires idle { S.idle session.now }

    ensures closing { IfSome result (λ talk. (number : ℕ) (left : Option (List ℕ)) (fed : List ℕ) (calls : List Call) (text : List ℕ) → (len ≡ 0 → IsAtEnd left)
        → S.served number session.now fed calls text → S.closing number session.now left talk fed calls text) }
    ensures only { IfSome result (λ talk. IsByFault talk ⊎ IsAtEndOfInput talk) }
    ensures may_end { IfNone result ((number : ℕ) → MayEnd (S.served number session.now) (S.carried (S.terms session.now) number)) }
    ensures more { IfNone result (0 < len) }
{
    if let Some(talk) = session.fault() {
        return Some(talk);
    }
    if len == 0 { Some(session.end()) } else { None }
}

// The input is over, and would end the connection with `over`. Does what is still to be done for that, as a last
// batch or a reply, and answers how the connection ends: so, or by what failed in this.
fn close<L: Link, A: Access, S: Session>(
    link: &mut L,
    access: &mut A,
    connection: &mut Connection,
    session: &mut S,
    over: Talk,
) -> Talk
    requires so_far { SoFar (S.served connection.old.number session.old) connection.old.taken 0 }
    requires may { A.may_take access.old connection.old.number connection.old.taken }
    requires only { IsByFault over ⊎ IsAtEndOfInput over }
    requires says { MaySay (A.ran access.old) (L.permits link.old) (L.taken link.old) (λ calls text. (left : Option (List ℕ))
        → Leads connection.old.taken (S.closing connection.old.number session.old left over)
        (HasCarried (S.carried (S.terms session.old) connection.old.number)) calls text) }

    ensures closes { Done (λ calls. A.ran access.old calls access.new) (L.taken link.old) (L.taken link.new)
        connection.old.taken connection.new.taken (λ calls text. (left : Option (List ℕ)) → Leads connection.old.taken
        (S.closing connection.old.number session.old left over)
        (λ fed called said. S.carried (S.terms session.old) connection.old.number left fed called said result) calls text) }
    ensures unread { result ≢ Talk.ReadFault }
    ensures writes { CountsFaults (result ≡ Talk.WriteFault) (L.write_faults link.old) (L.write_faults link.new) }
    ensures same { L.same link.old link.new }
    ensures apart { L.write_apart link.old link.new }
{
    match session.finish(link, access, connection, over) {
        Ok(()) => over,
        Err(talk) => talk,
    }
}

// Serves the connection to its end. The order in which endings are judged stands here: what a frame
// that waits asks for, then the fault of the bytes, the end of the input, a read that fails, and the
// most bytes that a connection may have. Each read fills `buf` from its beginning; `buf` is fitted to what comes, by whether the events of
// one piece are stored as one group, and whether what comes is read past.
fn run<L: Link, A: Access, S: Session>(
    alloc: Global,
    link: &mut L,
    access: &mut A,
    connection: &mut Connection,
    session: &mut S,
    group: bool,
    buf: &mut Vec<u8>,
) -> Talk
    requires some { 0 < length buf.old.items }
    requires start { S.served connection.old.number session.old [] [] [] }
    requires idle { S.idle session.old }
    requires unfed { S.extent session.old ≡ 0 }
    requires may_end { MayEnd (S.served connection.old.number session.old) (S.carried (S.terms session.old) connection.old.number) }
    requires first { connection.old.taken ≡ 0 }
    requires may { A.may_take access.old connection.old.number 0 }
    requires says { (read : L) (bytes : List ℕ) → L.same link.old read → Appends (L.given link.old) (L.given read) bytes
        → MaySay (A.ran access.old) (L.permits read) (L.taken link.old)
        (HasCarried (S.carried (S.terms session.old) connection.old.number) bytes) }

    ensures serves { Serves (S.carried (S.terms session.old) connection.old.number) (L.given link.old) (L.given link.new) (L.left link.old) (L.left link.new)
        (L.taken link.old) (L.taken link.new) (λ calls. A.ran access.old calls access.new) (record { talk = result; taken = connection.new.taken }) }
    ensures reads { CountsFaults (result ≡ Talk.ReadFault) (L.read_faults link.old) (L.read_faults link.new) }
    ensures writes { CountsFaults (result ≡ Talk.WriteFault) (L.write_faults link.old) (L.write_faults link.new) }
    ensures same { L.same link.old link.new }
{
    let mut total = 0;
    while total < LIMIT {
        let room = (LIMIT - total).min(buf.len() as u64) as usize;
        let len = match turn(alloc, link, access, connection, session, &mut buf[..room]) {
            Ok(len) => len,
            Err(talk) => return talk,
        };
        total += len as u64;
        if let Some(talk) = over(session, len) {
            return close(link, access, connection, session, talk);
        }
        let came = heard(link, buf.len(), len);
        let long = may_be_long(group, session);
        fit(alloc, buf, long, came);
    }
    Talk::TooMuch { at: LIMIT }
}

// Serves the connection as `attend` does. Each read fills `buf` from its beginning, and asks for no more than it has.
fn attend_by<L: Link, A: Access>(
    alloc: Global,
    link: &mut L,
    rules: &Rules,
    access: &mut A,
    conn: u64,
    buf: &mut Vec<u8>,
) -> Attended
    requires some { 0 < length buf.old.items }
    requires may { A.may_take access.old conn 0 }
    requires says { (read : L) (bytes : List ℕ) → L.same link.old read → Appends (L.given link.old) (L.given read) bytes
        → MaySay (A.ran access.old) (L.permits read) (L.taken link.old) (HasCarried (CarriedBy rules.now conn) bytes) }

    ensures carried { Serves (CarriedBy rules.now conn) (L.given link.old) (L.given link.new) (L.left link.old) (L.left link.new)
        (L.taken link.old) (L.taken link.new) (λ calls. A.ran access.old calls access.new) result }
    ensures reads { CountsFaults (result.talk ≡ Talk.ReadFault) (L.read_faults link.old) (L.read_faults link.new) }
    ensures writes { CountsFaults (result.talk ≡ Talk.WriteFault) (L.write_faults link.old) (L.write_faults link.new) }
    ensures same { L.same link.old link.new }
{
    let mut connection = Connection {
        number: conn,
        taken: 0,
    };
    let talk = match rules.proto {
        Proto::Relp => match RelpSession::new(alloc, rules.group) {
            Ok(mut session) => run(
                alloc,
                link,
                access,
                &mut connection,
                &mut session,
                rules.group,
                buf,
            ),
            Err(_) => Talk::NoMemory,
        },
        Proto::Lumberjack => match LumberSession::new(alloc) {
            Ok(mut session) => run(
                alloc,
                link,
                access,
                &mut connection,
                &mut session,
                rules.group,
                buf,
            ),
            Err(_) => Talk::NoMemory,
        },
        Proto::Hec => match HecSession::new(
            alloc,
            rules.token,
            rules.ack_token,
            rules.listed.share(),
        ) {
            Ok(mut session) => run(
                alloc,
                link,
                access,
                &mut connection,
                &mut session,
                rules.group,
                buf,
            ),
            Err(_) => Talk::NoMemory,
        },
    };
    Attended {
        talk,
        taken: connection.taken,
    }
}

/// Serves one connection to its end, by the protocol of the rules. It reads pieces of at most 8,192 bytes, or
/// of 65,536 where the rules say that events of one piece are stored together, the pieces before were full, no body is read past and the
/// peer isn't silent, tells
/// the link what memory that takes, and does what the protocol's table says for each whole frame, one after another. `conn` is the connection's number in the spool; its
/// entries are counted from 0. Each text is written as one piece. `carried` says which bytes were read, each a
/// number below 256, which calls were made on the desk, which bytes were written, and how many entries were
/// taken.
///
/// `says` is the leave to write, which the caller gives: once these bytes were read from the link and these calls
/// made on the desk, the link may take what a connection by these rules has written by then that ends there, at once
/// or after calls that promise nothing (`HasCarried`). No other text is written, also where `attend` never returns:
/// no answer before the calls that it goes with were made and so answered, none to a frame that wasn't read, and
/// none twice.
///
/// - RELP, as rsyslog's RELP specification, version 0, has it: a `syslog` is taken into the spool as one
///   group of one entry, and answered once it is durable. The unit of an entry is its frame's transaction
///   number. Where the rules say so, `syslog`s that stand one after another and that one read brought are taken
///   as one group, 512 of them at most, and their answers are written as one text; several have texts of at
///   most 131,136 bytes together. Where the spool has no room for all, the first of them are a group.
/// - Lumberjack, as Elastic's protocol document, version 2, has it: events are staged, and each batch of
///   them is taken as one group and then acknowledged with the sequence number of its last frame. The
///   unit of an entry is its frame's sequence number. Where the input is over, by its end or by a fault,
///   what is staged is one last batch. At `ReadFault`, `WriteFault`, `TooMuch` and `NoMemory` it is given
///   up.
/// - HEC, as Splunk's HTTP Event Collector has it, by the tokens of the rules: a request's events are taken
///   as one group and then answered Success; by a token with acks an id is issued and said with Success,
///   the events are taken with it as their unit, and it is settled. At a fault of the bytes a reply says so.
///
/// Endings, in the order in which they are judged: what a whole frame asks for that isn't carried whole
/// (`WriteFault`; `Full`, `TooLarge` and `Spent`, with RELP's hint written and no answer; `DiskFault`,
/// `NotSpool` and `NoMemory`, with nothing written; at these but `NoMemory`, and at `Busy` and `NoMore`,
/// HEC writes a closing reply, unless Success was said with an id; `Closed`, where a `close` of RELP was
/// answered, with the hint, or a request of HEC that closes, and bytes after it are dropped); the fault of
/// the bytes; the end of the input, `Ended` at a frame's end and else `Truncated`; a read that fails; and
/// `TooMuch` once 2^40 bytes were read. Where the last batch isn't stored or acknowledged whole, or the
/// reply at a fault isn't said whole, that is the ending in place of the fault or the end.
/// `Ended` and `Truncated` come only where the input was read to its end, `ReadFault` and `WriteFault` only
/// where the link's count rose. `NoMemory` may come at the beginning, with nothing read, and at any frame.
pub fn attend<L: Link, A: Access>(
    alloc: Global,
    link: &mut L,
    rules: &Rules,
    access: &mut A,
    conn: u64,
) -> Attended
    requires may { A.may_take access.old conn 0 }
    requires says { (read : L) (bytes : List ℕ) → L.same link.old read → Appends (L.given link.old) (L.given read) bytes
        → MaySay (A.ran access.old) (L.permits read) (L.taken link.old) (HasCarried (CarriedBy rules.now conn) bytes) }

    ensures carried { Serves (CarriedBy rules.now conn) (L.given link.old) (L.given link.new) (L.left link.old) (L.left link.new)
        (L.taken link.old) (L.taken link.new) (λ calls. A.ran access.old calls access.new) result }
    ensures reads { CountsFaults (result.talk ≡ Talk.ReadFault) (L.read_faults link.old) (L.read_faults link.new) }
    ensures writes { CountsFaults (result.talk ≡ Talk.WriteFault) (L.write_faults link.old) (L.write_faults link.new) }
    ensures same { L.same link.old link.new }
{
    let Ok(mut buf) = buffer(alloc) else {
        return Attended {
            talk: Talk::NoMemory,
            taken: 0,
        };
    };
    attend_by(alloc, link, rules, access, conn, &mut buf)
}
