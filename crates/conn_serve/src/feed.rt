//! How a session gets the bytes of its connection.
ghost use Rattle.std.specs.Prelude.{◌≡◌, ◌↔◌, ◌⊎◌, ◌+◌, ◌<◌, ◌≤◌, ◌^◌, ℕ, List, ◌++◌, Option, None, length, IfOk, IfErr, OnOk, IsErrOf, IsTrue};
ghost use Rattle.std.specs.Io.KnownBytes.{Appends, IsAtEnd, ReadConsumes, WriteAppends};
ghost use Rattle.foundation.specs.Faults.{HasCause};
ghost use Rattle.desk_access.specs.Endings.{IsAtMove};
ghost use Rattle.conn_serve.specs.Done.{AreBytes, Done, Leads, LeadsOn, SoFar, Turn, told};
ghost use Rattle.conn_serve.specs.Endings.{CountsFaults, MayEnd};
ghost use Rattle.conn_serve.specs.Says.{HasCarried, MaySay};
ghost use Rattle.conn_serve.specs.Terms.{next_piece, short_piece};

use crate::connection::Connection;
use crate::session::Session;
use desk_access::Access;
use edge_io::{Link, ReadFault};
use event_form::Talk;
use std::alloc::{AllocError, Global};

// How many bytes the reads of a connection ask for at most until one of them is full: more than a short event takes with its frame.
const FIRST_PIECE: usize = 1_024;

// How many bytes a read asks for at most.
const PIECE: usize = 8_192;

// How many it asks for where much comes and the events that it brings are stored as one group: some 550 events of 100 bytes, where a
// group has 512 at most.
const LONG_PIECE: usize = 65_536;

// How many bytes a read brings at most after which the next one asks for no more than `PIECE`.
const SHORT_PIECE: usize = 4_096;

/// The memory that the first reads of a connection fill, each from its beginning. The only error is want of memory.
pub fn buffer(alloc: Global) -> Result<Vec<u8>, AllocError>
    ensures { IfOk result (λ buf. length buf.items ≡ 1024) }
{
    vec![in alloc; 0; FIRST_PIECE]
}

// How many bytes a short read asks for at most, after one that asked for `asked` and brought `came`.
fn short_piece(asked: usize, came: usize) -> usize
    ensures { result ≡ short_piece asked came }
{
    if asked < PIECE && came < asked {
        asked
    } else {
        PIECE
    }
}

// How many bytes the next read asks for at most, after one that asked for `asked` and brought `came`.
fn next_piece(group: bool, asked: usize, came: usize) -> usize
    ensures { result ≡ next_piece group asked came }
{
    if !group || came <= SHORT_PIECE {
        short_piece(asked, came)
    } else if came < asked {
        asked
    } else {
        LONG_PIECE
    }
}

/// How many bytes a read brought, as the next one is fitted to it: none where it asked for many and the peer has been silent since.
pub fn heard<L: Link>(link: &L, asked: usize, came: usize) -> usize
    ensures { (result ≡ came) ⊎ ((8192 < asked) × (result ≡ 0)) }
{
    if asked > PIECE && link.is_silent() {
        0
    } else {
        came
    }
}

/// Whether the next read may ask for many bytes: the events of one piece are stored as one group, and no body is read past.
pub fn may_be_long<S: Session>(group: bool, session: &S) -> bool
    ensures { IsTrue result ↔ (IsTrue group × (S.passes session.now → ⊥)) }
{
    group && !session.is_passing()
}

/// Fits the memory of reads to what the last one brought, so that a connection which is quiet keeps little of it: it is as long as the
/// next read asks for, or as before where no memory is found.
pub fn fit(alloc: Global, buf: &mut Vec<u8>, group: bool, came: usize)
    ensures { (length buf.new.items ≡ next_piece group (length buf.old.items) came) ⊎ (buf.new.items ≡ buf.old.items) }
{
    let len = next_piece(group, buf.len(), came);
    if len != buf.len()
        && let Ok(other) = vec![in alloc; 0; len]
    {
        *buf = other;
    }
}

/// Takes in a piece that was read, to its end: feeds as much of it as there is room for and serves the
/// frames that are whole by then, in turn. What it writes for them, a connection may have written that has
/// read the whole piece and ends there. The error is the ending of the connection. That each number of the
/// piece is below 256, which its type says, is a clause for the caller.
pub fn take_in<L: Link, A: Access, S: Session>(
    alloc: Global,
    link: &mut L,
    access: &mut A,
    connection: &mut Connection,
    session: &mut S,
    piece: &[u8],
) -> Result<(), Talk>
    requires idle { S.idle session.old }
    requires fits { S.extent session.old + length piece.now ≤ 2 ^ 40 }
    requires so_far { SoFar (S.served connection.old.number session.old) connection.old.taken (length piece.now) }
    requires may { A.may_take access.old connection.old.number connection.old.taken }
    requires says { MaySay (A.ran access.old) (L.permits link.old) (L.taken link.old) (Leads connection.old.taken
        (S.served connection.old.number session.old)
        (λ fed. HasCarried (S.carried (S.terms session.old) connection.old.number) (fed ++ piece.now))) }

    ensures goes { OnOk result (Done (λ calls. A.ran access.old calls access.new) (L.taken link.old) (L.taken link.new)
        connection.old.taken connection.new.taken (LeadsOn connection.old.taken piece.now (S.served connection.old.number session.old)
        (S.served connection.old.number session.new))) }
    ensures halts { IfErr result (λ talk. Done (λ calls. A.ran access.old calls access.new) (L.taken link.old) (L.taken link.new)
        connection.old.taken connection.new.taken (LeadsOn connection.old.taken piece.now (S.served connection.old.number session.old)
        (λ fed calls text. (left : Option (List ℕ)) → S.carried (S.terms session.old) connection.old.number left fed calls text talk))) }
    ensures bytes { AreBytes piece.now }
    ensures only { IfErr result IsAtMove }
    ensures idle { OnOk result (S.idle session.new) }
    ensures extent { OnOk result (S.extent session.new ≤ S.extent session.old + length piece.now) }
    ensures terms { OnOk result (S.terms session.new ≡ S.terms session.old) }
    ensures number { connection.new.number ≡ connection.old.number }
    ensures may { OnOk result (A.may_take access.new connection.old.number connection.new.taken) }
    ensures writes { CountsFaults (IsErrOf result Talk.WriteFault) (L.write_faults link.old) (L.write_faults link.new) }
    ensures same { L.same link.old link.new }
    ensures apart { L.write_apart link.old link.new }
{
    let mut fed = 0;
    while fed < piece.len() {
        fed += session.feed(&piece[fed..]);
        session.serve(alloc, link, access, connection)?;
    }
    Ok(())
}

// Reads once, as the link does, and claims what memory the session takes: before the read for what it holds, and after it for what it
// is then fed, of which nothing is served before there is room. Before a short read the session gives back first what it doesn't need.
fn read_next<L: Link, S: Session>(
    link: &mut L,
    session: &mut S,
    buf: &mut [u8],
) -> Result<usize, ReadFault>
    requires some { 0 < length buf.old }
    ensures bound { IfOk result (λ n. n ≤ length buf.new) }
    ensures given { WriteAppends (L.given link.old) (L.given link.new) result buf.new }
    ensures left { ReadConsumes (L.left link.old) (L.left link.new) result buf.new }
    ensures cause { HasCause (L.read_faults link.old) (L.read_faults link.new) result }
    ensures same { L.same link.old link.new }
    ensures apart { L.read_apart link.old link.new }
    ensures rests { session.new ≡ session.old }
{
    let asked = buf.len();
    session.rest(asked);
    link.claim(session.need(asked, 0));
    let len = match link.read(buf) {
        Ok(len) => len,
        Err(fault) => return Err(fault),
    };
    link.claim(session.need(asked, len));
    Ok(len)
}

/// Reads once, at most as many bytes as `buf` has, and takes in what came. Answers how many bytes it was; 0 is the
/// end of the input. `says` is of each piece that the read may bring. The error is the ending of the connection.
pub fn turn<L: Link, A: Access, S: Session>(
    alloc: Global,
    link: &mut L,
    access: &mut A,
    connection: &mut Connection,
    session: &mut S,
    buf: &mut [u8],
) -> Result<usize, Talk>
    requires some { 0 < length buf.old }
    requires idle { S.idle session.old }
    requires fits { S.extent session.old + length buf.old ≤ 2 ^ 40 }
    requires so_far { SoFar (S.served connection.old.number session.old) connection.old.taken (length buf.old) }
    requires may { A.may_take access.old connection.old.number connection.old.taken }
    requires says { (read : L) (piece : List ℕ) → L.same link.old read → Appends (L.given link.old) (L.given read) piece
        → MaySay (A.ran access.old) (L.permits read) (L.taken link.old) (Leads connection.old.taken
        (S.served connection.old.number session.old)
        (λ fed. HasCarried (S.carried (S.terms session.old) connection.old.number) (fed ++ piece))) }
    requires may_end { MayEnd (S.served connection.old.number session.old) (S.carried (S.terms session.old) connection.old.number) }

    ensures room { IfOk result (λ len. len ≤ length buf.old) }
    ensures goes { IfOk result (λ len. Turn (λ calls. A.ran access.old calls access.new)
        (told (L.given link.old) (L.left link.old) (L.taken link.old))
        (told (L.given link.new) (L.left link.new) (L.taken link.new)) connection.old.taken connection.new.taken
        (λ piece calls text. (length piece ≡ len) × LeadsOn connection.old.taken piece (S.served connection.old.number session.old)
        (S.served connection.old.number session.new) calls text)) }
    ensures halts { IfErr result (λ talk. Turn (λ calls. A.ran access.old calls access.new)
        (told (L.given link.old) (L.left link.old) (L.taken link.old))
        (told (L.given link.new) (L.left link.new) (L.taken link.new)) connection.old.taken connection.new.taken
        (λ piece calls text. LeadsOn connection.old.taken piece (S.served connection.old.number session.old)
        (λ fed called said. S.carried (S.terms session.old) connection.old.number (L.left link.new) fed called said talk) calls text)) }
    ensures end { IfOk result (λ len. len ≡ 0 → IsAtEnd (L.left link.new)) }
    ensures only { IfErr result (λ talk. (talk ≡ Talk.ReadFault) ⊎ IsAtMove talk) }
    ensures idle { OnOk result (S.idle session.new) }
    ensures extent { IfOk result (λ len. S.extent session.new ≤ S.extent session.old + len) }
    ensures terms { OnOk result (S.terms session.new ≡ S.terms session.old) }
    ensures number { connection.new.number ≡ connection.old.number }
    ensures may { OnOk result (A.may_take access.new connection.old.number connection.new.taken) }
    ensures reads { CountsFaults (IsErrOf result Talk.ReadFault) (L.read_faults link.old) (L.read_faults link.new) }
    ensures writes { CountsFaults (IsErrOf result Talk.WriteFault) (L.write_faults link.old) (L.write_faults link.new) }
    ensures same { L.same link.old link.new }
    ensures lasts { L.taken link.old ≡ None → L.taken link.new ≡ None }
{
    let len = match read_next(link, session, buf) {
        Ok(len) => len,
        Err(_) => return Err(Talk::ReadFault),
    };
    match take_in(alloc, link, access, connection, session, &buf[..len]) {
        Ok(()) => Ok(len),
        Err(talk) => Err(talk),
    }
}
