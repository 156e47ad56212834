//! Senders that wait for each answer before they send on.
ghost use Rattle.std.specs.Prelude.{◌≡◌, ◌≤◌, None, false, length, refl};

use crate::parts::MEMORY;
use crate::script::{OPEN, OPENED};
use conn_serve::{Rules, attend};
use desk_access::Access;
use edge_io::{Link, Object, Proto, ReadFault, Sink, Source, WriteFault};
use edge_memory::MemDisk;
use hec_ids::Ids;
use hec_tokens::TokenList;
use notes::Note;
use spool_desk::{Alone, Desk};
use spool_log::{Opening, Spool, format};
use std::alloc::Global;
use std::process::Abort;

/// What a sender sends at once, and the answer that it waits for before it sends the next.
type Turn<'a> = (&'a [u8], &'a [u8]);

const RELP: &[Turn] = &[
    (OPEN, OPENED),
    (b"2 syslog 5 hello\n", b"2 rsp 6 200 OK\n"),
    (b"3 syslog 3 you\n", b"3 rsp 6 200 OK\n"),
    (b"4 close 0\n", b"4 rsp 0\n0 serverclose 0\n"),
];

const LUMBERJACK: &[Turn] = &[
    (
        b"2W\0\0\0\x022J\0\0\0\x01\0\0\0\x02{}2J\0\0\0\x02\0\0\0\x02{}",
        b"2A\0\0\0\x02",
    ),
    (b"2W\0\0\0\x012J\0\0\0\x01\0\0\0\x02{}", b"2A\0\0\0\x01"),
];

const HEC: &[Turn] = &[
    (
        b"POST /services/collector HTTP/1.1\r\nAuthorization: Splunk 11111111-2222-3333-4444-555555555555\r\n\
        Content-Length: 13\r\nExpect: 100-continue\r\n\r\n",
        b"HTTP/1.1 100 Continue\r\n\r\n",
    ),
    (
        b"{\"event\":\"a\"}",
        b"HTTP/1.1 200 OK\r\nContent-Type: application/json\r\nContent-Length: 27\r\n\r\n{\"text\":\"Success\",\"code\":0}",
    ),
    (
        b"GET /services/collector/health HTTP/1.1\r\n\r\n",
        b"HTTP/1.1 200 OK\r\nContent-Type: application/json\r\nContent-Length: 35\r\n\r\n\
        {\"text\":\"HEC is healthy\",\"code\":17}",
    ),
];

// A link to a sender that waits.
#[derive(Drop)]
struct Waiting<'a> {
    turns: &'a [Turn<'a>],
    /// How many turns were sent whole, and how many bytes of the next one were.
    sent: usize,
    at: usize,
    /// The most bytes of a read.
    piece: usize,
    /// How long the answers are that are due before the next turn.
    due: usize,
    /// What was written. Where answers come late, the last piece of it is on the way until the next
    /// one.
    written: Vec<u8>,
    on_the_way: usize,
    is_late: bool,
    read_faults: u64,
    write_faults: u64,
}

// Copies the next bytes from the place on, at most so many, and answers how many.
fn give(frames: &[u8], at: usize, most: usize, buf: &mut [u8]) -> usize
    ensures { result ≤ length buf.new }
{
    let rest = &frames[at.min(frames.len())..];
    let n = rest.len().min(buf.len()).min(most);
    buf[..n].copy_from_slice(&rest[..n]);
    n
}

impl Object for Waiting<'_> {
    ghost same = { λ _ _. Unit {0} };

    ghost same_refl = { λ _. tt };

    ghost same_trans = { λ _ _ _ _ _. tt };
}

impl Source for Waiting<'_> {
    ghost given = { λ _. None };

    ghost left = { λ _. None };

    ghost read_faults = { λ link. link.read_faults };

    ghost read_apart = { λ x y. y.write_faults ≡ x.write_faults };

    ghost read_apart_refl = { λ _. Prim.cc };

    ghost read_apart_trans = { λ x y z p q. Prim.cc };

    /// Gives the next bytes of the turn. The first read of a turn fails where an answer is due,
    /// since nothing will ever come.
    fn read(&mut self, buf: &mut [u8]) -> Result<usize, ReadFault> {
        let come = self.written.len().saturating_sub(self.on_the_way);
        if self.at == 0 && come < self.due {
            self.read_faults = self.read_faults.saturating_add(1);
            return Err(ReadFault);
        }
        let Some((frames, answer)) = self.turns.get(self.sent) else {
            return Ok(0);
        };
        let n = give(frames, self.at, self.piece, buf);
        self.at = self.at.saturating_add(n);
        if self.at >= frames.len() {
            self.at = 0;
            self.sent = self.sent.saturating_add(1);
            self.due = self.due.saturating_add(answer.len());
        }
        Ok(n)
    }
}

impl Sink for Waiting<'_> {
    ghost taken = { λ _. None };

    ghost permits = { λ _ _. Unit {0} };

    ghost write_faults = { λ link. link.write_faults };

    ghost write_apart = { λ x y. y.read_faults ≡ x.read_faults };

    ghost permits_last = { λ _ _ _. (λ _ _. tt, λ _. refl) };

    ghost apart_refl = { λ _. Prim.cc };

    ghost apart_trans = { λ x y z p q. Prim.cc };

    /// Takes the piece whole, if there is memory for it.
    fn write(&mut self, piece: &[u8]) -> Result<usize, WriteFault> {
        if self.written.extend_from_slice(piece).is_err() {
            self.write_faults = self.write_faults.saturating_add(1);
            return Err(WriteFault);
        }
        self.on_the_way = if self.is_late { piece.len() } else { 0 };
        Ok(piece.len())
    }
}

impl Link for Waiting<'_> {
    ghost dialed = { λ _. None };

    ghost reads_keep = { λ x y same. (Prim.cc, same, Prim.cc) };

    ghost writes_keep = { λ x y same. (Prim.cc, Prim.cc, same, Prim.cc) };
}

// A spool of one empty slot, opened for storing.
fn spool(rt: &impl Abort, alloc: Global) -> Spool<MemDisk>
    ensures { result.doubt ≡ false }
{
    let mut disk = MemDisk::plain(alloc, 16_384).expect(rt, MEMORY);
    format(&mut disk, 1, 4096).ok().expect(rt, "format");
    match Spool::recover(alloc, disk, Opening::Raise) {
        Ok(spool) => spool,
        Err(_) => rt.panic("recover"),
    }
}

// Serves a sender over an empty spool, and answers the note and what was written.
fn serve(
    rt: &impl Abort,
    alloc: Global,
    (proto, turns): (Proto, &'static [Turn<'static>]),
    piece: usize,
    is_late: bool,
) -> (Note, Vec<u8>) {
    let mut link = Waiting {
        turns,
        sent: 0,
        at: 0,
        piece,
        due: 0,
        written: Vec::new(alloc),
        on_the_way: 0,
        is_late,
        read_faults: 0,
        write_faults: 0,
    };
    let rules = Rules {
        proto,
        token: Some(0x1111_1111_2222_3333_4444_5555_5555_5555),
        ack_token: Some(0xaaaa_aaaa_2222_3333_4444_5555_5555_5555),
        listed: TokenList::none(),
        group: false,
    };
    let spool = spool(rt, alloc);
    let ids = Ids::new(alloc, spool.run(), 0);
    let mut access = Alone::new(Desk { spool, ids });
    let attended = attend(alloc, &mut link, &rules, &mut access, 1 << 32);
    (Note::of_talk(attended.talk), link.written)
}

// What is written to a sender that waits.
fn answers(rt: &impl Abort, alloc: Global, turns: &[Turn]) -> Vec<u8> {
    let mut all = Vec::new(alloc);
    for (_, answer) in turns {
        all.extend_from_slice(answer).expect(rt, MEMORY);
    }
    all
}

// The most bytes of a read, and whether answers come late.
const PIECES: &[(usize, bool)] = &[
    (1, false),
    (7, false),
    (8192, false),
    (1, true),
    (7, true),
    (8192, true),
];

/// A sender that waits is served to its end where each answer is written before the next read;
/// where answers come late, it waits for the first one for ever.
pub(crate) fn wait_for_answers(rt: &impl Abort, alloc: Global) {
    for sender in [
        (Proto::Relp, RELP),
        (Proto::Lumberjack, LUMBERJACK),
        (Proto::Hec, HEC),
    ] {
        let all = answers(rt, alloc, sender.1);
        for (piece, is_late) in PIECES {
            let (note, written) = serve(rt, alloc, sender, *piece, *is_late);
            let is_right = match note {
                Note::Fine => !is_late && written == all,
                Note::ReadFault => {
                    *is_late && all.starts_with(&written) && written.len() < all.len()
                }
                _ => false,
            };
            assert!(rt; is_right);
        }
    }
}
