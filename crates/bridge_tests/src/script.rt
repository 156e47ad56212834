//! Scripts: calls of `bridge` one after another, each line a step.

use crate::cuts::cuts_well;
use crate::lacks::lacks_well;
use crate::parts::{MEMORY, add, bytes_of, number, word};
use crate::play::{Outcome, Play};
use crate::requests::exchange;
use crate::sweeps::{fails_well, stops_well};
use edge_io::MemNet;
use edge_memory::MemDisk;
use notes::note_text;
use std::alloc::Global;
use std::mem;
use std::process::Abort;
use std::sync::Wait;
use std::thread::Threads;

/// The `open` of a sender of RELP, 61 bytes, and its answer.
pub(crate) const OPEN: &[u8] = b"1 open 50 relp_version=0\nrelp_software=a,1,b\ncommands=syslog\n";

pub(crate) const OPENED: &[u8] =
    b"1 rsp 66 200 OK\nrelp_version=0\nrelp_software=bridge,1,local\ncommands=syslog\n";

// The bytes from one offset up to another, as far as they are there.
fn part(bytes: &[u8], from: u64, end: u64) -> &[u8] {
    let end = end.min(bytes.len() as u64);
    &bytes[from.min(end) as usize..end as usize]
}

// Puts these bytes at the offset, where there has to be a place for all of them.
fn put(rt: &impl Abort, device: &mut [u8], at: u64, bytes: &[u8]) {
    assert!(rt;
        bytes.len() <= device.len() && at <= (device.len() - bytes.len()) as u64,
        "put {at}"
    );
    device[at as usize..at as usize + bytes.len()].copy_from_slice(bytes);
}

// Adds to what the next call and its peer are given, and what these have to leave. Answers whether the step says so.
fn adds(rt: &impl Abort, alloc: Global, play: &mut Play, step: &str, rest: &str) -> bool {
    match step {
        "in" => add(rt, alloc, &mut play.input, rest),
        "out" => add(rt, alloc, &mut play.output, rest),
        "replies" => add(rt, alloc, &mut play.replies, rest),
        "sent" => {
            play.links = 1;
            add(rt, alloc, &mut play.sent, rest);
        }
        "open" => {
            play.input.extend_from_slice(OPEN).expect(rt, MEMORY);
            play.output.extend_from_slice(OPENED).expect(rt, MEMORY);
        }
        _ => return false,
    }
    true
}

// Says which call of the input, the output, the peer's link or the net fails. Answers whether the step says so.
fn fails(rt: &impl Abort, play: &mut Play, step: &str, rest: &str) -> bool {
    let calls = match step {
        "read" => &mut play.reads,
        "write" => &mut play.writes,
        "peer_read" => &mut play.peer_reads,
        "peer_write" => &mut play.peer_writes,
        "dial" => &mut play.dials,
        _ => return false,
    };
    calls.push(number(rt, rest)).expect(rt, MEMORY);
    true
}

// Begins a call, or says what stands on the device or what may be left. Answers whether the step says so.
fn lays(rt: &impl Abort, alloc: Global, play: &mut Play, step: &str, rest: &str) -> bool {
    let (first, spelled) = word(rest);
    match step {
        "call" => {
            let device = mem::replace(&mut play.device, Vec::new(alloc));
            *play = Play::over(alloc, device, play.piece);
            play.words = String::from_str(alloc, rest).expect(rt, MEMORY);
        }
        "device" => {
            play.device = vec![in alloc; 0; number(rt, first) as usize].expect(rt, MEMORY);
        }
        "put" => {
            let bytes = bytes_of(rt, alloc, spelled);
            put(rt, &mut play.device, number(rt, first), &bytes);
        }
        "outcome" => {
            let written = number(rt, first);
            let lines = bytes_of(rt, alloc, spelled);
            play.outcomes
                .push(Outcome { written, lines })
                .expect(rt, MEMORY);
        }
        "leaves" => {
            let lines = bytes_of(rt, alloc, rest);
            play.outcomes
                .push(Outcome { written: 0, lines })
                .expect(rt, MEMORY);
            play.is_drain = true;
        }
        _ => return false,
    }
    true
}

// Whether the links that were hung up were so many, and were written this, one after another.
fn was_sent(net: &MemNet, links: usize, sent: &[u8]) -> bool {
    let mut rest = sent;
    for hung in net.hung() {
        match rest.strip_prefix(hung.written.as_slice()) {
            Some(more) => rest = more,
            None => return false,
        }
    }
    rest.is_empty() && net.hung().len() == links
}

// Makes the call, and answers whether it ends so and writes what is wanted.
fn ends<R: Abort + Threads + Wait + Sync>(
    rt: &R,
    alloc: Global,
    play: &mut Play,
    rest: &str,
) -> bool {
    let (status, note) = word(rest);
    let device = play.device.to_vec(alloc).expect(rt, MEMORY);
    let left = play.call(rt, alloc, MemDisk::of(device, Vec::new(alloc)));
    let text = note_text(alloc, &left.note).expect(rt, MEMORY);
    let is_told = u64::from(left.status) == number(rt, status) && text.bytes() == note.as_bytes();
    let is_sent = was_sent(&left.net, play.links, &play.sent);
    let after = left.disk.bytes().to_vec(alloc).expect(rt, MEMORY);
    let is_kept = after.len() == play.device.len();
    play.before = mem::replace(&mut play.device, after);
    is_told && is_sent && is_kept && left.output.taken() == play.output.as_slice()
}

// The numbers of a text, with a space between them; `61*0` stands for 61 of them that are 0.
fn numbers(rt: &impl Abort, alloc: Global, text: &str) -> Vec<u64> {
    let mut all = Vec::new(alloc);
    for word in text.split(' ') {
        let (count, one) = word.split_once('*').unwrap_or(("1", word));
        for _ in 0..number(rt, count) {
            all.push(number(rt, one)).expect(rt, MEMORY);
        }
    }
    all
}

// Whether these bytes stand on the device at the offset.
fn holds(rt: &impl Abort, alloc: Global, play: &Play, at: u64, spelled: &str) -> bool {
    let bytes = bytes_of(rt, alloc, spelled);
    let end = at.saturating_add(bytes.len() as u64);
    part(&play.device, at, end) == bytes.as_slice()
}

// Makes the call, or looks at what the last one left.
fn looks<R: Abort + Threads + Wait + Sync>(
    rt: &R,
    alloc: Global,
    play: &mut Play,
    step: &str,
    rest: &str,
) -> bool {
    let (first, more) = word(rest);
    match step {
        "ends" => ends(rt, alloc, play, rest),
        "same" => play.before == play.device,
        "fails" => fails_well(rt, alloc, play, first, &numbers(rt, alloc, more)),
        "stops" => stops_well(rt, alloc, play),
        "lacks" => lacks_well(rt, alloc, play),
        "cuts" => cuts_well(rt, alloc, play, &numbers(rt, alloc, rest)),
        "keeps" => {
            let (from, end) = (number(rt, first), number(rt, more));
            part(&play.before, from, end) == part(&play.device, from, end)
        }
        _ => step == "holds" && holds(rt, alloc, play, number(rt, first), more),
    }
}

/// Follows a script, with reads of at most so many bytes. Each line is a step:
///
/// - `- TEXT`: what comes next;
/// - `device SIZE`: a device of so many zeros; `put AT BYTES`: bytes that are put on it;
/// - `call WORDS`: begins a call of `bridge` over the device; `in BYTES` and `out BYTES` add to its
///   input and to the output that is wanted, and `open` adds the `open` of RELP to the one and its
///   answer to the other; `read N` and `write N`: that read of the input fails, or that write of
///   the output, from 0;
/// - `event BODY` adds a request of the collector with the token to the input, `acked BODY` one with the token that uses
///   acks and the channel, and `ask BODY` a query; `says BODY` adds its reply of status 200 to the output, `refuses
///   BODY` one of 400, and `ends_busy BODY` and `ends_malformed BODY` closing ones of 503 and of 400; `later` keeps the input and
///   the output so far for the call that comes after each one that fails or stops;
/// - `replies BYTES` adds to what the peer at the place `there` gives; `peer_read N`, `peer_write N` and
///   `dial N`: that read or write of its link, or that dial, fails, from 0; `sent BYTES` adds to what it
///   has to be written by the time that its one link is hung up, and without it none may be dialed;
/// - `ends STATUS NOTE` makes the call: so it ends, with that output, and the device keeps its
///   length;
/// - `same`, `keeps FROM END`, `holds AT BYTES`: the device, or that part of it, is as it was
///   before the call; these bytes stand on it;
/// - `outcome WRITTEN BYTES`: what the call may leave where a call of its disk, its input or its output fails, that is so
///   many bytes of the output, and what `list` prints then; the last one is what it leaves where it ends well;
///   `leaves BYTES`: the same of a session that forwards, whatever it has written, and the last one is what it leaves where
///   no call of the disk fails;
/// - `fails disk PLACES`: the call is made with each call of the disk failing once, and the last of
///   these leave the outcomes at these places; `fails input PLACES`, `fails output PLACES`, `fails peer_read PLACES`, `fails
///   peer_write PLACES` and `fails dial PLACES`: the same of each read of the input, write of the output, read or write of the
///   peer's link and dial, of which all leave these, and `61*0` stands for 61 places 0; `stops`: it is made with the machine
///   stopped at each call of the disk;
/// - `lacks`: the call is made where one call for memory may be refused, and leaves one of the outcomes, the last one where it ends well;
/// - `cuts ENDS`: the call is made with its input cut after each number of its bytes, from none to all; its frames end at
///   these places, and the outcomes are those of no frame, of the first one, and so on.
pub(crate) fn run_script<R: Abort + Threads + Wait + Sync>(
    rt: &R,
    alloc: Global,
    script: &str,
    piece: usize,
) {
    let mut play = Play::over(alloc, Vec::new(alloc), piece);
    for line in script.lines() {
        let (step, rest) = word(line);
        let is_set = step.is_empty()
            || step == "-"
            || adds(rt, alloc, &mut play, step, rest)
            || fails(rt, &mut play, step, rest)
            || exchange(rt, alloc, &mut play, step, rest)
            || lays(rt, alloc, &mut play, step, rest);
        assert!(rt;
            is_set || looks(rt, alloc, &mut play, step, rest),
            "{line} (reads of {piece} bytes)"
        );
    }
}

/// Follows a script once for each number in its first line, with reads of at most so many bytes. The lines after it are the steps.
pub(crate) fn run_scripts<R: Abort + Threads + Wait + Sync>(rt: &R, alloc: Global, script: &str) {
    let (pieces, steps) = script.split_once('\n').expect(rt, "a first line");
    for piece in &numbers(rt, alloc, pieces) {
        run_script(rt, alloc, steps, *piece as usize);
    }
}
