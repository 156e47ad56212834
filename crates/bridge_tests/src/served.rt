//! `serve` over doors in memory: what it prints, and what each call that fails leaves.

use crate::failing::{
    DISK, Failing, NET, OUTPUT, PEER_READ, PEER_WRITE, READ, WRITE, calls_of, net,
};
use crate::parts::MEMORY;
use crate::places::{EVENTS, GROUPED, WORDS};
use crate::play::{Left, formatted, made, plain};
use crate::talks::{are_kept, talks_end};
use edge_disk::Disk;
use edge_io::{MemNet, MemSink, MemSource, Net, Sink};
use edge_memory::MemDisk;
use notes::Note;
use std::alloc::Global;
use std::process::Abort;
use std::sync::Wait;
use std::thread::Threads;

/// What is printed where no call fails.
const LINE: &[u8] = b"3 talks, 7 taken, 7 confirmed, 0 left\n";

/// How the last frame ends that a session writes.
const CLOSE: &[u8] = b" close 0\n";

/// The sessions with the peer.
#[derive(Drop)]
pub(crate) struct Sessions {
    /// What was written in all of them.
    pub sent: Vec<u8>,
    /// Whether one of them ended before its `close` was written, and whether the last one did.
    pub has_cut: bool,
    pub is_cut: bool,
}

/// What a run left.
#[derive(Drop)]
pub(crate) struct Served {
    pub left: Left,
    /// Whether it was one with `--group`.
    pub is_grouped: bool,
    pub sessions: Sessions,
    /// The events that are pending, a line each.
    pub pending: Vec<u8>,
    /// Whether the call of the disk, the net or the output that is to fail comes only after the run.
    pub comes_next: bool,
}

fn sessions_of(rt: &impl Abort, alloc: Global, net: &MemNet) -> Sessions {
    let mut sent = Vec::new(alloc);
    let (mut has_cut, mut is_cut) = (false, false);
    for hung in net.hung() {
        sent.extend_from_slice(&hung.written).expect(rt, MEMORY);
        is_cut = !hung.written.ends_with(CLOSE);
        has_cut = has_cut || is_cut;
    }
    Sessions {
        sent,
        has_cut,
        is_cut,
    }
}

// Whether the call of the disk, the net or the output that is to fail is one of the next ones: a sync, a bind of no door or a write
// of nothing.
fn comes_next(failing: Failing, left: &mut Left) -> bool {
    let Some((object, number)) = failing else {
        return false;
    };
    for _ in 0..=number {
        let fails = match object {
            DISK => left.disk.sync().is_err(),
            NET => left.net.bind("", 0).is_err(),
            OUTPUT => left.output.write(&[]).is_err(),
            _ => false,
        };
        if fails {
            return true;
        }
    }
    false
}

// A run in which that call fails, with `--group` or without it.
fn run<R: Abort + Threads + Wait + Sync>(
    rt: &R,
    alloc: Global,
    is_grouped: bool,
    failing: Failing,
) -> Served {
    let words = if is_grouped { GROUPED } else { WORDS };
    let device = formatted(rt, alloc);
    let mut left = made(
        rt,
        alloc,
        words,
        MemDisk::of(device, calls_of(rt, alloc, failing, DISK)),
        MemSource::of(Vec::new(alloc), 1, Vec::new(alloc)),
        MemSink::of(alloc, calls_of(rt, alloc, failing, OUTPUT)),
        net(rt, alloc, failing),
    );
    let comes_next = comes_next(failing, &mut left);
    let list = plain(rt, alloc, "list --as relp", &[], 1, left.disk.bytes());
    Served {
        sessions: sessions_of(rt, alloc, &left.net),
        left,
        is_grouped,
        pending: list.output.taken().to_vec(alloc).expect(rt, MEMORY),
        comes_next,
    }
}

// Whether the line says how many are pending. At a fault of the disk it may say more, at most all events: the last change may have
// failed at the disk and stand there all the same, so that the disk may read fewer pending lines than the line counted.
fn counts_left(rt: &impl Abort, alloc: Global, run: &Served) -> bool {
    let mut pending = 0_u64;
    for byte in &run.pending {
        if *byte == b'\n' {
            pending = pending.saturating_add(1);
        }
    }
    let most = match run.left.note {
        Note::DiskFault => EVENTS,
        _ => pending,
    };
    for count in pending..=most {
        let end = format!(in alloc; ", {count} left\n").expect(rt, MEMORY);
        if run.left.output.taken().ends_with(end.as_bytes()) {
            return true;
        }
    }
    false
}

// Whether the line was printed, or nothing where that may be: the print itself fails, or no worker began.
fn is_printed(rt: &impl Abort, alloc: Global, object: usize, number: u64, run: &Served) -> bool {
    if !run.left.output.taken().is_empty() {
        return counts_left(rt, alloc, run);
    }
    match run.left.note {
        Note::DiskFault if object == DISK => true,
        _ => object == OUTPUT || (object == NET && number < 3),
    }
}

// Whether the run made the call that was to fail.
fn is_reached(object: usize, run: &Served) -> bool {
    if object >= NET {
        return !run.comes_next;
    }
    if object >= PEER_READ {
        return run.sessions.has_cut;
    }
    let talks = match run.left.doors.get(object % 3) {
        Some(door) => door.talks(),
        None => return true,
    };
    match talks {
        [talk, ..] => talk.status != 0,
        [] => true,
    }
}

// Whether a run may end so where that call fails. How talks end doesn't count, nor sessions before the last one. The first call of
// the disk opens the spool; in each session the open is written, its answer read, and an event written.
fn may_end(object: usize, number: u64, run: &Served) -> bool {
    match run.left.note {
        Note::Fine => match object {
            DISK => number > 0,
            NET => number > 2,
            PEER_WRITE => number > 1,
            _ => object >= READ && object < PEER_READ,
        },
        Note::DiskFault => object == DISK,
        Note::NetFault => object == NET || object < READ,
        Note::ReadFault => object == PEER_READ && run.sessions.is_cut,
        Note::WriteFault => object == OUTPUT || (object == PEER_WRITE && run.sessions.is_cut),
        _ => false,
    }
}

// Whether a run left all that it has to where no call fails. A print that fails ends no talk.
fn is_whole(run: &Served) -> bool {
    let is_printed = match run.left.note {
        Note::Fine => run.left.output.taken() == LINE,
        _ => false,
    };
    let is_all = run.left.doors.len() == 3 && run.pending.is_empty();
    is_printed && is_all && talks_end(OUTPUT, run) && are_kept(run)
}

// Whether the doors that come back tell what they have to. Where a bind fails they are those that were bound before it, and none of
// them accepted a link.
fn doors_end(object: usize, number: u64, run: &Served) -> bool {
    let doors = run.left.doors.as_slice();
    if object == NET && number < 3 {
        return doors.len() as u64 == number && doors.iter().all(|door| door.talks().is_empty());
    }
    talks_end(object, run)
}

// Whether a run left what it has to where that call fails.
fn is_right(rt: &impl Abort, alloc: Global, object: usize, number: u64, run: &Served) -> bool {
    if !is_reached(object, run) {
        return is_whole(run);
    }
    let is_told = may_end(object, number, run) && doors_end(object, number, run);
    is_told && are_kept(run) && is_printed(rt, alloc, object, number, run)
}

// How many calls each run makes of each object, at least and at most; in the order of their numbers. Of the peer these are the one
// read of a session, and the writes of its open, its events and its close; of the net three binds, and a dial for each session, which
// confirms an event at least; of the disk those of an opening and of four groups, and at most those of seven sessions besides.
const CALLS: [(&str, u64, u64); 14] = [
    ("accept at r", 1, 1),
    ("accept at l", 1, 1),
    ("accept at h", 1, 1),
    ("read at r", 2, 2),
    ("read at l", 2, 2),
    ("read at h", 3, 3),
    ("write at r", 3, 3),
    ("write at l", 1, 1),
    ("write at h", 1, 1),
    ("read of the peer", 1, 1),
    ("write to the peer", 3, 9),
    ("net", 4, 10),
    ("output", 1, 1),
    ("disk", 30, 160),
];

// How many calls fewer that are with `--group`, of what is made at least and at most. One read brings both events of RELP, which are one
// group then, and their answers are one write; and the groups of the three places may be one.
fn fewer_grouped(object: usize) -> (u64, u64) {
    match object {
        WRITE => (1, 1),
        DISK => (12, 4),
        _ => (0, 0),
    }
}

// Whether a run in which that call fails left what it has to, and made the call or not as the counts say.
fn is_right_failing<R: Abort + Threads + Wait + Sync>(
    rt: &R,
    alloc: Global,
    is_grouped: bool,
    (object, number): (usize, u64),
    least: u64,
    most: u64,
) -> bool {
    let run = run(rt, alloc, is_grouped, Some((object, number)));
    let is_counted = if is_reached(object, &run) {
        number < most
    } else {
        number >= least
    };
    is_right(rt, alloc, object, number, &run) && is_counted
}

// One call after another of each object fails, until one is none of the run's.
fn serve_by<R: Abort + Threads + Wait + Sync>(rt: &R, alloc: Global, is_grouped: bool) {
    assert!(rt; is_whole(&run(rt, alloc, is_grouped, None)));
    for (object, (name, least, most)) in CALLS.iter().enumerate() {
        let (least_fewer, most_fewer) = if is_grouped {
            fewer_grouped(object)
        } else {
            (0, 0)
        };
        let least = least.saturating_sub(least_fewer);
        let most = most.saturating_sub(most_fewer);
        for number in 0..=most {
            let is_right = is_right_failing(rt, alloc, is_grouped, (object, number), least, most);
            assert!(rt; is_right, "{name} {number}, group {is_grouped}");
        }
    }
}

/// One call after another of each object fails, until one is none of the run's; where events are stored one by one, and together.
pub(crate) fn serve_places<R: Abort + Threads + Wait + Sync>(rt: &R, alloc: Global) {
    serve_by(rt, alloc, false);
    serve_by(rt, alloc, true);
}
