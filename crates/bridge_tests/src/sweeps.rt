//! A call that is made again and again, each time with another call of one of its objects failing, or with its disk stopping there.

use crate::parts::MEMORY;
use crate::play::{Left, Play, plain};
use edge_memory::{Crash, MemDisk};
use std::alloc::Global;
use std::process::Abort;
use std::sync::Wait;
use std::thread::Threads;

/// No outcome that may be.
pub(crate) const WRONG: u64 = u64::MAX;

// More calls than are made of a disk, an input, an output or a link.
const CALLS: u64 = 2000;

/// The status where a call of the disk failed.
pub(crate) const DISK_FAULT: u8 = 73;

/// The status where a write failed.
pub(crate) const WRITE_FAULT: u8 = 72;

// The statuses where a read or a dial failed.
const READ_FAULT: u8 = 71;

const NET_FAULT: u8 = 74;

const CRASHES: [Crash; 5] = [
    Crash::Synced,
    Crash::Written,
    Crash::Filled(0),
    Crash::Filled(1),
    Crash::Filled(255),
];

// Whether the same words, with the input that is kept for it, then write what is wanted over a device.
fn answers_later<R: Abort + Threads + Wait + Sync>(
    rt: &R,
    alloc: Global,
    play: &Play,
    device: &[u8],
) -> bool {
    if play.after.is_empty() {
        return true;
    }
    let words = play.words.as_str();
    let left = plain(rt, alloc, words, &play.after, play.piece, device);
    left.status == 0 && left.output.taken() == play.answer.as_slice()
}

/// Where the outcomes have this one.
pub(crate) fn place_of(play: &Play, written: u64, lines: &[u8]) -> u64 {
    let mut place = 0_u64;
    for outcome in &play.outcomes {
        let is_written = play.is_drain || outcome.written == written;
        if is_written && outcome.lines.as_slice() == lines {
            return place;
        }
        place = place.saturating_add(1);
    }
    WRONG
}

// Whether the status says that a call failed.
fn is_fault(status: u8) -> bool {
    matches!(status, READ_FAULT | WRITE_FAULT | DISK_FAULT | NET_FAULT)
}

// Whether no call failed that has this status: the call ended well, or as the peer of a session ends it.
fn is_over(play: &Play, fault: u8, status: u8) -> bool {
    status == 0 || (play.is_drain && status != fault)
}

// Whether the status fits what was written and the outcome: a call that ends well, and no other, writes all, and leaves the last
// outcome. Where a read fails all may have been written. A session leaves the last one where no call fails.
fn is_right(play: &Play, status: u8, written: &[u8], found: u64) -> bool {
    let is_fine = status == 0;
    let is_last = found.saturating_add(1) == play.outcomes.len() as u64;
    if play.is_drain {
        return is_last || is_fault(status);
    }
    let is_whole = written.len() == play.output.len();
    let is_told = play.output.is_empty() || is_fine == is_whole || status == READ_FAULT;
    play.output.starts_with(written) && is_told && (is_last || !is_fine)
}

// Makes the call over this disk, which then may crash. Answers the status, and the outcome.
fn outcome_over<R: Abort + Threads + Wait + Sync>(
    rt: &R,
    alloc: Global,
    play: &Play,
    disk: MemDisk,
    crash: Option<Crash>,
) -> (u8, u64) {
    let Left {
        status,
        disk,
        output,
        ..
    } = play.call(rt, alloc, disk);
    let disk = match crash {
        Some(choice) => disk.crash(choice),
        None => disk,
    };
    let written = output.taken();
    let list = plain(rt, alloc, "list", &[], 1, disk.bytes());
    let found = place_of(play, written.len() as u64, list.output.taken());
    let is_told = list.status == 0 && is_right(play, status, written, found);
    if is_told && answers_later(rt, alloc, play, disk.bytes()) {
        (status, found)
    } else {
        (status, WRONG)
    }
}

// The status where a call of the object of this name failed.
fn status_of(name: &str) -> Option<u8> {
    match name {
        "disk" => Some(DISK_FAULT),
        "input" | "peer_read" => Some(READ_FAULT),
        "output" | "peer_write" => Some(WRITE_FAULT),
        "dial" => Some(NET_FAULT),
        _ => None,
    }
}

// The call of this number fails of the object of this name, and no other one, but for the calls of the disk.
fn lay(rt: &impl Abort, play: &mut Play, name: &str, number: u64) {
    play.reads.clear();
    play.writes.clear();
    play.peer_reads.clear();
    play.peer_writes.clear();
    play.dials.clear();
    let calls = match name {
        "input" => &mut play.reads,
        "output" => &mut play.writes,
        "peer_read" => &mut play.peer_reads,
        "peer_write" => &mut play.peer_writes,
        "dial" => &mut play.dials,
        _ => return,
    };
    calls.push(number).expect(rt, MEMORY);
}

// Makes the call with the call of this number failing of the object of this name, and no other one. Answers the status, and the
// outcome.
fn outcome_failing<R: Abort + Threads + Wait + Sync>(
    rt: &R,
    alloc: Global,
    play: &mut Play,
    name: &str,
    number: u64,
) -> (u8, u64) {
    lay(rt, play, name, number);
    let mut calls = Vec::new(alloc);
    if name == "disk" {
        calls.push(number).expect(rt, MEMORY);
    }
    let device = play.device.to_vec(alloc).expect(rt, MEMORY);
    let found = outcome_over(rt, alloc, play, MemDisk::of(device, calls), None);
    lay(rt, play, "disk", 0);
    found
}

/// Whether each call of the object of this name, where it fails alone, makes the status and leaves an outcome that may be, until none
/// fails; and the last of these leave the outcomes at these places. Of all objects but the disk these are all calls.
pub(crate) fn fails_well<R: Abort + Threads + Wait + Sync>(
    rt: &R,
    alloc: Global,
    play: &mut Play,
    name: &str,
    last: &[u64],
) -> bool {
    let Some(fault) = status_of(name) else {
        return false;
    };
    let mut seen = Vec::new(alloc);
    for number in 0..CALLS {
        let (status, found) = outcome_failing(rt, alloc, play, name, number);
        if is_over(play, fault, status) {
            let is_all = fault == DISK_FAULT || seen.len() == last.len();
            return is_all && found != WRONG && !seen.contains(&WRONG) && seen.ends_with(last);
        }
        if status != fault {
            return false;
        }
        seen.push(found).expect(rt, MEMORY);
    }
    false
}

/// Whether each crash leaves an outcome that may be, where the machine stops at each call of the
/// disk in turn, until the call ends well. Each one before that has the status of the disk's fault, and there is one at least.
pub(crate) fn stops_well<R: Abort + Threads + Wait + Sync>(
    rt: &R,
    alloc: Global,
    play: &Play,
) -> bool {
    for calls in 0..CALLS {
        let mut is_fine = false;
        for choice in CRASHES {
            let device = play.device.to_vec(alloc).expect(rt, MEMORY);
            let disk = MemDisk::stopped(device, calls);
            let (status, found) = outcome_over(rt, alloc, play, disk, Some(choice));
            is_fine = is_over(play, DISK_FAULT, status);
            if found == WRONG || (!is_fine && status != DISK_FAULT) {
                return false;
            }
        }
        if is_fine {
            return calls > 0;
        }
    }
    false
}
