//! Moves from one spool into another: what is printed and left, words and devices that are refused, and each call of a disk that fails.

use crate::parts::MEMORY;
use crate::play::{formatted, plain, words_of};
use bridge_move::{Moved, bridge_move};
use edge_io::MemSink;
use edge_memory::MemDisk;
use notes::note_text;
use std::alloc::Global;
use std::process::Abort;
use std::str;
use std::sync::Wait;
use std::thread::Threads;

// Two devices, each a spool.
#[derive(Drop)]
struct Devices {
    source: Vec<u8>,
    target: Vec<u8>,
}

// How a move ended: its status, its text, what it printed, and both devices.
#[derive(Drop)]
struct Ending {
    status: u8,
    text: String,
    printed: String,
    devices: Devices,
}

// Two events of RELP.
const TWO: &[u8] = b"1 open 0\n2 syslog 5 hello\n3 syslog 1 x\n";

// One of another text.
const OTHER: &[u8] = b"1 open 0\n2 syslog 5 other\n";

// What `list` prints of `TWO`, before and after they are moved under the tag 7.
const BEFORE: &[u8] = b"0 4294967296 0 2 relp 5\n1 4294967296 1 3 relp 1\n";

const AFTER: &[u8] = b"0 9223372036854775815 0 0 relp 5\n1 9223372036854775815 1 0 relp 1\n";

// The same where the first one alone is moved.
const FIRST: &[u8] = b"0 9223372036854775815 0 0 relp 5\n";

fn copy(rt: &impl Abort, alloc: Global, bytes: &[u8]) -> Vec<u8> {
    bytes.to_vec(alloc).expect(rt, MEMORY)
}

// The bytes as a text.
fn string(rt: &impl Abort, alloc: Global, bytes: &[u8]) -> String {
    let text = str::from_utf8(bytes).expect(rt, "a text");
    String::from_str(alloc, text).expect(rt, MEMORY)
}

// A disk that fails these calls.
fn failing(rt: &impl Abort, alloc: Global, bytes: &[u8], calls: &[u64]) -> MemDisk {
    MemDisk::of(
        copy(rt, alloc, bytes),
        calls.to_vec(alloc).expect(rt, MEMORY),
    )
}

// A device with these frames stored.
fn stored<R: Abort + Threads + Wait + Sync>(
    rt: &R,
    alloc: Global,
    device: &[u8],
    frames: &[u8],
) -> Vec<u8> {
    let left = plain(rt, alloc, "replay relp", frames, 8192, device);
    assert!(rt; left.status == 0);
    copy(rt, alloc, left.disk.bytes())
}

// A spool of one slot.
fn small<R: Abort + Threads + Wait + Sync>(rt: &R, alloc: Global) -> Vec<u8> {
    let zeros = vec![in alloc; 0; 16_384].expect(rt, MEMORY);
    let left = plain(rt, alloc, "format 1 4096", &[], 1, &zeros);
    copy(rt, alloc, left.disk.bytes())
}

// Whether `list` prints this of a device.
fn lists<R: Abort + Threads + Wait + Sync>(
    rt: &R,
    alloc: Global,
    device: &[u8],
    want: &[u8],
) -> bool {
    let left = plain(rt, alloc, "list", &[], 1, device);
    left.status == 0 && left.output.taken() == want
}

// A call with these words over these disks. Of the output these writes fail.
fn made(
    rt: &impl Abort,
    alloc: Global,
    words: &str,
    source: MemDisk,
    target: MemDisk,
    writes: &[u64],
) -> Ending {
    let words = words_of(rt, alloc, words);
    let mut output = MemSink::of(alloc, writes.to_vec(alloc).expect(rt, MEMORY));
    let Moved {
        status,
        note,
        source,
        target,
    } = bridge_move(alloc, &words, source, target, &mut output);
    assert!(rt; status == note.status());
    let text = note_text(alloc, &note).expect(rt, MEMORY);
    Ending {
        status,
        text: string(rt, alloc, text.bytes()),
        printed: string(rt, alloc, output.taken()),
        devices: Devices {
            source: copy(rt, alloc, source.bytes()),
            target: copy(rt, alloc, target.bytes()),
        },
    }
}

// The same where no call fails.
fn moved(rt: &impl Abort, alloc: Global, words: &str, devices: &Devices) -> Ending {
    let source = failing(rt, alloc, &devices.source, &[]);
    let target = failing(rt, alloc, &devices.target, &[]);
    made(rt, alloc, words, source, target, &[])
}

// The devices of which the source has `TWO` pending, and the target nothing.
fn two<R: Abort + Threads + Wait + Sync>(rt: &R, alloc: Global) -> Devices {
    let target = formatted(rt, alloc);
    Devices {
        source: stored(rt, alloc, &target, TWO),
        target,
    }
}

// Whether nothing of both devices is another.
fn is_same(one: &Devices, other: &Devices) -> bool {
    one.source == other.source && one.target == other.target
}

// Two entries, and then none; under another tag none again.
fn both_are_moved<R: Abort + Threads + Wait + Sync>(rt: &R, alloc: Global) {
    let all = moved(rt, alloc, "move t 7", &two(rt, alloc));
    assert!(rt; all.status == 0 && all.text.is_empty());
    assert!(rt; all.printed.as_str() == "2 moved, 0 left\n");
    assert!(rt; lists(rt, alloc, &all.devices.source, b""));
    assert!(rt; lists(rt, alloc, &all.devices.target, AFTER));
    for words in ["move t 7", "move t 8"] {
        let none = moved(rt, alloc, words, &all.devices);
        assert!(rt; none.status == 0 && none.printed.as_str() == "0 moved, 0 left\n");
        assert!(rt; is_same(&none.devices, &all.devices));
    }
}

// An entry of the tag that is another one; under another tag it is moved.
fn another_is_refused<R: Abort + Threads + Wait + Sync>(rt: &R, alloc: Global) {
    let Ending { devices, .. } = moved(rt, alloc, "move t 7", &two(rt, alloc));
    let devices = Devices {
        source: stored(rt, alloc, &formatted(rt, alloc), OTHER),
        target: devices.target,
    };
    let refused = moved(rt, alloc, "move t 7", &devices);
    assert!(rt; refused.status == 79 && refused.text.as_str() == "entry 0 is another");
    assert!(rt; refused.printed.is_empty() && is_same(&refused.devices, &devices));
    let taken = moved(rt, alloc, "move t 0", &devices);
    assert!(rt; taken.status == 0 && taken.printed.as_str() == "1 moved, 0 left\n");
}

// A target that has room for one of two.
fn a_full_target_ends_it<R: Abort + Threads + Wait + Sync>(rt: &R, alloc: Global) {
    let mut frames = copy(rt, alloc, b"1 open 0\n2 syslog 2000 ");
    for (count, more) in [(2000u64, "\n3 syslog 2003 "), (2003, "\n")] {
        for _ in 0..count {
            frames.push(b'x').expect(rt, MEMORY);
        }
        frames.extend_from_slice(more.as_bytes()).expect(rt, MEMORY);
    }
    let devices = Devices {
        source: stored(rt, alloc, &formatted(rt, alloc), &frames),
        target: small(rt, alloc),
    };
    let full = moved(rt, alloc, "move t 0", &devices);
    assert!(rt; full.status == 67);
    assert!(rt; full.text.as_str() == "spool full: 2041 needed, 2040 free");
    assert!(rt; full.printed.is_empty());
    assert!(rt;
        lists(
            rt,
            alloc,
            &full.devices.source,
            b"1 4294967296 1 3 relp 2003\n"
        )
    );
    assert!(rt;
        lists(
            rt,
            alloc,
            &full.devices.target,
            b"0 9223372036854775808 0 0 relp 2000\n"
        )
    );
}

// Words of other commands, here, and these words to the other call.
fn words_are_refused<R: Abort + Threads + Wait + Sync>(rt: &R, alloc: Global) {
    let devices = two(rt, alloc);
    for words in [
        "",
        "list",
        "format 2 4096",
        "drain relp",
        "move t",
        "move t 4294967296",
    ] {
        let refused = moved(rt, alloc, words, &devices);
        assert!(rt;
            refused.status == 64 && refused.printed.is_empty(),
            "{words}"
        );
        assert!(rt; is_same(&refused.devices, &devices), "{words}");
    }
    let left = plain(rt, alloc, "move t 7", TWO, 1, &devices.source);
    assert!(rt; left.status == 64 && left.output.taken().is_empty());
    assert!(rt; left.disk.bytes() == devices.source.as_slice());
}

// A line that isn't written: the entries are moved all the same.
fn the_line_may_fail<R: Abort + Threads + Wait + Sync>(rt: &R, alloc: Global) {
    let devices = two(rt, alloc);
    let source = failing(rt, alloc, &devices.source, &[]);
    let target = failing(rt, alloc, &devices.target, &[]);
    let ending = made(rt, alloc, "move t 7", source, target, &[0]);
    assert!(rt; ending.status == 72 && ending.text.as_str() == "write fault");
    assert!(rt; lists(rt, alloc, &ending.devices.source, b""));
    assert!(rt; lists(rt, alloc, &ending.devices.target, AFTER));
}

// A call of one of the disks fails, and the same words are given again. Returns how that ended first, and what the second run printed.
fn failed_once<R: Abort + Threads + Wait + Sync>(
    rt: &R,
    alloc: Global,
    devices: &Devices,
    source_calls: &[u64],
    target_calls: &[u64],
) -> (Ending, String) {
    let source = failing(rt, alloc, &devices.source, source_calls);
    let target = failing(rt, alloc, &devices.target, target_calls);
    let first = made(rt, alloc, "move t 7", source, target, &[]);
    let again = moved(rt, alloc, "move t 7", &first.devices);
    assert!(rt; again.status == 0);
    assert!(rt; lists(rt, alloc, &again.devices.source, b""));
    assert!(rt; lists(rt, alloc, &again.devices.target, AFTER));
    (first, again.printed)
}

// Whether both entries stand in both lists after a call that failed. Else the target has one or none, and then the source has both. The
// second run, which printed this, moved those that the target didn't have.
fn stand_in_both<R: Abort + Threads + Wait + Sync>(
    rt: &R,
    alloc: Global,
    devices: &Devices,
    printed: &str,
) -> bool {
    let are_left = lists(rt, alloc, &devices.source, BEFORE);
    if lists(rt, alloc, &devices.target, AFTER) {
        assert!(rt; printed == "0 moved, 0 left\n");
        assert!(rt; are_left || lists(rt, alloc, &devices.source, b""));
        return are_left;
    }
    assert!(rt; are_left);
    if lists(rt, alloc, &devices.target, FIRST) {
        assert!(rt; printed == "1 moved, 0 left\n");
    } else {
        assert!(rt; printed == "2 moved, 0 left\n");
        assert!(rt; lists(rt, alloc, &devices.target, b""));
    }
    false
}

// Each call of either disk fails in turn. Where it is the source's first write, both entries stand in both lists.
fn each_call_fails<R: Abort + Threads + Wait + Sync>(rt: &R, alloc: Global) {
    let devices = two(rt, alloc);
    let mut in_both = 0u64;
    let mut failures = 0u64;
    for call in 0..200u64 {
        for (source, target) in [(&[call][..], &[][..]), (&[], &[call])] {
            let (first, printed) = failed_once(rt, alloc, &devices, source, target);
            if first.status == 0 {
                continue;
            }
            failures = failures.saturating_add(1);
            assert!(rt; first.status == 73 && first.text.as_str() == "disk fault");
            assert!(rt; first.printed.is_empty());
            let are_both = stand_in_both(rt, alloc, &first.devices, printed.as_str());
            in_both = in_both.saturating_add(u64::from(are_both));
        }
    }
    assert!(rt; failures > 10 && in_both > 0);
}

/// All of it.
pub(crate) fn entries_move<R: Abort + Threads + Wait + Sync>(rt: &R, alloc: Global) {
    both_are_moved(rt, alloc);
    another_is_refused(rt, alloc);
    a_full_target_ends_it(rt, alloc);
    words_are_refused(rt, alloc);
    the_line_may_fail(rt, alloc);
    each_call_fails(rt, alloc);
}
