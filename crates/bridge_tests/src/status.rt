//! `serve --status`: what those are told who ask for the numbers of the spool, before, while and after an event is stored.

use crate::held::{Part, Plan};
use crate::held_disk::{HeldDisk, Hold};
use crate::held_monitor::Ask;
use crate::held_net::HeldNet;
use crate::play::{formatted, plain, words_of};
use crate::script::OPEN;
use bridge_core::{Ended, bridge};
use edge_io::{EventCounts, MemSink, MemSource, SpoolNumbers};
use edge_memory::MemDisk;
use notes::Note;
use std::alloc::Global;
use std::process::Abort;
use std::sync::Wait;
use std::sync::atomic::{AtomicBool, Ordering};
use std::thread::Threads;

/// The numbers of the spool in its first run: two slots of 4,096 bytes, of which one is free, with room for a group of 4,078 bytes in
/// either.
const EMPTY: SpoolNumbers = SpoolNumbers {
    run: 1,
    end: 0,
    cursor: 0,
    known_count: 0,
    room: 4078,
    slots: 2,
    free_slots: 1,
    most: 4078,
    stored: EventCounts {
        relp: 0,
        lumberjack: 0,
        hec: 0,
    },
};

/// Those once an event of five bytes is stored, for which its group needs 38 bytes more.
const STORED: SpoolNumbers = SpoolNumbers {
    run: 1,
    end: 1,
    cursor: 0,
    known_count: 0,
    room: 4035,
    slots: 2,
    free_slots: 1,
    most: 4078,
    stored: EventCounts {
        relp: 1,
        lumberjack: 0,
        hec: 0,
    },
};

// The marks: the event is answered; the first one who asks is told; a sync is held; the second one is told, and no sync is held any
// more; the third one is told.
const ANSWERED: usize = 0;

const TOLD_FIRST: usize = 1;

const HELD: usize = 2;

const TOLD_SECOND: usize = 3;

const TOLD_THIRD: usize = 4;

/// One asks before the event, one while its sync is held, and one after its answer.
const ASKS: &[Ask] = &[
    Ask {
        after: &[],
        numbers: EMPTY,
        mark: TOLD_FIRST,
    },
    Ask {
        after: &[HELD],
        numbers: EMPTY,
        mark: TOLD_SECOND,
    },
    Ask {
        after: &[ANSWERED],
        numbers: STORED,
        mark: TOLD_THIRD,
    },
];

/// A link that gives its event once the first one who asks is told, and ends once the third one is.
const LINK: &[Plan] = &[Plan {
    place: "r",
    parts: &[
        Part {
            bytes: OPEN,
            after: &[],
        },
        Part {
            bytes: b"2 syslog 5 hello\n",
            after: &[TOLD_FIRST],
        },
        Part {
            bytes: b"",
            after: &[TOLD_THIRD],
        },
    ],
    answer: b"1 rsp 66 200 OK\nrelp_version=0\nrelp_software=bridge,1,local\ncommands=syslog\n2 rsp 6 200 OK\n",
    mark: ANSWERED,
}];

/// A link that gives its event at once.
const PLAIN: &[Plan] = &[Plan {
    place: "r",
    parts: &[
        Part {
            bytes: OPEN,
            after: &[],
        },
        Part {
            bytes: b"2 syslog 5 hello\n",
            after: &[],
        },
    ],
    answer: b"1 rsp 66 200 OK\n",
    mark: ANSWERED,
}];

// What a run leaves.
#[derive(Drop)]
struct Left {
    status: u8,
    note: Note,
    output: MemSink,
    /// How many doors came back.
    doors: usize,
    /// How many monitors the net was asked for.
    monitors: u64,
    /// What `list` prints then.
    list: MemSink,
}

// Serves links by these plans, with these words, over an empty spool, whose syncs are held, and those who ask. With `is_refusing` no
// monitor is to be had.
fn serve<R: Abort + Threads + Wait + Sync>(
    rt: &R,
    alloc: Global,
    words: &str,
    plans: &'static [Plan],
    marks: &[AtomicBool],
    is_refusing: bool,
) -> Left {
    let mut net = HeldNet::watched(alloc, plans, ASKS, marks);
    net.is_refusing = is_refusing;
    let mut output = MemSink::of(alloc, Vec::new(alloc));
    let disk = HeldDisk {
        disk: MemDisk::of(formatted(rt, alloc), Vec::new(alloc)),
        hold: Hold {
            from: TOLD_FIRST,
            reached: HELD,
            open: TOLD_SECOND,
        },
        marks,
    };
    let Ended {
        status,
        note,
        disk,
        doors,
    } = bridge(
        rt,
        alloc,
        &words_of(rt, alloc, words),
        disk,
        &mut MemSource::of(Vec::new(alloc), 1, Vec::new(alloc)),
        &mut output,
        &mut net,
    );
    Left {
        status,
        note,
        output,
        doors: doors.len(),
        monitors: net.monitors,
        list: plain(rt, alloc, "list", &[], 1, disk.disk.bytes()).output,
    }
}

// Five marks, none of which is set.
fn marks() -> [AtomicBool; 5] {
    [
        AtomicBool::new(false),
        AtomicBool::new(false),
        AtomicBool::new(false),
        AtomicBool::new(false),
        AtomicBool::new(false),
    ]
}

const ONE_TALK: &[u8] = b"1 talks, 1 taken, 0 confirmed, 1 left\n";

// Each of the three is told just the numbers that the spool has then, the second one while the disk is waited for.
fn all_are_told<R: Abort + Threads + Wait + Sync>(rt: &R, alloc: Global, words: &str) {
    let marks = marks();
    let left = serve(rt, alloc, words, LINK, &marks, false);
    assert!(rt; left.note == Note::Fine);
    assert!(rt; left.output.taken() == ONE_TALK);
    assert!(rt; left.monitors == 1);
    for mark in &marks {
        assert!(rt; mark.load(Ordering::SeqCst));
    }
}

// Without the option no monitor is asked for.
fn nobody_is_told<R: Abort + Threads + Wait + Sync>(rt: &R, alloc: Global) {
    let marks = marks();
    let words = "serve --relp r --workers 1 --talks 1";
    let left = serve(rt, alloc, words, PLAIN, &marks, false);
    assert!(rt; left.note == Note::Fine);
    assert!(rt; left.output.taken() == ONE_TALK);
    assert!(rt; left.monitors == 0);
    assert!(rt; marks[ANSWERED].load(Ordering::SeqCst));
}

// Where no monitor is to be had at the place no door is bound, and nothing is stored.
fn none_is_bound<R: Abort + Threads + Wait + Sync>(rt: &R, alloc: Global) {
    let marks = marks();
    let words = "serve --relp r --workers 1 --talks 1 --status s";
    let left = serve(rt, alloc, words, PLAIN, &marks, true);
    assert!(rt; left.status == 74);
    assert!(rt; left.note == Note::NetFault);
    assert!(rt; left.monitors == 1);
    assert!(rt; left.doors == 0);
    assert!(rt; left.output.taken().is_empty());
    assert!(rt; left.list.taken().is_empty());
}

/// Those who ask are told; where events are stored one by one, and together.
pub(crate) fn status_is_told<R: Abort + Threads + Wait + Sync>(rt: &R, alloc: Global) {
    all_are_told(rt, alloc, "serve --relp r --workers 1 --talks 1 --status s");
    all_are_told(
        rt,
        alloc,
        "serve --relp r --workers 1 --talks 1 --status s --group",
    );
    nobody_is_told(rt, alloc);
    none_is_bound(rt, alloc);
}
