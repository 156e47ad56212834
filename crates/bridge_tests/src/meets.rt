//! Talks that can only end where others are served beside them, and a talk that can only end where its event is forwarded beside it.

use crate::held::{Part, Plan};
use crate::held_net::{HeldDoor, HeldNet, Talked};
use crate::play::{formatted, words_of};
use crate::script::{OPEN, OPENED};
use bridge_core::{Ended, bridge};
use edge_io::{MemSink, MemSource};
use edge_memory::MemDisk;
use notes::Note;
use std::alloc::Global;
use std::process::Abort;
use std::sync::Wait;
use std::sync::atomic::AtomicBool;
use std::thread::Threads;

const EVENT: &[u8] = b"2 syslog 5 hello\n";

const STORED: &[u8] = b"2 rsp 6 200 OK\n";

/// Two links at one place. The first gives no byte until the other one's `open` is answered, and the other one gives its event only
/// once the first one's is.
const PAIR: &[Plan] = &[
    Plan {
        place: "r",
        parts: &[
            Part {
                bytes: OPEN,
                after: &[1],
            },
            Part {
                bytes: EVENT,
                after: &[],
            },
        ],
        answer: OPENED,
        mark: 0,
    },
    Plan {
        place: "r",
        parts: &[
            Part {
                bytes: OPEN,
                after: &[],
            },
            Part {
                bytes: EVENT,
                after: &[0],
            },
        ],
        answer: OPENED,
        mark: 1,
    },
];

const WINDOW: &[u8] = b"2W\0\0\0\x012J\0\0\0\x01\0\0\0\x02{}";

const REQUEST: &[u8] =
    b"POST /services/collector HTTP/1.1\r\nAuthorization: Splunk 11111111-2222-3333-4444-555555555555\r\nContent-Length: 13\r\n\r\n{\"event\":\"a\"}";

const ACK: &[u8] = b"2A\0\0\0\x01";

const SUCCESS: &[u8] =
    b"HTTP/1.1 200 OK\r\nContent-Type: application/json\r\nContent-Length: 27\r\n\r\n{\"text\":\"Success\",\"code\":0}";

/// A link at each of three places. Each gives its first frame, window or request at once, and what follows once the others' first
/// ones are answered.
const THREE: &[Plan] = &[
    Plan {
        place: "r",
        parts: &[
            Part {
                bytes: OPEN,
                after: &[],
            },
            Part {
                bytes: EVENT,
                after: &[1, 2],
            },
        ],
        answer: OPENED,
        mark: 0,
    },
    Plan {
        place: "l",
        parts: &[
            Part {
                bytes: WINDOW,
                after: &[],
            },
            Part {
                bytes: WINDOW,
                after: &[0, 2],
            },
        ],
        answer: ACK,
        mark: 1,
    },
    Plan {
        place: "h",
        parts: &[
            Part {
                bytes: REQUEST,
                after: &[],
            },
            Part {
                bytes: REQUEST,
                after: &[0, 1],
            },
        ],
        answer: SUCCESS,
        mark: 2,
    },
];

/// What a session sends of the one event, up to it.
const SENT: &[u8] =
    b"1 open 59 relp_version=0\nrelp_software=bridge,1,local\ncommands=syslog\n2 syslog 5 hello\n";

/// What it sends in all: that, and its close.
const ALL_SENT: &[u8] =
    b"1 open 59 relp_version=0\nrelp_software=bridge,1,local\ncommands=syslog\n2 syslog 5 hello\n3 close 0\n";

/// A link that ends only once its event was sent on, and what is dialed.
const ONWARD: &[Plan] = &[
    Plan {
        place: "r",
        parts: &[
            Part {
                bytes: OPEN,
                after: &[],
            },
            Part {
                bytes: EVENT,
                after: &[],
            },
            Part {
                bytes: b"",
                after: &[1],
            },
        ],
        answer: OPENED,
        mark: 0,
    },
    Plan {
        place: "d",
        parts: &[Part {
            bytes: b"1 rsp 6 200 OK\n2 rsp 6 200 OK\n",
            after: &[],
        }],
        answer: SENT,
        mark: 1,
    },
];

// Whether the door's link ended well, and was written this.
fn is_served(door: &HeldDoor<'_>, first: &[u8], then: &[u8]) -> bool {
    match &door.talked {
        Some(Talked { status, written }) => {
            *status == 0
                && written.starts_with(first)
                && written.ends_with(then)
                && written.len() == first.len().saturating_add(then.len())
        }
        None => false,
    }
}

// Whether so many links ended well, each with its first and its last answer.
fn are_served(doors: &[HeldDoor<'_>], answers: &[(&[u8], &[u8])]) -> bool {
    if doors.len() != answers.len() {
        return false;
    }
    for number in 0..doors.len() {
        let (first, then) = answers[number];
        if !is_served(&doors[number], first, then) {
            return false;
        }
    }
    true
}

// Serves links by these plans, with these words, over an empty spool: so it prints, each link ends well, with a first and a last
// answer, and just that is sent on.
fn check<R: Abort + Threads + Wait + Sync>(
    rt: &R,
    alloc: Global,
    plans: &'static [Plan],
    words: &str,
    line: &str,
    answers: &[(&[u8], &[u8])],
    sent: &[u8],
) {
    let marks = [
        AtomicBool::new(false),
        AtomicBool::new(false),
        AtomicBool::new(false),
    ];
    let mut net = HeldNet::new(alloc, plans, &marks);
    let mut output = MemSink::of(alloc, Vec::new(alloc));
    let Ended { note, doors, .. } = bridge(
        rt,
        alloc,
        &words_of(rt, alloc, words),
        MemDisk::of(formatted(rt, alloc), Vec::new(alloc)),
        &mut MemSource::of(Vec::new(alloc), 1, Vec::new(alloc)),
        &mut output,
        &mut net,
    );
    assert!(rt; output.taken() == line.as_bytes());
    assert!(rt; note == Note::Fine);
    assert!(rt; are_served(&doors, answers));
    assert!(rt; net.sent.as_slice() == sent);
}

/// Two talks meet, three do, and one meets what forwards its event; where events are stored one by one, and together.
pub(crate) fn talks_meet<R: Abort + Threads + Wait + Sync>(rt: &R, alloc: Global) {
    for words in [
        "serve --relp r --workers 2 --talks 1",
        "serve --relp r --workers 2 --talks 1 --group",
    ] {
        let line = "2 talks, 2 taken, 0 confirmed, 2 left\n";
        let answers: &[(&[u8], &[u8])] = &[(OPENED, STORED), (OPENED, STORED)];
        check(rt, alloc, PAIR, words, line, answers, b"");
    }
    for words in [
        "serve --relp r --lumberjack l --hec h --workers 1 --talks 1 --token 11111111-2222-3333-4444-555555555555",
        "serve --relp r --lumberjack l --hec h --workers 1 --talks 1 --token 11111111-2222-3333-4444-555555555555 --group",
    ] {
        let line = "3 talks, 5 taken, 0 confirmed, 5 left\n";
        let answers: &[(&[u8], &[u8])] = &[(OPENED, STORED), (ACK, ACK), (SUCCESS, SUCCESS)];
        check(rt, alloc, THREE, words, line, answers, b"");
    }
    for words in [
        "serve --relp r --workers 1 --talks 1 --forward relp --to d",
        "serve --relp r --workers 1 --talks 1 --forward relp --to d --group",
    ] {
        let line = "1 talks, 1 taken, 1 confirmed, 0 left\n";
        let answers: &[(&[u8], &[u8])] = &[(OPENED, STORED)];
        check(rt, alloc, ONWARD, words, line, answers, ALL_SENT);
    }
}
