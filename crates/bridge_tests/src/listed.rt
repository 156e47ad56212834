//! `serve --tokens`: each token of the list is served, without or with acks, and no other.

use crate::held::{Part, Plan};
use crate::held_net::{HeldNet, Talked};
use crate::parts::MEMORY;
use crate::play::{formatted, words_of};
use bridge_core::{Ended, bridge};
use edge_io::{MemSink, MemSource};
use edge_memory::MemDisk;
use notes::Note;
use std::alloc::Global;
use std::process::Abort;
use std::sync::Wait;
use std::sync::atomic::AtomicBool;
use std::thread::Threads;

/// A request by a token that is listed without acks, one by a token that is listed with acks, and one by a token that isn't listed.
const REQUESTS: &[Plan] = &[
    Plan {
        place: "h",
        parts: &[Part {
            bytes: b"POST /services/collector HTTP/1.1\r\nAuthorization: Splunk 11111111-2222-3333-4444-555555555555\r\n\
                Content-Length: 13\r\n\r\n{\"event\":\"a\"}",
            after: &[],
        }],
        answer: b"HTTP/1.1 ",
        mark: 0,
    },
    Plan {
        place: "h",
        parts: &[Part {
            bytes: b"POST /services/collector HTTP/1.1\r\nAuthorization: Splunk aaaaaaaa-2222-3333-4444-555555555555\r\n\
                X-Splunk-Request-Channel: cccccccc-2222-3333-4444-555555555555\r\nContent-Length: 13\r\n\r\n{\"event\":\"b\"}",
            after: &[],
        }],
        answer: b"HTTP/1.1 ",
        mark: 1,
    },
    Plan {
        place: "h",
        parts: &[Part {
            bytes: b"POST /services/collector HTTP/1.1\r\nAuthorization: Splunk bbbbbbbb-2222-3333-4444-555555555555\r\n\
                Content-Length: 13\r\n\r\n{\"event\":\"c\"}",
            after: &[],
        }],
        answer: b"HTTP/1.1 ",
        mark: 2,
    },
];

/// What is answered to each.
const ANSWERS: [&[u8]; 3] = [
    b"HTTP/1.1 200 OK\r\nContent-Type: application/json\r\nContent-Length: 27\r\n\r\n{\"text\":\"Success\",\"code\":0}",
    b"HTTP/1.1 200 OK\r\nContent-Type: application/json\r\nContent-Length: 46\r\n\r\n\
    {\"text\":\"Success\",\"code\":0,\"ackId\":4294967296}",
    b"HTTP/1.1 403 Forbidden\r\nContent-Type: application/json\r\nContent-Length: 33\r\n\r\n{\"text\":\"Invalid token\",\"code\":4}",
];

/// The list: one token without acks, and one with.
const LIST: &str =
    "11111111-2222-3333-4444-555555555555\naaaaaaaa-2222-3333-4444-555555555555 ack\n";

const LINE: &[u8] = b"3 talks, 2 taken, 0 confirmed, 2 left\n";

/// Each request is answered by the list alone.
pub(crate) fn tokens_are_listed<R: Abort + Threads + Wait + Sync>(rt: &R, alloc: Global) {
    let marks = [
        AtomicBool::new(false),
        AtomicBool::new(false),
        AtomicBool::new(false),
    ];
    let mut words = words_of(rt, alloc, "serve --hec h --workers 3 --talks 1 --tokens");
    let list = String::from_str(alloc, LIST).expect(rt, MEMORY);
    words.push(list).expect(rt, MEMORY);
    let mut net = HeldNet::new(alloc, REQUESTS, &marks);
    let mut output = MemSink::of(alloc, Vec::new(alloc));
    let Ended { note, doors, .. } = bridge(
        rt,
        alloc,
        &words,
        MemDisk::of(formatted(rt, alloc), Vec::new(alloc)),
        &mut MemSource::of(Vec::new(alloc), 1, Vec::new(alloc)),
        &mut output,
        &mut net,
    );
    assert!(rt; note == Note::Fine);
    assert!(rt; output.taken() == LINE);
    assert!(rt; doors.len() == ANSWERS.len());
    for (number, answer) in ANSWERS.iter().enumerate() {
        let is_answered = match doors.get(number) {
            Some(door) => match &door.talked {
                Some(Talked { written, .. }) => written.as_slice() == *answer,
                None => false,
            },
            None => false,
        };
        assert!(rt; is_answered, "request {number}");
    }
}
