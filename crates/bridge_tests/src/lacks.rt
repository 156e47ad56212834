//! Calls for which one call for memory may be refused: from outside, as tests/memory/forms does it, and by none else.

use crate::parts::MEMORY;
use crate::play::{Left, Play, plain};
use crate::sweeps::{DISK_FAULT, WRITE_FAULT, WRONG, place_of};
use edge_memory::MemDisk;
use std::alloc::Global;
use std::process::Abort;
use std::sync::Wait;
use std::thread::Threads;

// The status where no memory was found.
const NO_MEMORY: u8 = 70;

// Whether the status is that of a call that lacked no memory, or that of what lacked it: the disk, the output or the peer's link, each
// of which answers so with a fault of its own, or anything else.
fn is_told(play: &Play, left: &Left) -> bool {
    match left.status {
        0 | NO_MEMORY => left.disk.starved() == 0 && left.output.starved() == 0,
        DISK_FAULT => left.disk.starved() > 0,
        WRITE_FAULT => left.output.starved() > 0 || !play.replies.is_empty(),
        _ => false,
    }
}

// Whether this is the output that is wanted, or where the call didn't end well how that begins. A session that forwards isn't asked.
fn is_written(play: &Play, status: u8, written: &[u8]) -> bool {
    let wanted = play.output.as_slice();
    play.is_drain || written == wanted || status != 0 && wanted.starts_with(written)
}

/// Whether the call ends as it may where one call for memory may have been refused: well, with the last outcome and just the output that
/// is wanted; or with the status of what lacked memory, and an outcome that may be. A test that lacks memory itself ends there, and says
/// so.
pub(crate) fn lacks_well<R: Abort + Threads + Wait + Sync>(
    rt: &R,
    alloc: Global,
    play: &Play,
) -> bool {
    let device = play.device.to_vec(alloc).expect(rt, MEMORY);
    let left = play.call(rt, alloc, MemDisk::of(device, Vec::new(alloc)));
    let list = plain(rt, alloc, "list", &[], 1, left.disk.bytes());
    let lacks_list = list.status == NO_MEMORY || list.output.starved() > 0;
    assert!(rt; !lacks_list, "memory: the list");
    let written = left.output.taken();
    let found = place_of(play, written.len() as u64, list.output.taken());
    let is_last = found.saturating_add(1) == play.outcomes.len() as u64;
    let is_left = list.status == 0 && found != WRONG && is_written(play, left.status, written);
    is_left && is_told(play, &left) && (is_last || left.status != 0)
}

/// A session of each protocol that comes in, one forwarded to a place, and one to a collector. What may be left is what is left where
/// another call fails.
pub(crate) const ROWS: &str = r#"8192
- an event by RELP
device 16384
call format 1 4096
out text 1 slots of 4096 bytes%0a
ends 0
call replay relp
open
in text 2 syslog 5 hello%0a3 close 0%0a
out text 2 rsp 6 200 OK%0a3 rsp 0%0a0 serverclose 0%0a
outcome 0 text
outcome 76 text
outcome 76 text 0 4294967296 0 2 relp 5%0a
outcome 91 text 0 4294967296 0 2 relp 5%0a
outcome 115 text 0 4294967296 0 2 relp 5%0a
lacks

- a window of Lumberjack
device 16384
call format 1 4096
out text 1 slots of 4096 bytes%0a
ends 0
call replay lumberjack
in text 2W%00%00%00%022J%00%00%00%01%00%00%00%07{"a":1}2J%00%00%00%02%00%00%00%02{}
out text 2A%00%00%00%02
outcome 0 text
outcome 0 text 0 4294967296 0 1 json 7%0a1 4294967296 1 2 json 2%0a
outcome 6 text 0 4294967296 0 1 json 7%0a1 4294967296 1 2 json 2%0a
lacks

- requests of the collector: an event with an id, which is asked for
device 16384
call format 1 4096
out text 1 slots of 4096 bytes%0a
ends 0
call replay hec --ack-token aaaaaaaa-2222-3333-4444-555555555555
acked {"event":"a"}
says {"text":"Success","code":0,"ackId":4294967296}
ask {"acks":[4294967296]}
says {"acks":{"4294967296":true}}
outcome 0 text
outcome 117 text
outcome 117 text 0 4294967296 0 4294967296 event 13%0a
outcome 216 text 0 4294967296 0 4294967296 event 13%0a
lacks

- an event that is forwarded to a place
device 16384
call format 1 4096
out text 1 slots of 4096 bytes%0a
ends 0
call replay relp
open
in text 2 syslog 5 hello%0a
out text 2 rsp 6 200 OK%0a
ends 0
call drain relp there
replies text 1 rsp 6 200 OK%0a2 rsp 6 200 OK%0a
leaves text 0 4294967296 0 2 relp 5%0a
leaves text
lacks

- one that is forwarded to a collector
device 16384
call format 1 4096
out text 1 slots of 4096 bytes%0a
ends 0
call replay relp
open
in text 2 syslog 5 hello%0a
out text 2 rsp 6 200 OK%0a
ends 0
call drain hec --out-token 11111111-2222-3333-4444-555555555555 --out-channel cccccccc-2222-3333-4444-555555555555
in text HTTP/1.1 200 OK%0d%0aContent-Length: 37%0d%0a%0d%0a{"text":"Success","code":0,"ackId":7}
in text HTTP/1.1 200 OK%0d%0aContent-Length: 19%0d%0a%0d%0a{"acks":{"7":true}}
leaves text 0 4294967296 0 2 relp 5%0a
leaves text
lacks"#;
