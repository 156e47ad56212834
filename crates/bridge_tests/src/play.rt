//! A device, the next call of `bridge` over it, and what that call has to leave.

use crate::parts::MEMORY;
use bridge_core::{Ended, bridge};
use edge_io::{MemDoor, MemNet, MemScript, MemSink, MemSource};
use edge_memory::MemDisk;
use notes::Note;
use std::alloc::Global;
use std::process::Abort;
use std::sync::Wait;
use std::thread::Threads;

/// What a call over a disk that fails may leave: how many bytes of the output, and what `list` then
/// prints.
#[derive(Drop)]
pub(crate) struct Outcome {
    pub(crate) written: u64,
    pub(crate) lines: Vec<u8>,
}

/// A device and the next call.
#[derive(Drop)]
pub(crate) struct Play {
    /// The device as it stands, and as it stood before the last call.
    pub(crate) device: Vec<u8>,
    pub(crate) before: Vec<u8>,
    /// What the next call is given: its words and its input, and which reads and writes fail, from
    /// 0.
    pub(crate) words: String,
    pub(crate) input: Vec<u8>,
    pub(crate) reads: Vec<u64>,
    pub(crate) writes: Vec<u64>,
    /// The most bytes of a read.
    pub(crate) piece: usize,
    /// The output that is wanted, and what may be left where the disk fails.
    pub(crate) output: Vec<u8>,
    pub(crate) outcomes: Vec<Outcome>,
    /// Whether the outcomes are those of a session that forwards: what it has written says nothing of them.
    pub(crate) is_drain: bool,
    /// The input of the same call after one whose disk failed or stopped, and the output that is wanted then; none where
    /// no such call is made.
    pub(crate) after: Vec<u8>,
    pub(crate) answer: Vec<u8>,
    /// What the peer at the place `there` gives, and which reads, writes and dials fail, from 0.
    pub(crate) replies: Vec<u8>,
    pub(crate) peer_reads: Vec<u64>,
    pub(crate) peer_writes: Vec<u64>,
    pub(crate) dials: Vec<u64>,
    /// What the links that are hung up must have been written, one after another, and how many these are.
    pub(crate) sent: Vec<u8>,
    pub(crate) links: usize,
}

/// What a call left: how it ended, and the objects that it was given.
#[derive(Drop)]
pub(crate) struct Left {
    pub(crate) status: u8,
    pub(crate) note: Note,
    pub(crate) disk: MemDisk,
    pub(crate) doors: Vec<MemDoor>,
    pub(crate) output: MemSink,
    pub(crate) net: MemNet,
}

/// The words of a text, with spaces between them.
pub(crate) fn words_of(rt: &impl Abort, alloc: Global, text: &str) -> Vec<String> {
    let mut words = Vec::new(alloc);
    for word in text.split(' ') {
        if !word.is_empty() {
            let word = String::from_str(alloc, word).expect(rt, MEMORY);
            words.push(word).expect(rt, MEMORY);
        }
    }
    words
}

/// Makes a call with these words.
pub(crate) fn made<R: Abort + Threads + Wait + Sync>(
    rt: &R,
    alloc: Global,
    words: &str,
    disk: MemDisk,
    mut input: MemSource,
    mut output: MemSink,
    mut net: MemNet,
) -> Left {
    let words = words_of(rt, alloc, words);
    let Ended {
        status,
        note,
        disk,
        doors,
    } = bridge(rt, alloc, &words, disk, &mut input, &mut output, &mut net);
    Left {
        status,
        note,
        disk,
        doors,
        output,
        net,
    }
}

/// Makes a call with these words and this input, of which a read gives at most so many bytes, over a device. No call of an object
/// fails, and there is no peer.
pub(crate) fn plain<R: Abort + Threads + Wait + Sync>(
    rt: &R,
    alloc: Global,
    words: &str,
    input: &[u8],
    piece: usize,
    device: &[u8],
) -> Left {
    let device = device.to_vec(alloc).expect(rt, MEMORY);
    let input = input.to_vec(alloc).expect(rt, MEMORY);
    made(
        rt,
        alloc,
        words,
        MemDisk::of(device, Vec::new(alloc)),
        MemSource::of(input, piece.max(1), Vec::new(alloc)),
        MemSink::of(alloc, Vec::new(alloc)),
        MemNet::of(alloc, Vec::new(alloc), Vec::new(alloc), Vec::new(alloc)),
    )
}

/// A device with an empty spool, as the program makes it.
pub(crate) fn formatted<R: Abort + Threads + Wait + Sync>(rt: &R, alloc: Global) -> Vec<u8> {
    let zeros = vec![in alloc; 0; 20_480].expect(rt, MEMORY);
    let left = plain(rt, alloc, "format 2 4096", &[], 1, &zeros);
    left.disk.bytes().to_vec(alloc).expect(rt, MEMORY)
}

impl Play {
    /// A call with no words yet over this device, with reads of at most so many bytes.
    pub(crate) fn over(alloc: Global, device: Vec<u8>, piece: usize) -> Play {
        Play {
            device,
            before: Vec::new(alloc),
            words: String::new(alloc),
            input: Vec::new(alloc),
            reads: Vec::new(alloc),
            writes: Vec::new(alloc),
            piece,
            output: Vec::new(alloc),
            outcomes: Vec::new(alloc),
            is_drain: false,
            after: Vec::new(alloc),
            answer: Vec::new(alloc),
            replies: Vec::new(alloc),
            peer_reads: Vec::new(alloc),
            peer_writes: Vec::new(alloc),
            dials: Vec::new(alloc),
            sent: Vec::new(alloc),
            links: 0,
        }
    }

    // A net that has a peer at the place `there`.
    fn net(&self, rt: &impl Abort, alloc: Global) -> MemNet {
        let mut scripts = Vec::new(alloc);
        let script = MemScript {
            place: String::from_str(alloc, "there").expect(rt, MEMORY),
            bytes: self.replies.to_vec(alloc).expect(rt, MEMORY),
            reads: self.peer_reads.to_vec(alloc).expect(rt, MEMORY),
            writes: self.peer_writes.to_vec(alloc).expect(rt, MEMORY),
        };
        scripts.push(script).expect(rt, MEMORY);
        let dials = self.dials.to_vec(alloc).expect(rt, MEMORY);
        MemNet::of(alloc, Vec::new(alloc), scripts, dials)
    }

    /// Makes the call over this disk.
    pub(crate) fn call<R: Abort + Threads + Wait + Sync>(
        &self,
        rt: &R,
        alloc: Global,
        disk: MemDisk,
    ) -> Left {
        let input = self.input.to_vec(alloc).expect(rt, MEMORY);
        let reads = self.reads.to_vec(alloc).expect(rt, MEMORY);
        let writes = self.writes.to_vec(alloc).expect(rt, MEMORY);
        made(
            rt,
            alloc,
            self.words.as_str(),
            disk,
            MemSource::of(input, self.piece.max(1), reads),
            MemSink::of(alloc, writes),
            self.net(rt, alloc),
        )
    }
}
