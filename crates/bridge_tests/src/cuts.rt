//! A call whose input ends after each number of its bytes.

use crate::parts::MEMORY;
use crate::play::{Play, plain};
use edge_memory::MemDisk;
use notes::Note;
use std::alloc::Global;
use std::process::Abort;
use std::sync::Wait;
use std::thread::Threads;

// Whether the call ends as its input does, at the end of a frame or within one, and leaves the outcome of the whole frames. These are
// so many, and the last of them ends at that place.
fn is_cut_well<R: Abort + Threads + Wait + Sync>(
    rt: &R,
    alloc: Global,
    play: &Play,
    frames: usize,
    place: u64,
) -> bool {
    let (status, note) = if place == play.input.len() as u64 {
        (0, Note::Fine)
    } else {
        (75, Note::Truncated { at: place })
    };
    let device = play.device.to_vec(alloc).expect(rt, MEMORY);
    let left = play.call(rt, alloc, MemDisk::of(device, Vec::new(alloc)));
    let list = plain(rt, alloc, "list", &[], 1, left.disk.bytes());
    let outcome = play.outcomes.get(frames).expect(rt, "an outcome");
    let written = left.output.taken();
    let is_told = left.status == status && left.note == note && list.status == 0;
    let is_written = written.len() as u64 == outcome.written && play.output.starts_with(written);
    is_told && is_written && list.output.taken() == outcome.lines.as_slice()
}

/// Whether the call, with its input cut after each number of its bytes, ends and leaves what is due. The frames end at these places,
/// the last one with the input; the first outcome is that of no frame, the next one that of the first frame, and so on.
pub(crate) fn cuts_well<R: Abort + Threads + Wait + Sync>(
    rt: &R,
    alloc: Global,
    play: &mut Play,
    ends: &[u64],
) -> bool {
    let input = play.input.to_vec(alloc).expect(rt, MEMORY);
    play.input.clear();
    let mut is_well = is_cut_well(rt, alloc, play, 0, 0);
    let (mut frames, mut place) = (0_usize, 0_u64);
    for byte in &input {
        play.input.push(*byte).expect(rt, MEMORY);
        let length = play.input.len() as u64;
        if ends.contains(&length) {
            frames = frames.saturating_add(1);
            place = length;
        }
        is_well = is_cut_well(rt, alloc, play, frames, place) && is_well;
    }
    is_well && frames == ends.len()
}
