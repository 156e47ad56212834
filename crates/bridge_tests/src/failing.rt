//! The doors and the net of a run in which one call fails.

use crate::parts::MEMORY;
use crate::places::{PLACES, Place, REPLIES};
use edge_io::{MemDoor, MemLink, MemNet, MemPlace, MemScript, MemSink, MemSource};
use std::alloc::Global;
use std::process::Abort;

// The objects that a run uses, by their numbers. Of the first three kinds there is one for each of `PLACES`, in order: the numbers
// from this one on.

/// The accepts of a door.
pub(crate) const ACCEPT: usize = 0;

/// The reads of a door's link.
pub(crate) const READ: usize = 3;

/// The writes of a door's link.
pub(crate) const WRITE: usize = 6;

/// The reads of the peer that is dialed.
pub(crate) const PEER_READ: usize = 9;

/// The writes to that peer.
pub(crate) const PEER_WRITE: usize = 10;

/// The binds, and then the dials.
pub(crate) const NET: usize = 11;

/// The writes of the output.
pub(crate) const OUTPUT: usize = 12;

/// The calls of the disk.
pub(crate) const DISK: usize = 13;

/// A call that fails: the object's number, and the call's from 0. None: no call fails.
pub(crate) type Failing = Option<(usize, u64)>;

/// The calls of an object that fail.
pub(crate) fn calls_of(
    rt: &impl Abort,
    alloc: Global,
    failing: Failing,
    object: usize,
) -> Vec<u64> {
    let mut numbers = Vec::new(alloc);
    if let Some((its, number)) = failing {
        if its == object {
            numbers.push(number).expect(rt, MEMORY);
        }
    }
    numbers
}

// A place of the net, with its door, at which the place's link comes in.
fn mem_place(
    rt: &impl Abort,
    alloc: Global,
    place: &Place,
    number: usize,
    failing: Failing,
) -> MemPlace {
    let accepts = calls_of(rt, alloc, failing, ACCEPT.saturating_add(number));
    let reads = calls_of(rt, alloc, failing, READ.saturating_add(number));
    let writes = calls_of(rt, alloc, failing, WRITE.saturating_add(number));
    let input = place.input.to_vec(alloc).expect(rt, MEMORY);
    let link = MemLink::of(MemSource::of(input, 100, reads), MemSink::of(alloc, writes));
    let mut links = Vec::new(alloc);
    links.push(link).expect(rt, MEMORY);
    let mut doors = Vec::new(alloc);
    doors
        .push(MemDoor::of(alloc, links, accepts))
        .expect(rt, MEMORY);
    MemPlace {
        place: String::from_str(alloc, place.name).expect(rt, MEMORY),
        doors,
    }
}

/// The net: the places, and the peer that is dialed.
pub(crate) fn net(rt: &impl Abort, alloc: Global, failing: Failing) -> MemNet {
    let mut places = Vec::new(alloc);
    for (number, at) in PLACES.iter().enumerate() {
        places
            .push(mem_place(rt, alloc, at, number, failing))
            .expect(rt, MEMORY);
    }
    let mut scripts = Vec::new(alloc);
    let script = MemScript {
        place: String::from_str(alloc, "d").expect(rt, MEMORY),
        bytes: REPLIES.to_vec(alloc).expect(rt, MEMORY),
        reads: calls_of(rt, alloc, failing, PEER_READ),
        writes: calls_of(rt, alloc, failing, PEER_WRITE),
    };
    scripts.push(script).expect(rt, MEMORY);
    let calls = calls_of(rt, alloc, failing, NET);
    MemNet::of(alloc, places, scripts, calls)
}
