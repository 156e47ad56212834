//! What the links of the places were answered where a call of `serve` fails, and how their talks end.
use crate::failing::{ACCEPT, DISK, READ, WRITE};
use crate::places::{PLACES, Place};
use crate::served::Served;
use edge_io::MemDoor;

// Whether some bytes have others among them.
fn has(bytes: &[u8], part: &[u8]) -> bool {
    for at in 0..bytes.len() {
        if bytes[at..].starts_with(part) {
            return true;
        }
    }
    false
}

// Whether each event that was acknowledged to the link of a place is pending, or was sent.
fn is_kept(place: &Place, written: &[u8], run: &Served) -> bool {
    let mut rest = written;
    for answer in place.answers {
        match rest.strip_prefix(answer.text) {
            Some(more) => rest = more,
            None => return true,
        }
        for event in answer.events {
            if !has(&run.pending, event) && !has(&run.sessions.sent, event) {
                return false;
            }
        }
    }
    true
}

/// Whether each event that was acknowledged to a link of any place is pending, or was sent.
pub(crate) fn are_kept(run: &Served) -> bool {
    let doors = run.left.doors.as_slice();
    for number in 0..doors.len() {
        let Some(place) = PLACES.get(number) else {
            return false;
        };
        for talk in doors[number].talks() {
            if !is_kept(place, &talk.written, run) {
                return false;
            }
        }
    }
    true
}

// Whether that was written to the link of a place, which gave all that it has.
fn is_answered(place: &Place, written: &[u8]) -> bool {
    let mut rest = written;
    for answer in place.answers {
        match rest.strip_prefix(answer.text) {
            Some(more) => rest = more,
            None => return false,
        }
    }
    rest.is_empty()
}

// Whether the talk at this place ended with this status, answered whole where that is 0; or whether there was none.
fn ends_talk(place: &Place, door: &MemDoor, status: Option<u8>) -> bool {
    match (door.talks(), status) {
        ([talk, ..], Some(status)) => {
            talk.status == status && (status != 0 || is_answered(place, &talk.written))
        }
        ([], None) => true,
        _ => false,
    }
}

/// Whether each talk ended as it has to where that call fails; there is none where its accept fails. One call of the disk may end one
/// talk, whichever made it; with `--group` it may end each talk of which a group was stored with it.
pub(crate) fn talks_end(object: usize, run: &Served) -> bool {
    let mut may_fault = object == DISK;
    let doors = run.left.doors.as_slice();
    for number in 0..doors.len() {
        let Some(place) = PLACES.get(number) else {
            return false;
        };
        let status = if object == ACCEPT.saturating_add(number) {
            None
        } else if object == READ.saturating_add(number) {
            Some(71)
        } else if object == WRITE.saturating_add(number) {
            Some(72)
        } else {
            Some(0)
        };
        if ends_talk(place, &doors[number], status) {
            continue;
        }
        if !may_fault || !ends_talk(place, &doors[number], Some(73)) {
            return false;
        }
        may_fault = run.is_grouped;
    }
    true
}
