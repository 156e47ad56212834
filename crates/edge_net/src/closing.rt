//! The close of a connection whose peer may still send.
use std::io::{ErrorKind, Read};
use std::net::{Shutdown, TcpStream};
use std::rt::Clock;
use std::time::{Duration, Instant};

// How long a read waits for a byte, in milliseconds.
const WAIT_MILLIS: u64 = 20;

// How long no byte may come, in milliseconds.
const MOST_SILENT_MILLIS: u64 = 1_000;

// When the last read may begin, in milliseconds. It waits for little more than 20, so all ends within two seconds.
const MOST_MILLIS: u64 = 1_950;

// How many bytes a read takes at most.
const READ_BYTES: usize = 4_096;

// Whether a read waited in vain: no byte came in its time, or a signal cut it short.
fn is_vain(kind: ErrorKind) -> bool {
    matches!(kind, ErrorKind::WouldBlock | ErrorKind::Interrupted)
}

/// Closes the connection so that its peer gets what was written to it last, and then the end of the stream.
///
/// Where bytes of the peer were not read, the system answers a close by a reset, and the peer's system may throw away what its
/// program has not read yet. So the stream to the peer is ended first, and then what still comes is read and dropped, until the
/// peer ends its side too. A peer that did so before costs no wait.
///
/// By the clock that takes two seconds at most, whatever the peer sends, and little more than one where it sends nothing. After
/// these, and at an error, the clock's too, which is not told, the connection is closed whatever still comes.
pub(crate) fn close_after_peer(rt: &impl Clock, mut stream: TcpStream) {
    let wait = Duration::from_millis(WAIT_MILLIS);
    if stream.shutdown(Shutdown::Write).is_err() || stream.set_read_timeout(Some(wait)).is_err() {
        return;
    }
    let Ok(start) = Instant::now(rt) else {
        return;
    };
    let mut dropped = [0; READ_BYTES];
    // when the last byte came, after the start
    let mut heard = Duration::ZERO;
    for _ in 0..u64::MAX {
        let outcome = stream.read(&mut dropped);
        let Ok(passed) = start.elapsed(rt) else {
            return;
        };
        match outcome {
            Ok(0) => return,
            Ok(_) => heard = passed,
            Err(error) if is_vain(error.kind()) => {}
            Err(_) => return,
        }
        let silent = passed.saturating_sub(heard);
        if passed >= Duration::from_millis(MOST_MILLIS)
            || silent >= Duration::from_millis(MOST_SILENT_MILLIS)
        {
            return;
        }
    }
}
