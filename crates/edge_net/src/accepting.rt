//! Accepts that fail: which errors pass, and how they are waited out.
ghost use Rattle.std.specs.Prelude.{◌≡◌, ◌*◌, min};

use std::net::{OpenListener, SocketAddr};
use std::rt::Clock;
use std::sync::atomic::{AtomicU64, Ordering};
use std::time::Duration;
use std::{io, thread};

// The errors of Linux at which no later accept of the socket can do better: it is no socket, no socket of that kind, none that
// listens, none at all, or the call is not there.
const EBADF: i32 = 9;

const EFAULT: i32 = 14;

const EINVAL: i32 = 22;

const ENOSYS: i32 = 38;

const ENOTSOCK: i32 = 88;

const EOPNOTSUPP: i32 = 95;

// How long the first error is waited out, in milliseconds. Each further one is waited out for twice as long.
const FIRST_WAIT_MILLIS: u64 = 100;

// How long an error is waited out at most, in milliseconds.
const MOST_WAIT_MILLIS: u64 = 1_000;

// How many seconds lie between two lines about a place at least.
const LINE_SECONDS: u64 = 60;

// Whether an error of an accept lasts. All others pass: want of descriptors or of memory, a network that can't be reached, a firewall
// that forbids the connection, a peer that went before it was accepted.
fn is_lasting(error: &io::Error) -> bool {
    matches!(
        error.raw_os_error(),
        Some(EBADF | EFAULT | EINVAL | ENOSYS | ENOTSOCK | EOPNOTSUPP)
    )
}

// How long the next error is waited out, in milliseconds, after one that was waited out for `millis`.
fn next_wait(millis: u64) -> u64
    ensures { result ≡ min (2 * millis) 1_000 }
{
    millis.saturating_mul(2).min(MOST_WAIT_MILLIS)
}

/// Whether a line is due, which is noted in `reported`: none was printed yet, or the last one more than a minute ago. Without a clock
/// none is.
pub(crate) fn is_due(rt: &impl Clock, reported: &AtomicU64) -> bool {
    let Ok(now) = rt.monotonic() else {
        return false;
    };
    let now = now.as_secs().saturating_add(1);
    let last = reported.load(Ordering::SeqCst);
    if last > 0 && now.saturating_sub(last) <= LINE_SECONDS {
        return false;
    }
    reported
        .compare_exchange(last, now, Ordering::SeqCst, Ordering::SeqCst)
        .is_ok()
}

/// Accepts the next connection of `listener`, which listens at `place`, and gives its peer's address with it.
///
/// An error that passes is waited out, whether it is one of the connection that was to be accepted or want of descriptors or memory:
/// for a tenth of a second, and each further one in this call for twice as long, up to a second. Standard error gets a line about
/// it, once a minute at most for all callers that share `reported`, which is 0 at first and only passed on here. The error that is
/// given back is one that lasts: the socket can't accept.
pub fn next_connection<L: OpenListener, R: Clock + Eprint>(
    rt: &R,
    listener: &L,
    place: &str,
    reported: &AtomicU64,
) -> io::Result<(L::Stream, SocketAddr)> {
    let mut wait = FIRST_WAIT_MILLIS;
    for _ in 0..u64::MAX {
        match listener.accept() {
            Ok(accepted) => return Ok(accepted),
            Err(error) if is_lasting(&error) => return Err(error),
            Err(error) => {
                if is_due(rt, reported) {
                    let _ = eprintln!(rt;
                        "bridge: {place}: can't accept a connection: {error}; waiting"
                    );
                }
                thread::sleep(rt, Duration::from_millis(wait));
                wait = next_wait(wait);
            }
        }
    }
    Err(io::Error::other("no connection after 2^64 tries"))
}
