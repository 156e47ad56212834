//! How long, and how often, a link's calls wait for the peer.
ghost use Rattle.std.specs.Prelude.{◌≡◌, ◌≤◌, length, IfOk};
ghost use Rattle.std.specs.Io.KnownBytes.{ReadConsumes};

use crate::budget::{Budget, Part};
use std::io::{self, ErrorKind, Read, Write};
use std::net::TcpStream;
use std::time::Duration;

// How many times a call is made, where signals interrupt it each time.
const MOST_TRIES: u32 = 1_000;

// How long a sender may be silent whose connection takes much memory while another one waits for some, in seconds.
const TURN_SECONDS: u64 = 10;

/// How long a call of the system waits for the peer: as long as the link does, or a turn of that where it takes much memory.
pub(crate) fn turn_of(part: Part, wait: Duration) -> Duration {
    match part {
        Part::Many(_) => wait.min(Duration::from_secs(TURN_SECONDS)),
        _ => wait,
    }
}

/// How many turns a read waits.
pub(crate) fn turns_of(part: Part, wait: Duration) -> u64 {
    match part {
        Part::Many(_) => (wait.as_secs() / TURN_SECONDS).max(1),
        _ => 1,
    }
}

/// A read of the stream, which is tried again where a signal interrupts it.
pub(crate) fn read_on<S: Read>(stream: &mut S, buf: &mut [u8]) -> io::Result<usize>
    ensures bound { IfOk result (λ n. n ≤ length buf.new) }
    ensures len { length buf.new ≡ length buf.old }
    ensures bytes { ReadConsumes (S.remaining stream.old) (S.remaining stream.new) result buf.new }
{
    'tries: for _ in 1..MOST_TRIES {
        match stream.read(buf) {
            Err(error) if error.kind() == ErrorKind::Interrupted => {}
            outcome => return outcome,
        }
    }
    stream.read(buf)
}

// Whether a read waited for its peer in vain.
fn is_silence(outcome: &io::Result<usize>) -> bool {
    match outcome {
        Err(error) => matches!(error.kind(), ErrorKind::WouldBlock | ErrorKind::TimedOut),
        Ok(_) => false,
    }
}

/// A read of the stream, which waits in vain that often at most; but only once while a connection waits for memory. It gives how often it
/// waited with what came of it.
pub(crate) fn read_patiently(
    stream: &mut TcpStream,
    budget: &Budget,
    times: u64,
    buf: &mut [u8],
) -> (u64, io::Result<usize>)
    ensures bound { IfOk result.1 (λ n. n ≤ length buf.new) }
    ensures len { length buf.new ≡ length buf.old }
{
    for time in 1..times {
        let outcome = read_on(stream, buf);
        if !is_silence(&outcome) || budget.is_wanted() {
            return (time, outcome);
        }
    }
    (times, read_on(stream, buf))
}

/// A write to the stream, which is tried again where a signal interrupts it.
pub(crate) fn write_on(stream: &mut TcpStream, piece: &[u8]) -> io::Result<usize>
    ensures bound { IfOk result (λ n. n ≤ length piece.now) }
{
    for _ in 1..MOST_TRIES {
        match stream.write(piece) {
            Err(error) if error.kind() == ErrorKind::Interrupted => {}
            outcome => return outcome,
        }
    }
    stream.write(piece)
}
