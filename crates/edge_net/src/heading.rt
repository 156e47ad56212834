//! The head that a proxy puts before the first byte of a connection.
ghost use Rattle.std.specs.Prelude.{◌≡◌, None, IfOk};
ghost use Rattle.std.specs.Option.{option_to_list};
ghost use Rattle.std.specs.Io.KnownBytes.{Consumes, IsAtEnd};
ghost use Rattle.edge_net.specs.Heading.{IsDue, TakesHead};

use crate::Proxies;
use crate::patience::read_on;
use crate::since::millis;
use proxy_head::{HeadFault, MOST_HEAD, Reading, Source, read};
use std::io::{self, ErrorKind, Read};
use std::net::IpAddr;
use std::rt::Clock;
use std::time::Duration;

/// What is due before the first byte of a connection that was accepted.
#[derive(Clone, Copy, PartialEq, Eq)]
pub(crate) enum Due {
    /// Nothing, or it has come.
    Nothing,
    /// A head, since the connection is a proxy's.
    Head,
    /// Nothing that is read: senders come through proxies, and this is none.
    Refused,
    /// Nothing that is read any more: a head was due, and none came whole.
    Ended,
}

/// Why a connection is ended before the first byte of it is read.
#[derive(Clone, Copy, PartialEq, Eq)]
pub enum Unheaded {
    /// It doesn't come through a proxy.
    Stranger,
    /// It ended within the head.
    Cut,
    /// What it begins with is no head.
    Wrong(HeadFault),
}

/// What came where a head is due.
#[derive(Clone, Copy)]
pub(crate) enum Headed {
    /// A head, which tells the sender, or that the connection is the proxy's own.
    Whole(Option<Source>),
    /// No byte: the connection has ended.
    Empty,
    /// No head.
    Not(Unheaded),
}

/// What is due before the first byte of a connection that comes from this address, where these proxies are named.
pub(crate) fn due_of(proxies: &Proxies, address: IpAddr) -> Due
    ensures { IsDue proxies.now address result }
{
    if proxies.is_none() {
        Due::Nothing
    } else if proxies.have(address) {
        Due::Head
    } else {
        Due::Refused
    }
}

// Whether more than `wait` has passed since `began`, in milliseconds of the clock.
fn is_over(rt: &impl Clock, began: u64, wait: Duration) -> bool {
    let passed = millis(rt).unwrap_or(u64::MAX).saturating_sub(began);
    Duration::from_millis(passed) > wait
}

// The next byte of a stream, or none where it has ended.
fn next_byte<S: Read>(stream: &mut S) -> io::Result<Option<u8>>
    ensures bytes { IfOk result (λ next. Consumes (S.remaining stream.old) (S.remaining stream.new) (option_to_list next)) }
    ensures end { IfOk result (λ next. next ≡ None → IsAtEnd (S.remaining stream.new)) }
{
    let mut byte = [0];
    let count = read_on(stream, &mut byte)?;
    Ok(if count == 0 { None } else { Some(byte[0]) })
}

/// Reads the head from a stream, byte by byte, so that what follows it is left there. It has as long to come as a sender may be silent:
/// after that it is an error of the kind `TimedOut`. Other errors are the system's. What was read before an error is lost.
// It is kept out of line: each read of a connection would else take as much stack as it does.
#[inline(never)]
pub(crate) fn read_head<S: Read>(
    rt: &impl Clock,
    stream: &mut S,
    wait: Duration,
) -> io::Result<Headed>
    ensures { IfOk result (λ headed. TakesHead (S.remaining stream.old) (S.remaining stream.new) headed) }
{
    read_within(rt, stream, wait, &mut [0; MOST_HEAD])
}

// The same by way of these bytes, of which the head has no more.
fn read_within<S: Read>(
    rt: &impl Clock,
    stream: &mut S,
    wait: Duration,
    bytes: &mut [u8],
) -> io::Result<Headed>
    ensures { IfOk result (λ headed. TakesHead (S.remaining stream.old) (S.remaining stream.new) headed) }
{
    let began = millis(rt).unwrap_or(0);
    for count in 0..bytes.len() {
        let Some(byte) = next_byte(stream)? else {
            return Ok(match count {
                0 => Headed::Empty,
                _ => Headed::Not(Unheaded::Cut),
            });
        };
        bytes[count] = byte;
        match read(&bytes[..count + 1]) {
            Ok(Reading::Whole(head)) => return Ok(Headed::Whole(head.source)),
            Ok(Reading::More) if is_over(rt, began, wait) => break,
            Ok(Reading::More) => {}
            Err(fault) => return Ok(Headed::Not(Unheaded::Wrong(fault))),
        }
    }
    Err(io::Error::from(ErrorKind::TimedOut))
}
