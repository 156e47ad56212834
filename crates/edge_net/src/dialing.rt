//! How a place is dialed.
use std::io;
use std::net::{self, TcpStream, ToSocketAddrs};
use std::time::Duration;

/// Connects to the first of the host's addresses that answers, and waits for each for as long as `wait` at most. The error is that of
/// the last one.
pub(crate) fn connected<R: net::Net<Stream = TcpStream>>(
    rt: &R,
    place: &str,
    wait: Duration,
) -> io::Result<TcpStream> {
    let mut last = io::Error::other("its host has no address");
    for address in place.to_socket_addrs(rt)? {
        match TcpStream::connect_timeout(rt, &address, wait) {
            Ok(stream) => return Ok(stream),
            Err(error) => last = error,
        }
    }
    Err(last)
}
