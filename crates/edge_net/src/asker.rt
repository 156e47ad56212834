//! Somebody who has connected to ask over HTTP.
use crate::asking::{Request, request_in};
use crate::telling::Reply;
use std::alloc::Global;
use std::io::{ErrorKind, Read, Write};
use std::net::{Shutdown, TcpStream};
use std::time::Duration;

// How long a request may take to come, in milliseconds.
const MOST_ASKING_MILLIS: u64 = 1_500;

// How long one who was answered may stay, in milliseconds.
const MOST_LEAVING_MILLIS: u64 = 300;

// How long a write waits for the peer, in milliseconds. An answer is shorter than what the system takes at once.
const WRITE_MILLIS: u64 = 200;

// How many bytes the head of a request has at most.
const MOST_BYTES: usize = 8_192;

// How many bytes a read takes at most, and how many reads one look makes.
const READ_BYTES: usize = 1_024;

const MOST_READS: u32 = 8;

// How far somebody is who has connected.
#[derive(Clone, Copy)]
enum Stage {
    // The head of the request comes.
    Asks,
    // It has come.
    HasAsked(Request),
    // The answer was written, and its end. What still comes is read and dropped, so that the peer gets all of it.
    Leaves,
    // The connection is to be closed.
    IsGone,
}

/// Somebody who has connected. No call but that of an answer waits for the peer.
#[derive(Drop)]
pub(crate) struct Asker {
    // It doesn't wait.
    stream: TcpStream,
    // What has come of the request.
    head: Vec<u8>,
    // Since when the stage is what it is, in milliseconds of the clock.
    since: u64,
    stage: Stage,
}

impl Asker {
    /// One who has connected just now. `None`: the system refuses that the stream doesn't wait.
    pub(crate) fn at(alloc: Global, stream: TcpStream, now: u64) -> Option<Asker> {
        stream.set_nonblocking(true).ok()?;
        Some(Asker {
            stream,
            head: Vec::new(alloc),
            since: now,
            stage: Stage::Asks,
        })
    }

    /// What was asked for and wasn't answered yet.
    pub(crate) fn request(&self) -> Option<Request> {
        match self.stage {
            Stage::HasAsked(request) => Some(request),
            _ => None,
        }
    }

    /// Whether the connection is to be closed.
    pub(crate) fn is_gone(&self) -> bool {
        matches!(self.stage, Stage::IsGone)
    }

    // Reads what has come. Gives whether more may come.
    fn read_on(&mut self) -> bool {
        let mut piece = [0; READ_BYTES];
        for _ in 0..MOST_READS {
            match self.stream.read(&mut piece) {
                Ok(0) => return false,
                Ok(n) if matches!(self.stage, Stage::Asks) => {
                    if self.head.extend_from_slice(&piece[..n]).is_err() {
                        return false;
                    }
                }
                Ok(_) => {}
                Err(error) => {
                    let kind = error.kind();
                    return matches!(kind, ErrorKind::WouldBlock | ErrorKind::Interrupted);
                }
            }
        }
        true
    }

    /// Looks at what has come until now, in milliseconds of the clock. It is to be closed where its request has not come whole after a
    /// second and a half, or has more than 8 KiB, or the peer or the connection ended before; and once it was answered, where the peer has
    /// ended it, or a third of a second after that.
    pub(crate) fn look(&mut self, now: u64) {
        if self.request().is_some() {
            return;
        }
        let is_open = self.read_on();
        let waited = now.saturating_sub(self.since);
        match self.stage {
            Stage::Asks => {
                if let Some(request) = request_in(&self.head) {
                    self.stage = Stage::HasAsked(request);
                } else if !is_open
                    || self.head.len() >= MOST_BYTES
                    || waited >= MOST_ASKING_MILLIS
                {
                    self.stage = Stage::IsGone;
                }
            }
            _ => {
                if !is_open || waited >= MOST_LEAVING_MILLIS {
                    self.stage = Stage::IsGone;
                }
            }
        }
    }

    // Writes the answer and ends the stream to the peer. `None`: some call failed, or no memory was found.
    fn write(&mut self, alloc: Global, reply: Reply<'_>) -> Option<()> {
        let text = reply.text(alloc).ok()?;
        let wait = Duration::from_millis(WRITE_MILLIS);
        self.stream.set_nonblocking(false).ok()?;
        self.stream.set_write_timeout(Some(wait)).ok()?;
        self.stream.write_all(text.as_bytes()).ok()?;
        self.stream.set_nonblocking(true).ok()?;
        self.stream.shutdown(Shutdown::Write).ok()
    }

    /// Answers. Nobody learns of an error.
    pub(crate) fn answer(&mut self, alloc: Global, reply: Reply<'_>, now: u64) {
        self.since = now;
        self.stage = match self.write(alloc, reply) {
            Some(()) => Stage::Leaves,
            None => Stage::IsGone,
        };
    }

    /// That there is no answer for want of memory.
    pub(crate) fn let_go(&mut self) {
        self.stage = Stage::IsGone;
    }
}
