//! What a window holds.
ghost use Rattle.std.specs.Prelude.{◌≡◌, ◌+◌, ◌-◌, ◌≤◌, ◌<◌, ◌^◌, [], ◌++◌, drop, length, slice_range, None, IsNone};
ghost use Rattle.std.specs.Vec.{vec_len, vec_capacity};
ghost use Rattle.http_edge.specs.declared.limits.TheConstants.{MOST_HEAD, ROOM};
ghost use Rattle.http_edge.specs.Filling.{Fills, IsPacked, Settles, beside_after, counted, window_of};
ghost use Rattle.http_edge.specs.Giving.{GivesNext};
ghost use Rattle.http_edge.specs.Heads.{IsOpenHead};
ghost use Rattle.http_edge.specs.Keeping.{answer, moved};
ghost use Rattle.http_edge.specs.Parts.{IsPart};
ghost use Rattle.http_edge.specs.Scanning.{StandsWithin};

use crate::copy::append;
use crate::fault::HttpFault;
use crate::head::Head;
use crate::left::Left;
use crate::part::{HeadPart, part_of};
use crate::stage::Stage;
use crate::waiting::{Parked, Waiting};
use event_form::FeedFault;
use std::collections::VecDeque;

/// What a window holds: the items that wait, and of the unfinished request its head, once that is whole,
/// its body so far and the bytes that aren't read yet.
#[derive(Drop)]
pub struct Held {
    /// The items that wait.
    pub queue: VecDeque<Waiting>,
    /// How many bytes the heads of the requests that wait have.
    pub heads: usize,
    /// How many bytes of a head are kept beside the window.
    pub beside: usize,
    /// The bodies of the requests that wait, and then that of the unfinished one.
    pub bytes: Vec<u8>,
    /// Where the first of these bodies begins.
    pub from: usize,
    /// Where the unfinished request's body begins.
    pub whole: usize,
    /// The offset of the unfinished request's first byte.
    pub at: u64,
    /// Its head, once that is whole.
    pub begun: Option<Head>,
    /// How many bytes that head has.
    pub size: usize,
    pub stage: Stage,
    /// How many of its bytes were read.
    pub read: usize,
    /// Those that weren't.
    pub unread: Vec<u8>,
    /// How far they bring a head, where none is whole.
    pub part: HeadPart,
    pub fault: Option<HttpFault>,
    /// The head of the request that was given last.
    pub lent: Head,
    /// Memory for bytes that weren't read and a piece after them, while they are read. It is kept, since a large
    /// block that comes and goes makes all small ones slow.
    pub joined: Vec<u8>,
}

/// What is given: a request's body stands between these places.
#[derive(Clone, Copy)]
pub enum Given {
    Continue,
    Request { from: usize, to: usize },
}

// How far the bytes bring a head, where none is whole.
fn part_unless(begun: &Option<Head>, unread: &[u8]) -> HeadPart
    requires small { length unread.now ≤ MOST_HEAD }
    requires head { begun.now ≡ None → IsOpenHead unread.now }
    ensures { begun.now ≡ None → IsPart result unread.now }
{
    match begun {
        None => part_of(unread),
        Some(_) => HeadPart::Other,
    }
}

// How many bytes of a head are kept beside the window, where so many were: all of the unfinished
// request's where nothing waits.
fn beside_after(queue: &VecDeque<Waiting>, beside: usize, size: usize) -> usize
    ensures { result ≡ beside_after queue.now.items beside size }
{
    if queue.is_empty() { size } else { beside }
}

// A fault so many bytes further on.
fn moved(base: u64, fault: Option<HttpFault>) -> Option<HttpFault>
    requires base { base ≤ 2 ^ 40 }
    requires place { StandsWithin fault (2 ^ 40) }
    ensures { result ≡ moved base fault }
{
    match fault {
        None => None,
        Some(HttpFault { at, why }) => Some(HttpFault { at: base + at, why }),
    }
}

// What is answered of a fault.
fn answer(fault: Option<HttpFault>) -> Result<(), FeedFault<HttpFault>>
    ensures { result ≡ answer fault }
{
    match fault {
        None => Ok(()),
        Some(fault) => Err(FeedFault::Fault(fault)),
    }
}

impl Held {
    /// How many bytes are counted.
    pub fn count(&self) -> usize
        requires { Fills self.now }
        ensures count { result ≡ counted self.now }
        ensures bound { result ≤ ROOM }
    {
        self.heads + self.size - self.beside + (self.bytes.len() - self.from) + self.unread.len()
    }

    /// Frees the room of what was given.
    pub fn pack(&mut self)
        requires { Fills self.old }
        ensures fills { Fills self.new }
        ensures packed { IsPacked self.old self.new }
    {
        let len = self.bytes.len();
        if self.from > 0 {
            self.bytes.as_mut_slice().copy_within(self.from..len, 0);
            self.bytes.truncate(len - self.from);
            self.whole -= self.from;
            self.from = 0;
        }
    }

    /// Takes over what is left after requests that begin at an offset. Its bytes that aren't read are the
    /// last of these, and its body is the last of the bytes.
    pub fn settle(&mut self, base: u64, more: &[u8], left: Left) -> Result<(), FeedFault<HttpFault>>
        requires body { left.body ≤ length self.old.bytes.items }
        requires rest { left.rest ≤ length more.now }
        requires short { left.rest < MOST_HEAD }
        requires space { MOST_HEAD ≤ vec_capacity self.old.unread }
        requires head { left.begun ≡ None → IsOpenHead (drop (length more.now - left.rest) more.now) }
        requires room { base + left.from ≤ 2 ^ 40 }
        requires place { StandsWithin left.fault (2 ^ 40) }
        ensures settles { Settles self.old base more.now left self.new }
        ensures told { result ≡ answer (moved base left.fault) }
    {
        let unread = &more[more.len() - left.rest..];
        self.part = part_unless(&left.begun, unread);
        self.unread.clear();
        append(&mut self.unread, unread);
        self.whole = self.bytes.len() - left.body;
        self.at = base + left.from as u64;
        self.begun = left.begun;
        self.size = left.size;
        self.stage = left.stage;
        self.read = left.read;
        self.beside = beside_after(&self.queue, self.beside, left.size);
        self.fault = moved(base, left.fault);
        answer(self.fault)
    }

    /// The next item, which waits no longer.
    pub fn give(&mut self) -> Option<Given>
        requires { Fills self.old }
        ensures { GivesNext self.old result self.new }
    {
        let Some(first) = self.queue.pop_front() else {
            return None;
        };
        match first {
            Waiting::Continue => {
                self.beside = beside_after(&self.queue, self.beside, self.size);
                Some(Given::Continue)
            }
            Waiting::Request(parked) => {
                let Parked { head, size, body } = parked;
                let from = self.from;
                self.from += body;
                self.heads -= size;
                self.beside = beside_after(&self.queue, 0, self.size);
                self.lent = head;
                Some(Given::Request {
                    from,
                    to: from + body,
                })
            }
        }
    }
}
