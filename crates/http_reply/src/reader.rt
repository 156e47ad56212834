//! The reader of a stream that comes in pieces.
ghost use Rattle.std.specs.Prelude.{◌≡◌, ℕ, ◌+◌, ◌≤◌, ◌<◌, ◌^◌, List, [], ◌∷◌, ◌++◌, length, ◌↔◌, IsNone, IsSome, IfSome, IfNone, Some, None, Err, option_to_list};
ghost use Rattle.std.specs.VecDeque.{deque_capacity, deque_len};
ghost use Rattle.event_form.specs.declared.feed_fault.FeedFault.TheVariants.{Fault};
ghost use Rattle.stream_grammar.specs.Feeding.{GivesOn};
ghost use Rattle.http_edge.specs.declared.fault.HttpFault.{HttpFault};
ghost use Rattle.http_edge.specs.declared.gather.Ending.TheVariants.{Whole};
ghost use Rattle.http_edge.specs.declared.limits.TheConstants.{MOST_HEAD, ROOM};
ghost use Rattle.http_edge.specs.Gathering.{GathersTo};
ghost use Rattle.http_reply.specs.declared.reply.HttpReply.{HttpReply};
ghost use Rattle.http_reply.specs.Keeping.{FeedsAll, KeepsLeft, answer, settled};
ghost use Rattle.http_reply.specs.Heads.{IsOpenHead};
ghost use Rattle.http_reply.specs.Parts.{IsPart};
ghost use Rattle.http_reply.specs.ReplyStream.{given_of};
ghost use Rattle.http_reply.specs.Reading.{Feeds, Reads, come, held, unfed};

use crate::body::{Brought, bring};
use crate::left::Left;
use crate::part::{HeadPart, part_of, run};
use crate::reply::{HttpReply, is_interim};
use crate::scan::{Scanned, scan};
use event_form::{Blob, FeedFault};
use http_edge::gather::Ending;
use http_edge::{HttpFault, MOST_HEAD, Stage, join, place};
use std::alloc::Global;
use std::collections::VecDeque;
use std::marker::Model;
use std::mem;

/// A reader of a stream of replies that comes in pieces, cut anywhere. Of an unfinished reply it holds at most
/// 1,064,960 bytes: those not read yet and the body so far.
///
/// Contracts see the replies that wait to be taken, the offset of the unfinished reply's first byte, what is held of
/// that reply, and the fault.
#[derive(Drop)]
pub struct ReplyReader {
    alloc: Global,
    waiting: VecDeque<HttpReply>,
    at: u64,
    begun: Option<u16>,
    stage: Stage,
    body: Vec<u8>,
    read: usize,
    unread: Vec<u8>,
    // How far they bring a head, where none is whole.
    part: HeadPart,
    fault: Option<HttpFault>,
}

impl Model for ReplyReader {
    ghost use Rattle.http_reply.specs.Reading.{Reading};

    ghost Value = { Reading };

    ghost use Rattle.http_reply.specs.Keeping.{HoldsPart, Keeps};

    ghost view = { λ r. record {
      waiting = r.waiting.items;
      at = r.at;
      begun = r.begun;
      stage = r.stage;
      body = r.body.items;
      read = r.read;
      unread = r.unread.items;
      fault = r.fault;
    } };

    ghost invariant = { λ r. Keeps r.at r.stage r.body.items r.read r.unread.items × HoldsPart r.begun r.part r.unread.items };
}

// Adds a reply that isn't an interim one, where there is room for it.
fn give_reserved(waiting: &mut VecDeque<HttpReply>, reply: HttpReply)
    requires { deque_len waiting.old < deque_capacity waiting.old }
    ensures items { waiting.new.items ≡ waiting.old.items ++ given_of reply }
    ensures len { deque_len waiting.new ≤ deque_len waiting.old + 1 }
    ensures capacity { deque_capacity waiting.new ≡ deque_capacity waiting.old }
{
    if !is_interim(reply.status) {
        waiting.push_back_reserved(reply);
    }
}

// Moves the replies to the back, where there is room for them.
fn append_reserved(waiting: &mut VecDeque<HttpReply>, mut replies: VecDeque<HttpReply>)
    requires { deque_len waiting.old + deque_len replies ≤ deque_capacity waiting.old }
    ensures { waiting.new.items ≡ waiting.old.items ++ replies.items }
{
    if waiting.append(&mut replies).is_err() {
        unreachable!();
    }
}

// How far the bytes bring a head, where none is whole.
fn part_unless(begun: Option<u16>, unread: &[u8]) -> HeadPart
    requires { begun ≡ None → IsOpenHead unread.now }
    ensures { begun ≡ None → IsPart result unread.now }
{
    match begun {
        None => part_of(unread),
        Some(_) => HeadPart::Other,
    }
}

// What is answered of a fault.
fn answer(fault: Option<HttpFault>) -> Result<(), FeedFault<HttpFault>>
    ensures { result ≡ answer fault }
{
    match fault {
        None => Ok(()),
        Some(fault) => Err(FeedFault::Fault(fault)),
    }
}

impl ReplyReader {
    /// A reader at the stream's first byte. It keeps the allocator for what it is fed.
    pub fn new(alloc: Global) -> ReplyReader
        ensures empty { result ≡ unfed }
        ensures reads { Reads [] [] result }
    {
        ReplyReader {
            alloc,
            waiting: VecDeque::new(alloc),
            at: 0,
            begun: None,
            stage: Stage::Plain { left: 0 },
            body: Vec::new(alloc),
            read: 0,
            unread: Vec::new(alloc),
            part: HeadPart::Blank,
            fault: None,
        }
    }

    // Takes over what is left after the replies of some bytes that begin at an offset, and reports a fault.
    fn settle(&mut self, base: u64, left: Left) -> Result<(), FeedFault<HttpFault>>
        requires keeps { KeepsLeft base left }
        requires head { left.begun ≡ None → IsOpenHead left.unread.items }
        ensures state { self.new ≡ settled self.old base left }
        ensures told { result ≡ answer left.fault }
        ensures bound { held self.new ≤ ROOM }
    {
        self.part = part_unless(left.begun, &left.unread);
        self.at = base + left.from as u64;
        self.begun = left.begun;
        self.stage = left.stage;
        self.body = left.body;
        self.read = left.read;
        self.unread = left.unread;
        self.fault = left.fault;
        answer(self.fault)
    }

    // Keeps a piece with the bytes of a head that isn't whole. No parser has to judge it.
    fn keep(&mut self, piece: &[u8], part: HeadPart) -> Result<(), FeedFault<HttpFault>>
        requires open { (self.old.fault ≡ None) × (self.old.begun ≡ None) }
        requires part { IsPart part (self.old.unread ++ piece.now) }
        requires short { length self.old.unread + length piece.now < MOST_HEAD }
        requires room { self.old.at + come self.old + length piece.now ≤ 2 ^ 40 }
        ensures feeds { Feeds self.old piece.now result self.new }
        ensures room { self.new.at + come self.new ≤ self.old.at + come self.old + length piece.now }
        ensures bound { held self.new ≤ ROOM }
    {
        self.unread.extend_from_slice(piece)?;
        self.part = part;
        Ok(())
    }

    // Reads bytes, those not read before first, where no head is whole.
    fn read_replies(&mut self, all: &[u8]) -> Result<(), FeedFault<HttpFault>>
        requires fault { self.old.fault ≡ None }
        requires begun { self.old.begun ≡ None }
        requires longer { length self.old.unread ≤ length all.now }
        requires room { self.old.at + self.old.read + length all.now ≤ 2 ^ 40 }
        ensures feeds { FeedsAll self.old all.now result self.new }
        ensures room { self.new.at + come self.new ≤ self.old.at + self.old.read + length all.now }
        ensures bound { held self.new ≤ ROOM }
    {
        let base = self.at;
        let Scanned { mut replies, left } = scan(self.alloc, base, all)?;
        self.waiting.append(&mut replies)?;
        self.settle(base, left)
    }

    // Reads bytes that end a reply, of which so many are read and these are the last of the body, and the replies
    // after it. Nothing is given up before the last memory is found.
    fn read_after(
        &mut self,
        last: &[u8],
        used: usize,
        all: &[u8],
    ) -> Result<(), FeedFault<HttpFault>>
        requires begun { (self.old.fault ≡ None) × IsSome self.old.begun }
        requires longer { length self.old.unread ≤ length all.now }
        requires ends { GathersTo self.old.stage (length self.old.body) all.now last.now used Whole }
        requires room { self.old.at + self.old.read + length all.now ≤ 2 ^ 40 }
        ensures feeds { FeedsAll self.old all.now result self.new }
        ensures room { self.new.at + come self.new ≤ self.old.at + self.old.read + length all.now }
        ensures bound { held self.new ≤ ROOM }
    {
        let base = self.at + (self.read + used) as u64;
        let Scanned { replies, left } = scan(self.alloc, base, &all[used..])?;
        self.waiting.reserve(replies.len() + 1)?;
        self.body.extend_from_slice(last)?;
        let Some(status) = self.begun.take() else {
            unreachable!();
        };
        self.unread.clear();
        self.part = HeadPart::Blank;
        let body = mem::replace(&mut self.body, Vec::new(self.alloc));
        let reply = HttpReply {
            status,
            body: Blob::of(body),
            at: self.at,
        };
        give_reserved(&mut self.waiting, reply);
        append_reserved(&mut self.waiting, replies);
        self.settle(base, left)
    }

    // Reads bytes, those not read before first, where a head is whole.
    fn read_body(&mut self, all: &[u8]) -> Result<(), FeedFault<HttpFault>>
        requires begun { (self.old.fault ≡ None) × IsSome self.old.begun }
        requires longer { length self.old.unread ≤ length all.now }
        requires room { self.old.at + self.old.read + length all.now ≤ 2 ^ 40 }
        ensures feeds { FeedsAll self.old all.now result self.new }
        ensures room { self.new.at + come self.new ≤ self.old.at + self.old.read + length all.now }
        ensures bound { held self.new ≤ ROOM }
    {
        let Brought { bytes, used, end } = bring(self.alloc, self.stage, self.body.len(), all)?;
        match end {
            Ending::Whole => self.read_after(&bytes, used, all),
            Ending::Open(stage) => {
                let unread = Vec::from_slice(self.alloc, &all[used..])?;
                self.body.extend_from_slice(&bytes)?;
                self.stage = stage;
                self.read += used;
                self.unread = unread;
                Ok(())
            }
            Ending::Bad(why) => {
                let base = self.at;
                let at = base + place(why, self.read + used) as u64;
                self.settle(base, Left::cleared(self.alloc, 0, HttpFault { at, why }))
            }
        }
    }

    /// Adds the next piece of the stream, and reads it to its end or to the first fault. The bytes fed before and
    /// this piece are together at most 2^40.
    ///
    /// `Fault` comes exactly where the bytes so far have a fault, with its offset and rule: that of the reply's first
    /// byte, or of a bad chunk as [`HttpFault`] says. A reply without a length is `BadLength`, one of 204 or 304 too.
    /// The replies before a fault can still be taken; later calls answer the same and add nothing. After `NoMemory`
    /// the reader is as before, and the piece was not added.
    pub fn feed(&mut self, piece: &[u8]) -> Result<(), FeedFault<HttpFault>>
        requires { self.old.at + come self.old + length piece.now ≤ 2 ^ 40 }
        ensures feeds { Feeds self.old piece.now result self.new }
        ensures stays { (e : HttpFault) → self.old.fault ≡ Some e → (result ≡ Err (Fault e)) × (self.new ≡ self.old) }
        ensures room { self.new.at + come self.new ≤ self.old.at + come self.old + length piece.now }
        ensures bound { held self.new ≤ ROOM }
    {
        if let Some(fault) = self.fault {
            return Err(FeedFault::Fault(fault));
        }
        if self.begun.is_some() {
            let mut all = Vec::new(self.alloc);
            join(&mut all, &self.unread, piece)?;
            return self.read_body(&all);
        }
        let ran = run(self.part, piece);
        if ran.used == piece.len() && self.unread.len() + piece.len() < MOST_HEAD {
            return self.keep(piece, ran.part);
        }
        let mut all = Vec::new(self.alloc);
        join(&mut all, &self.unread, piece)?;
        self.read_replies(&all)
    }

    /// The next reply, which stays; `None` exactly where none waits. It takes no memory.
    pub fn front(&self) -> Option<&HttpReply>
        ensures none { IfNone result (self.now.waiting ≡ []) }
        ensures some { IfSome result (λ reply. (more : List HttpReply) × (self.now.waiting ≡ reply.now ∷ more)) }
    {
        self.waiting.front()
    }

    /// The next reply; `None` exactly where none waits. It takes no memory.
    pub fn take(&mut self) -> Option<HttpReply>
        ensures gives { self.old.waiting ≡ option_to_list result ++ self.new.waiting }
        ensures none { IfNone result (self.old.waiting ≡ []) }
        ensures same { self.new ≡ record self.old { waiting = self.new.waiting } }
        ensures reads { GivesOn Reads self.old (option_to_list result) self.new }
    {
        self.waiting.pop_front()
    }

    /// The offset of the unfinished reply's first byte; `None` where the stream ends at a reply's end. After a fault
    /// it is the offset of the reply that has the fault. It takes no memory.
    pub fn rest_at(&self) -> Option<u64>
        ensures none { IsNone result ↔ ((come self.now ≡ 0) × (self.now.fault ≡ None)) }
        ensures some { IfSome result (λ at. at ≡ self.now.at) }
    {
        if self.read == 0 && self.unread.is_empty() && self.fault.is_none() {
            None
        } else {
            Some(self.at)
        }
    }
}
