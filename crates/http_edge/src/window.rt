//! The window over a stream that comes in pieces.
ghost use Rattle.std.specs.Prelude.{◌≡◌, ℕ, ◌+◌, ◌≤◌, ◌^◌, List, [], length, slice_range, ◌↔◌, IsNone, IsSome, IfOk, IfSome, Some, None, Err};
ghost use Rattle.std.specs.Borrow.{sem};
ghost use Rattle.std.specs.Vec.{vec_capacity};
ghost use Rattle.http_edge.specs.declared.limits.TheConstants.{ROOM};
ghost use Rattle.event_form.specs.declared.feed_fault.FeedFault.TheVariants.{Fault};
ghost use Rattle.http_edge.specs.declared.fault.HttpFault.{HttpFault};
ghost use Rattle.http_edge.specs.Reading.{come};

use crate::fault::HttpFault;
use crate::field::Fields;
use crate::head::Head;
use crate::held::{Given, Held};
use crate::item::ItemRef;
use crate::limits::{FEW, MOST_HEAD, MOST_KEPT, ROOM};
use crate::part::HeadPart;
use crate::past_body::PastBody;
use crate::stage::Stage;
use event_form::{Blob, FeedFault};
use std::alloc::{AllocError, Global};
use std::collections::VecDeque;
use std::marker::Model;

// For how many items that wait memory is kept, and how many bytes of it each has at least.
const MOST_QUEUED: usize = 64;

const EACH_QUEUED: usize = 64;

/// A window over a stream of requests that comes in pieces, cut anywhere. It holds at most 1,064,960 bytes:
/// those of whole requests that wait, and of an unfinished one; the first request's parsed head of at most
/// 16,384 bytes is kept beside it. It lends its items.
///
/// Of a request that waits its head's bytes and its body's count, those of its chunks joined; of the
/// unfinished one its head's, its body's so far and the bytes that aren't read yet.
#[derive(Drop)]
pub struct HttpWindow {
    alloc: Global,
    held: Held,
    // How many bytes its memory had at most since it was taken, before it was fed last.
    reached: usize,
}

impl Model for HttpWindow {
    ghost use Rattle.http_edge.specs.Window.{Window};

    ghost Value = { Window };

    ghost use Rattle.http_edge.specs.Filling.{Fills, window_of};

    ghost view = { λ w. window_of w.held };

    ghost invariant = { λ w. Fills w.held };
}

// A body that a window lends.
fn part(bytes: &Vec<u8>, from: usize, to: usize) -> &[u8]
    requires order { from ≤ to }
    requires inside { to ≤ length bytes.now.items }
    ensures { result.now ≡ slice_range bytes.now.items from to }
{
    &bytes[from..to]
}

// How many bytes the memory of a window had at most, where it was so many before.
fn reached(before: usize, held: &Held) -> usize {
    before
        .max(held.bytes.len())
        .max(held.joined.len())
        .max(held.queue.capacity().saturating_mul(EACH_QUEUED))
}

// Memory for the bodies of a window, which begins with these bytes. None: there is none.
fn copied(alloc: Global, held: &[u8]) -> Option<Vec<u8>>
    requires { length held.now ≤ ROOM }
    ensures items { IfSome result (λ bytes. bytes.items ≡ held.now) }
    ensures capacity { IfSome result (λ bytes. ROOM ≤ vec_capacity bytes) }
{
    let Ok(mut bytes) = Vec::with_capacity(alloc, ROOM) else {
        return None;
    };
    if bytes.extend_from_slice(held).is_err() {
        return None;
    }
    Some(bytes)
}

impl HttpWindow {
    ghost use Rattle.std.specs.Prelude.{◌⊎◌, OnOk, OnErr, MatchOption};
    ghost use Rattle.http_edge.specs.declared.request.HttpItem.{HttpItem};
    ghost use Rattle.http_edge.specs.Window.{CountsHeads, Feeds, Reads, clear, held_of, taken_of};
    ghost use Rattle.http_edge.specs.Loan.{Leaves};
    ghost use Rattle.http_edge.specs.Past.{Becomes, clear_at};

    /// A window at the stream's first byte. It keeps the allocator for the heads of what it is fed.
    pub fn new(alloc: Global) -> Result<HttpWindow, AllocError>
        ensures clear { IfOk result (λ w. w ≡ clear) }
        ensures reads { IfOk result (λ w. Reads [] [] w) }
    {
        let bytes = Vec::with_capacity(alloc, ROOM)?;
        let unread = Vec::with_capacity(alloc, MOST_HEAD)?;
        let lent = Head {
            method: Blob::of(Vec::new(alloc)),
            target: Blob::of(Vec::new(alloc)),
            minor: 0,
            fields: Fields::of(Vec::new(alloc)),
        };
        let held = Held {
            queue: VecDeque::new(alloc),
            heads: 0,
            beside: 0,
            bytes,
            from: 0,
            whole: 0,
            at: 0,
            begun: None,
            size: 0,
            stage: Stage::Plain { left: 0 },
            read: 0,
            unread,
            part: HeadPart::Blank,
            fault: None,
            lent,
            joined: Vec::new(alloc),
        };
        Ok(HttpWindow {
            alloc,
            held,
            reached: 0,
        })
    }

    /// Adds as much of the piece as there is room for, and says how much.
    ///
    /// `Fault` comes exactly where the bytes so far have a fault, with its offset and rule; where they end
    /// inside a request's target, a target that is no text may be reported only at its end. The items before a
    /// fault still wait; later calls answer the same and take nothing. After `NoMemory` the window is as
    /// before, and nothing was taken.
    pub fn feed(&mut self, piece: &[u8]) -> Result<usize, FeedFault<HttpFault>>
        requires { self.old.reading.at + come self.old.reading + length piece.now ≤ 2 ^ 40 }
        ensures feeds { Feeds self.old piece.now result self.new }
        ensures stays { (e : HttpFault) → self.old.reading.fault ≡ Some e → (result ≡ Err (Fault e)) × (self.new ≡ self.old) }
        ensures bound { held_of self.new ≤ ROOM }
        ensures room { self.new.reading.at + come self.new.reading ≤ self.old.reading.at + come self.old.reading + taken_of self.old piece.now }
    {
        if let Some(fault) = self.held.fault {
            return Err(FeedFault::Fault(fault));
        }
        self.reached = reached(self.reached, &self.held);
        let taken = piece.len().min(ROOM - self.held.count());
        self.held.take(self.alloc, &piece[..taken])?;
        Ok(taken)
    }

    /// Gives back what memory more than 16,384 bytes of requests took, where no more than 8,192 are held now. Where there is none for
    /// another window all stays as it is. Nothing else changes.
    pub fn give_back(&mut self)
        ensures { self.new ≡ self.old }
    {
        if reached(self.reached, &self.held) <= MOST_KEPT {
            return;
        }
        self.held.pack();
        if self.held.count() > FEW {
            return;
        }
        let Some(bytes) = copied(self.alloc, &self.held.bytes) else {
            return;
        };
        self.held.bytes = bytes;
        self.held.joined = Vec::new(self.alloc);
        self.held.queue.shrink_to(MOST_QUEUED);
        self.reached = 0;
    }

    /// The next item; `None` exactly where none waits, and then there is room. Its own room is free from the
    /// next call on. It takes no memory.
    pub fn next(&mut self) -> Option<ItemRef<'_>>
        ensures* after { sem 𝓛 (Leaves self.entry result) }
    {
        let given = self.held.give()?;
        let held = &self.held;
        match given {
            Given::Continue => Some(ItemRef::Continue),
            Given::Request { from, to } => Some(ItemRef::Request {
                head: &held.lent,
                body: part(&held.bytes, from, to),
            }),
        }
    }

    /// How many bytes are held: those of the requests that wait, and those of the unfinished one. It takes
    /// no memory.
    pub fn held(&self) -> usize
        ensures count { result ≡ held_of self.now }
        ensures bound { result ≤ ROOM }
        ensures heads { CountsHeads self.now }
    {
        self.held.count()
    }

    /// The offset of the unfinished request's first byte; `None` where the bytes taken end at a request's
    /// end. After a fault it is the offset of the request that has the fault. It takes no memory.
    pub fn rest_at(&self) -> Option<u64>
        ensures none { IsNone result ↔ ((come self.now.reading ≡ 0) × (self.now.reading.fault ≡ None)) }
        ensures some { IfSome result (λ at. at ≡ self.now.reading.at) }
    {
        let held = &self.held;
        if held.read == 0 && held.unread.is_empty() && held.fault.is_none() {
            None
        } else {
            Some(held.at)
        }
    }

    /// The head of the unfinished request, once it is whole; `None` where none is, or the bytes have a fault. It takes no memory.
    pub fn unfinished(&self) -> Option<&Head>
        ensures { MatchOption result ((self.now.reading.begun ≡ None) ⊎ IsSome self.now.reading.fault)
            (λ head. (self.now.reading.begun ≡ Some head.now) × (self.now.reading.fault ≡ None)) }
    {
        match &self.held.fault {
            None => self.held.begun.as_ref(),
            Some(_) => None,
        }
    }

    /// Gives up the unfinished request, whose head is whole, where nothing waits, so that its body is read past. Its bytes are held no
    /// longer, nor is anything else. `go_on` says where the window reads on. The only error is want of memory; all stays then.
    pub fn leave(&mut self) -> Result<PastBody, AllocError>
        requires waiting { self.old.reading.waiting ≡ [] }
        requires begun { IsSome self.old.reading.begun }
        requires fault { self.old.reading.fault ≡ None }
        requires reached { (fed : List ℕ) × (given : List HttpItem) × Reads fed given self.old }
        ensures becomes { IfOk result (Becomes self.old.reading) }
        ensures emptied { OnOk result ((self.new.reading ≡ clear_at self.old.reading.at) × (held_of self.new ≡ 0)) }
        ensures stays { OnErr result (self.new ≡ self.old) }
    {
        let past = self.held.leave(self.alloc)?;
        Ok(PastBody::of(self.alloc, past))
    }

    /// Reads on at an offset, where it holds nothing of a request: after a body that was read past, or at the request whose body had a
    /// fault. It takes no memory.
    pub fn go_on(&mut self, at: u64, fault: Option<HttpFault>)
        requires begun { self.old.reading.begun ≡ None }
        requires unread { self.old.reading.unread ≡ [] }
        requires place { at ≤ 2 ^ 40 }
        ensures { self.new ≡ record self.old { reading = record self.old.reading { at = at; fault = fault } } }
    {
        self.held.go_on(at, fault);
    }
}
