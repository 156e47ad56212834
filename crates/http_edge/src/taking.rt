//! How a window takes a piece.
ghost use Rattle.std.specs.Prelude.{◌≡◌, ◌+◌, ◌-◌, ◌≤◌, ◌<◌, ◌^◌, ℕ, List, [], ◌++◌, drop, take, length, insert, None, IsSome};
ghost use Rattle.std.specs.Vec.{vec_len, vec_capacity};
ghost use Rattle.std.specs.VecDeque.{deque_capacity, deque_len};
ghost use Rattle.http_edge.specs.declared.limits.TheConstants.{ROOM};
ghost use Rattle.http_edge.specs.Filling.{Fills, FillsWith, FeedsAfter, FeedsHeld, counted};

use crate::copy::{append, join};
use crate::cut::{Cut, read_cut};
use crate::fault::{HttpFault, HttpWhy};
use crate::gather::{Ending, Gathered, gather};
use crate::held::Held;
use crate::left::Left;
use crate::next::place;
use crate::scan::{Scanned, scan};
use crate::waiting::{Parked, Waiting};
use event_form::FeedFault;
use std::alloc::Global;
use std::collections::VecDeque;
use std::mem;

// Puts an item at a place of the queue, where there is room for it.
fn insert_reserved(queue: &mut VecDeque<Waiting>, index: usize, item: Waiting)
    requires inside { index ≤ deque_len queue.old }
    requires room { deque_len queue.old < deque_capacity queue.old }
    ensures { queue.new.items ≡ insert queue.old.items index item }
{
    if queue.insert(index, item).is_err() {
        unreachable!();
    }
}

impl Held {
    // Reads bytes that begin where a request does, where no head was whole. Of these so many were not read
    // before; without memory no more than those stay.
    fn read_requests(
        &mut self,
        alloc: Global,
        had: usize,
        all: &[u8],
    ) -> Result<(), FeedFault<HttpFault>>
        requires fills { FillsWith self.old (take had self.old.unread.items) }
        requires open { (self.old.fault ≡ None) × (self.old.begun ≡ None) }
        requires longer { length (take had self.old.unread.items) ≤ length all.now }
        requires room { self.old.heads + self.old.size + (length self.old.bytes.items - self.old.from) + length all.now ≤ ROOM + self.old.beside }
        requires place { self.old.at + self.old.read + length all.now ≤ 2 ^ 40 }
        requires packed { self.old.from ≡ 0 }
        ensures { FeedsAfter self.old (take had self.old.unread.items) all.now result self.new }
    {
        let Ok(scanned) = scan(alloc, &mut self.queue, &mut self.bytes, all) else {
            self.unread.truncate(had);
            return Err(FeedFault::NoMemory);
        };
        let Scanned { heads, left } = scanned;
        self.heads += heads;
        self.settle(self.at, all, left)
    }

    // Reads a piece after bytes that begin a head.
    fn read_head(&mut self, alloc: Global, more: &[u8]) -> Result<(), FeedFault<HttpFault>>
        requires fills { Fills self.old }
        requires open { (self.old.fault ≡ None) × (self.old.begun ≡ None) }
        requires room { self.old.heads + self.old.size + (length self.old.bytes.items - self.old.from) + length self.old.unread.items
            + length more.now ≤ ROOM + self.old.beside }
        requires place { self.old.at + self.old.read + length self.old.unread.items + length more.now ≤ 2 ^ 40 }
        requires packed { self.old.from ≡ 0 }
        ensures { FeedsHeld self.old more.now result self.new }
    {
        let had = self.unread.len();
        let Ok(cut) = read_cut(alloc, &mut self.unread, self.part, more) else {
            return Err(FeedFault::NoMemory);
        };
        match cut {
            Cut::Open(part) => {
                self.part = part;
                Ok(())
            }
            Cut::Bad(why) => {
                let fault = HttpFault { at: 0, why };
                self.settle(self.at, &[], Left::cleared(0, fault))
            }
            Cut::Whole { used } => {
                let mut all = mem::replace(&mut self.joined, Vec::new(alloc));
                let Ok(()) = join(&mut all, &self.unread, &more[used..]) else {
                    self.unread.truncate(had);
                    return Err(FeedFault::NoMemory);
                };
                let told = self.read_requests(alloc, had, &all);
                self.joined = all;
                told
            }
        }
    }

    // Reads all bytes that weren't read, and a piece after them, where a head is whole.
    fn read_all(&mut self, alloc: Global, all: &[u8]) -> Result<(), FeedFault<HttpFault>>
        requires fills { Fills self.old }
        requires begun { (self.old.fault ≡ None) × IsSome self.old.begun }
        requires longer { length self.old.unread.items ≤ length all.now }
        requires room { self.old.heads + self.old.size + (length self.old.bytes.items - self.old.from) + length all.now ≤ ROOM + self.old.beside }
        requires place { self.old.at + self.old.read + length all.now ≤ 2 ^ 40 }
        requires packed { self.old.from ≡ 0 }
        ensures { FeedsAfter self.old self.old.unread.items all.now result self.new }
    {
        let before = self.bytes.len();
        let Gathered { used, end } = gather(&mut self.bytes, self.stage, before - self.whole, all);
        match end {
            Ending::Whole => {
                let body = self.bytes.len() - self.whole;
                let after = &all[used..];
                let count = self.queue.len();
                let Ok(scanned) = scan(alloc, &mut self.queue, &mut self.bytes, after) else {
                    self.bytes.truncate(before);
                    return Err(FeedFault::NoMemory);
                };
                let Scanned { heads, left } = scanned;
                let Ok(()) = self.queue.reserve(1) else {
                    self.queue.truncate(count);
                    self.bytes.truncate(before);
                    return Err(FeedFault::NoMemory);
                };
                let Some(head) = self.begun.take() else {
                    unreachable!();
                };
                let size = self.size;
                let parked = Parked { head, size, body };
                insert_reserved(&mut self.queue, count, Waiting::Request(parked));
                self.heads += size + heads;
                let base = self.at + (self.read + used) as u64;
                self.settle(base, after, left)
            }
            Ending::Open(stage) => {
                self.stage = stage;
                self.read += used;
                self.unread.clear();
                append(&mut self.unread, &all[used..]);
                Ok(())
            }
            Ending::Bad(why) => {
                self.bytes.truncate(self.whole);
                let at = place(why, self.read + used) as u64;
                self.settle(self.at, all, Left::cleared(0, HttpFault { at, why }))
            }
        }
    }

    // Reads a piece where a head is whole.
    fn read_body(&mut self, alloc: Global, more: &[u8]) -> Result<(), FeedFault<HttpFault>>
        requires fills { Fills self.old }
        requires begun { (self.old.fault ≡ None) × IsSome self.old.begun }
        requires room { self.old.heads + self.old.size + (length self.old.bytes.items - self.old.from) + length self.old.unread.items
            + length more.now ≤ ROOM + self.old.beside }
        requires place { self.old.at + self.old.read + length self.old.unread.items + length more.now ≤ 2 ^ 40 }
        requires packed { self.old.from ≡ 0 }
        ensures { FeedsHeld self.old more.now result self.new }
    {
        if self.unread.is_empty() {
            return self.read_all(alloc, more);
        }
        let mut all = mem::replace(&mut self.joined, Vec::new(alloc));
        let Ok(()) = join(&mut all, &self.unread, more) else {
            return Err(FeedFault::NoMemory);
        };
        let told = self.read_all(alloc, &all);
        self.joined = all;
        told
    }

    /// Reads a piece for which there is room.
    pub fn read(&mut self, alloc: Global, more: &[u8]) -> Result<(), FeedFault<HttpFault>>
        requires fills { Fills self.old }
        requires fault { self.old.fault ≡ None }
        requires room { self.old.heads + self.old.size + (length self.old.bytes.items - self.old.from) + length self.old.unread.items
            + length more.now ≤ ROOM + self.old.beside }
        requires place { self.old.at + self.old.read + length self.old.unread.items + length more.now ≤ 2 ^ 40 }
        requires packed { self.old.from ≡ 0 }
        ensures { FeedsHeld self.old more.now result self.new }
    {
        if self.begun.is_some() {
            self.read_body(alloc, more)
        } else if self.unread.is_empty() {
            self.read_requests(alloc, 0, more)
        } else {
            self.read_head(alloc, more)
        }
    }

    /// Frees the room of what was given, and reads a piece for which there is room.
    pub fn take(&mut self, alloc: Global, more: &[u8]) -> Result<(), FeedFault<HttpFault>>
        requires fills { Fills self.old }
        requires fault { self.old.fault ≡ None }
        requires room { counted self.old + length more.now ≤ ROOM }
        requires place { self.old.at + self.old.read + length self.old.unread.items + length more.now ≤ 2 ^ 40 }
        ensures { FeedsHeld self.old more.now result self.new }
    {
        self.pack();
        self.read(alloc, more)
    }
}
