//! What is kept of a request whose body is read past.
ghost use Rattle.std.specs.Prelude.{◌≡◌, ◌+◌, ◌≤◌, ◌^◌, ◌++◌, ℕ, List, IfOk, OnErr, length};
ghost use Rattle.http_edge.specs.Past.{IsPast, Passes, PassesAfter};

use crate::copy::join;
use crate::fault::HttpFault;
use crate::gather::{Ending, Passed, pass};
use crate::head::Head;
use crate::next::place;
use crate::stage::Stage;
use std::alloc::{AllocError, Global};

/// What is kept of a request whose body is read past.
#[derive(Drop)]
pub struct Past {
    pub head: Head,
    /// The offset of its first byte.
    pub at: u64,
    pub stage: Stage,
    /// How many bytes its body has so far.
    pub held: usize,
    /// How many of its bytes were read.
    pub read: usize,
    /// Those that weren't.
    pub unread: Vec<u8>,
}

/// What a piece did of a body that is read past.
#[derive(Clone, Copy)]
pub enum Way {
    /// All of it was read, and more is due.
    Open,
    /// So many bytes of it end the request, at this offset.
    Whole { used: usize, end: u64 },
    /// They can't be the body's.
    Bad(HttpFault),
}

impl Past {
    // Reads all bytes that weren't read before, of which there were so many, and those of a piece after them.
    fn read_all(&mut self, alloc: Global, had: usize, all: &[u8]) -> Result<Way, AllocError>
        requires past { IsPast self.old }
        requires had { had ≡ length self.old.unread.items }
        requires longer { had ≤ length all.now }
        requires room { self.old.at + self.old.read + length all.now ≤ 2 ^ 40 }
        requires begins { (piece : List ℕ) × (all.now ≡ self.old.unread.items ++ piece) }
        ensures passes { IfOk result (λ way. PassesAfter self.old all.now way self.new) }
        ensures past { IsPast self.new }
        ensures stays { OnErr result (self.new ≡ self.old) }
    {
        let Passed { used, held, end } = pass(self.stage, self.held, all);
        match end {
            Ending::Whole => Ok(Way::Whole {
                used: used - had,
                end: self.at + (self.read + used) as u64,
            }),
            Ending::Open(stage) => {
                let unread = Vec::from_slice(alloc, &all[used..])?;
                self.unread = unread;
                self.stage = stage;
                self.held = held;
                self.read += used;
                Ok(Way::Open)
            }
            Ending::Bad(why) => {
                let at = self.at + place(why, self.read + used) as u64;
                Ok(Way::Bad(HttpFault { at, why }))
            }
        }
    }

    /// Reads a piece. It takes memory only where bytes that weren't read wait, or some are left. Where the request ends or has
    /// a fault, and where no memory was found, all stays as it was.
    pub fn read(&mut self, alloc: Global, piece: &[u8]) -> Result<Way, AllocError>
        requires past { IsPast self.old }
        requires room { self.old.at + self.old.read + length self.old.unread.items + length piece.now ≤ 2 ^ 40 }
        ensures passes { IfOk result (λ way. Passes self.old piece.now way self.new) }
        ensures past { IsPast self.new }
        ensures stays { OnErr result (self.new ≡ self.old) }
    {
        let had = self.unread.len();
        if had == 0 {
            return self.read_all(alloc, 0, piece);
        }
        let mut all = Vec::new(alloc);
        join(&mut all, &self.unread, piece)?;
        self.read_all(alloc, had, &all)
    }
}
