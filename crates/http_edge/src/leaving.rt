//! How an unfinished request leaves a window, and where the window goes on.
ghost use Rattle.std.specs.Prelude.{◌≡◌, ◌≤◌, ◌^◌, ℕ, List, [], IfOk, OnOk, OnErr, None, IsSome};
ghost use Rattle.http_edge.specs.declared.request.HttpItem.{HttpItem};
ghost use Rattle.http_edge.specs.Filling.{Fills, IsEmptied, reading_of, window_of};
ghost use Rattle.http_edge.specs.Past.{Becomes, IsPast};
ghost use Rattle.http_edge.specs.Reading.{Reads};

use crate::fault::HttpFault;
use crate::held::Held;
use crate::part::HeadPart;
use crate::past::Past;
use crate::stage::Stage;
use std::alloc::{AllocError, Global};

impl Held {
    /// The unfinished request, whose head is whole and of whose body a count is kept, where nothing waits. Nothing of it is held
    /// any more. Where no memory was found, all stays as it was.
    pub fn leave(&mut self, alloc: Global) -> Result<Past, AllocError>
        requires fills { Fills self.old }
        requires queue { self.old.queue.items ≡ [] }
        requires begun { IsSome self.old.begun }
        requires fault { self.old.fault ≡ None }
        requires reached { (fed : List ℕ) × (given : List HttpItem) × Reads fed given (reading_of self.old) }
        ensures fills { Fills self.new }
        ensures past { IfOk result IsPast }
        ensures becomes { IfOk result (Becomes (reading_of self.old)) }
        ensures emptied { OnOk result (IsEmptied self.old self.new) }
        ensures stays { OnErr result (self.new ≡ self.old) }
    {
        let unread = Vec::from_slice(alloc, &self.unread)?;
        let Some(head) = self.begun.take() else {
            unreachable!();
        };
        let past = Past {
            head,
            at: self.at,
            stage: self.stage,
            held: self.bytes.len() - self.whole,
            read: self.read,
            unread,
        };
        self.bytes.truncate(self.whole);
        self.unread.clear();
        self.part = HeadPart::Blank;
        self.stage = Stage::Plain { left: 0 };
        self.size = 0;
        self.beside = 0;
        self.read = 0;
        Ok(past)
    }

    /// Goes on at an offset, where nothing of a request was read, or has met a fault there.
    pub fn go_on(&mut self, at: u64, fault: Option<HttpFault>)
        requires fills { Fills self.old }
        requires begun { self.old.begun ≡ None }
        requires unread { self.old.unread.items ≡ [] }
        requires place { at ≤ 2 ^ 40 }
        ensures fills { Fills self.new }
        ensures moved { self.new ≡ record self.old { at = at; fault = fault } }
    {
        self.at = at;
        self.fault = fault;
    }
}
