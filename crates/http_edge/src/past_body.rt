//! A body that is read past.
ghost use Rattle.std.specs.Prelude.{◌≡◌, ◌+◌, ◌≤◌, ◌^◌, ℕ, IfOk, OnErr, length};
ghost use Rattle.http_edge.specs.Past.{Passes, come_to};

use crate::past::{Past, Way};
use std::alloc::{AllocError, Global};
use std::marker::Model;

/// A request whose head is whole and whose body is read past: of the body the bytes are judged and counted, and none is kept but
/// those of a chunk line or a trailer that isn't whole, fewer than 16,384. It is what a window held of it that gave it up
/// ([`crate::HttpWindow::leave`]).
#[derive(Drop)]
pub struct PastBody {
    alloc: Global,
    past: Past,
}

impl Model for PastBody {
    ghost use Rattle.http_edge.specs.Past.{IsPast};
    ghost use Rattle.http_edge.specs.declared.past.Past.{Past};

    ghost Value = { Past };

    ghost view = { λ b. b.past };

    ghost invariant = { λ b. IsPast b.past };
}

impl PastBody {
    ghost use Rattle.http_edge.specs.Past.{IsPast};

    // What was held of the request.
    pub(crate) fn of(alloc: Global, past: Past) -> PastBody
        requires { IsPast past }
        ensures { result ≡ past }
    {
        PastBody { alloc, past }
    }

    /// Reads a piece, to its end or to that of the request, or to a fault, which has the offset and the rule that a window reports
    /// of the same bytes. Where the request ends or has a fault, the body has done its work, and stays as it was; so it does where
    /// no memory was found, the only error.
    pub fn feed(&mut self, piece: &[u8]) -> Result<Way, AllocError>
        requires { come_to self.old + length piece.now ≤ 2 ^ 40 }
        ensures passes { IfOk result (λ way. Passes self.old piece.now way self.new) }
        ensures stays { OnErr result (self.new ≡ self.old) }
    {
        self.past.read(self.alloc, piece)
    }

    /// The offset of the request's first byte. It takes no memory.
    pub fn at(&self) -> u64
        ensures { result ≡ self.now.at }
    {
        self.past.at
    }
}
