//! Where links come in.
ghost use Rattle.std.specs.Prelude.{◌≡◌, ℕ, List, OnOk, OnErr, IfOk, IfSome, IfNone};
ghost use Rattle.std.specs.Io.KnownBytes.{Appends};
ghost use Rattle.foundation.specs.Faults.{HasCause};
ghost use Rattle.edge_io.specs.Counts.{Gains};
ghost use Rattle.edge_io.specs.Told.{IsToldAs, IsFresh, Adds};
ghost use Rattle.edge_io.specs.Door.{DoorState, TakesLink, SameLinks, SameTalks, SameDoor, IsTalk, StaysPermitted};

use crate::{Link, Proto};
use event_form::Talk;
use std::alloc::AllocError;
use thiserror::Error;

/// An accept failed. The door's own count of faults says how often that was; an accept that doesn't
/// answer this failed at nothing.
#[derive(Clone, Copy, PartialEq, Eq, Debug, Drop, Error)]
#[error("net fault")]
pub struct AcceptFault;

/// An object that accepts links, and is given each one back when it was served. It may tell which links
/// wait and what became of those given back; one that tells nothing, as a socket, has `None` for them, and
/// then no clause speaks of them.
pub trait Door {
    /// The links that come in.
    type L: Link;

    /// What the door tells.
    ghost told: { Self → DoorState };

    /// What may be written to the link that it gives after so many others, by what was read from that link.
    ghost permits: { Self → ℕ → List ℕ → List ℕ → Type 0 };

    /// Waits for a link and accepts it, which is to be served as the connection of this number. `None`: the
    /// door is shut for good, as no link waits. A link that is given counts as accepted, waits no more, and has given and taken no byte. After a fault no link
    /// was accepted, and the door's own count of faults has risen.
    fn accept(&mut self, conn: u64) -> Result<Option<Self::L>, AcceptFault>
        ensures link { IfOk result (λ o. IfSome o (λ _. TakesLink (told self.old) (told self.new))) }
        ensures fresh { IfOk result (λ o. IfSome o (λ link. IsFresh (told self.old).talks
            (Self.L.given link) (Self.L.taken link) (Self.L.left link))) }
        ensures shut { IfOk result (λ o. IfNone o (IsToldAs (told self.old).waiting 0
            × SameLinks (told self.old) (told self.new))) }
        ensures err { OnErr result (SameLinks (told self.old) (told self.new)) }
        ensures rest { SameTalks (told self.old) (told self.new) }
        ensures permits { IfOk result (λ o. IfSome o (λ link. (now : Self.L) (read text : List ℕ) → Self.L.same link now
            → Appends (Self.L.given link) (Self.L.given now) read → permits self.old 0 read text → Self.L.permits now text)) }
        ensures stays { StaysPermitted result (permits self.old) (permits self.new) }
        ensures cause { HasCause (told self.old).accept_faults (told self.new).accept_faults result };

    /// Takes a link that was served, of which `proto` is the protocol, `conn` the connection's number,
    /// `status` the status of its ending and `talk` the ending itself, and lets it go. One connection more is
    /// told: protocol, number and status, the bytes that the link has given and taken, and how many it has
    /// left. The link's faults are added to the door's counts. The error is want of memory: the link is gone and its faults are counted, but the
    /// list that is told is as before.
    fn give_back(
        &mut self,
        link: Self::L,
        proto: Proto,
        conn: u64,
        status: u8,
        talk: Talk,
    ) -> Result<(), AllocError>
        ensures adds { OnOk result (Adds (told self.old).talks (told self.new).talks
            (IsTalk proto conn status (Self.L.given link) (Self.L.taken link) (Self.L.left link))) }
        ensures err { OnErr result ((told self.new).talks ≡ (told self.old).talks) }
        ensures reads { Gains (Self.L.read_faults link) (told self.old).read_faults (told self.new).read_faults }
        ensures writes { Gains (Self.L.write_faults link) (told self.old).write_faults (told self.new).write_faults }
        ensures stays { (k : ℕ) (read text : List ℕ) → permits self.old k read text → permits self.new k read text }
        ensures rest { SameDoor (told self.old) (told self.new) };
}
