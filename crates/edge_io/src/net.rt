//! Doors that are bound and links that are dialed.
ghost use Rattle.std.specs.Prelude.{◌≡◌, ℕ, List, Some, IfOk, OnOk, length, slice_get, All};
ghost use Rattle.edge_io.specs.Counts.{Gains};
ghost use Rattle.edge_io.specs.Told.{IsFresh, IsDialed};
ghost use Rattle.edge_io.specs.Door.{IsNewDoor};
ghost use Rattle.edge_io.specs.declared.held_up.HeldUp.{HeldUp};
ghost use Rattle.edge_io.specs.Net.{NetState, AddsBound, SameHung, HasNetCause, AddsHung, IsHungUp};

use crate::{Door, HeldUp, Link, Monitor, NetFault, Pause};

/// An object that binds doors and monitors, and dials links and hangs them up. It may tell which doors were bound and which links
/// were hung up; one that tells nothing, as the sockets of a system, has `None` for them.
pub trait Net: Pause {
    /// The links that are dialed.
    type L: Link;

    /// The doors that are bound.
    type P: Door;

    /// Where those come in who ask for a spool's numbers.
    type M: Monitor;

    /// What the net tells.
    ghost told: { Self → NetState };

    /// Doors may be bound at that place.
    ghost may_bind: { List ℕ → Type 0 };

    /// That place may be dialed.
    ghost may_dial: { List ℕ → Type 0 };

    /// That may be reported of the forwarding to that place.
    ghost may_report: { List ℕ → HeldUp → Type 0 };

    /// What may be written to a link that came in at that place: by the number of its door among those that were bound there
    /// together, the number of the link at its door, both from 0, and by what was read from it.
    ghost permits: { List ℕ → ℕ → ℕ → List ℕ → List ℕ → Type 0 };

    /// The net has room to tell of one link more that is hung up. A dial makes it.
    ghost has_room: { Self → Type 0 };

    /// Binds `doors` doors at the place, which serve it together. Each is new: no link was accepted, and none
    /// was given back. After a fault none is bound. `Fault` comes only where the net's own count of faults rose in this call.
    fn bind(&mut self, place: &str, doors: u32) -> Result<Vec<Self::P>, NetFault>
        requires named { may_bind place.now }
        ensures count { IfOk result (λ made. length made.items ≡ doors) }
        ensures permits { IfOk result (λ made. (i : ℕ) (door : Self.P) → slice_get made.items i ≡ Some door
            → (k : ℕ) (read text : List ℕ) → permits place.now i k read text → Self.P.permits door k read text) }
        ensures fresh { IfOk result (λ made. All (λ door. IsNewDoor place.now (Self.P.told door)) made.items) }
        ensures cause { HasNetCause (told self.old).net_faults (told self.new).net_faults result }
        ensures bound { AddsBound place.now doors result (told self.old).bound (told self.new).bound }
        ensures rest { SameHung (told self.old) (told self.new) }
        ensures same { Self.same self.old self.new };

    /// A monitor at the place, where those come in who ask for a spool's numbers. No door is bound there. `Fault` comes only where the
    /// net's own count of faults rose in this call.
    fn monitor(&mut self, place: &str) -> Result<Self::M, NetFault>
        requires named { may_bind place.now }
        ensures cause { HasNetCause (told self.old).net_faults (told self.new).net_faults result }
        ensures bound { (told self.new).bound ≡ (told self.old).bound }
        ensures rest { SameHung (told self.old) (told self.new) }
        ensures same { Self.same self.old self.new };

    /// Dials the place: the link has given and taken no byte, and no call of it has failed yet. `Fault` comes only where the net's own
    /// count of faults rose in this call.
    fn dial(&mut self, place: &str) -> Result<Self::L, NetFault>
        requires named { may_dial place.now }
        ensures place { IfOk result (λ link. IsDialed (told self.old).hung (Self.L.dialed link) place.now) }
        ensures fresh { IfOk result (λ link. IsFresh (told self.old).hung
            (Self.L.given link) (Self.L.taken link) (Self.L.left link)) }
        ensures unfailed { IfOk result (λ link. (Self.L.read_faults link ≡ 0) × (Self.L.write_faults link ≡ 0)) }
        ensures room { OnOk result (has_room self.new) }
        ensures cause { HasNetCause (told self.old).net_faults (told self.new).net_faults result }
        ensures bound { (told self.new).bound ≡ (told self.old).bound }
        ensures rest { SameHung (told self.old) (told self.new) }
        ensures same { Self.same self.old self.new };

    /// Lets a link that was dialed go. One link more is told: its place, the bytes that it has given and taken,
    /// and how many it has left. Where there is no room for that, as for a link that this net did not
    /// dial, the list that is told is as before. The link's faults are added to the net's counts.
    fn hang_up(&mut self, link: Self::L)
        ensures adds { AddsHung (has_room self.old) (told self.old).hung (told self.new).hung
            (IsHungUp (Self.L.dialed link) (Self.L.given link) (Self.L.taken link) (Self.L.left link)) }
        ensures reads { Gains (Self.L.read_faults link) (told self.old).read_faults (told self.new).read_faults }
        ensures writes { Gains (Self.L.write_faults link) (told self.old).write_faults (told self.new).write_faults }
        ensures quiet { (told self.new).net_faults ≡ (told self.old).net_faults }
        ensures bound { (told self.new).bound ≡ (told self.old).bound }
        ensures same { Self.same self.old self.new };

    /// Waits a short while, where there was nothing to do and may soon be: no longer than a pause, which comes after what failed. It
    /// changes nothing that the net tells.
    fn wait_briefly(&mut self)
        ensures same { Self.same self.old self.new }
        ensures apart { Self.pause_apart self.old self.new };

    /// Reports, to whoever looks after the net, what holds up the forwarding to that place. It changes nothing that the net tells.
    fn report_held_up(&mut self, place: &str, held_up: &HeldUp)
        requires reported { may_report place.now held_up.now }
        ensures same { Self.same self.old self.new }
        ensures apart { Self.pause_apart self.old self.new };

    /// Any text may be written to a link that was dialed.
    ghost dialed_is_free: { (link : Self.L) (text : List ℕ) → Self.L.permits link text };

    /// A pause changes nothing that the net tells.
    ghost pauses_keep: { (x y : Self) → Self.pause_apart x y → told y ≡ told x };

    ghost pauses_keep_room: { (x y : Self) → Self.pause_apart x y → has_room x → has_room y };
}
