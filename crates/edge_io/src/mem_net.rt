//! A net in memory.
ghost use Rattle.std.specs.Prelude.{◌≡◌, ◌≤◌, length, position, find};
ghost use Rattle.std.specs.Option.{option_copied};
ghost use Rattle.edge_io.specs.MemPlace.{is_named, doors_at, TakesDoors};
ghost use Rattle.edge_io.specs.MemScript.{is_for};

use crate::mem_script::link_of;
use crate::script::Script;
use crate::{
    HeldUp, MemDoor, MemLink, MemMonitor, MemPlace, MemScript, Net, NetFault, Object, Pause,
};
use std::alloc::{AllocError, Global};

/// A link that was hung up by a net in memory.
#[derive(Drop)]
pub struct Hung {
    /// The place at which it was dialed.
    pub place: String,
    /// The bytes read from it.
    pub read: Vec<u8>,
    /// The bytes written to it.
    pub written: Vec<u8>,
    /// How many bytes were left unread.
    pub left: u64,
}

/// Doors that a net in memory bound together.
#[derive(Drop)]
pub struct BoundDoors {
    /// Their place.
    pub place: String,
    /// How many they are.
    pub doors: u32,
}

/// A net that binds the doors that it was made with and dials links by scripts, and whose binds, monitors and dials
/// fail at the calls that it was given. It tells all.
#[derive(Drop)]
pub struct MemNet {
    alloc: Global,
    places: Vec<MemPlace>,
    scripts: Vec<MemScript>,
    calls: Script,
    bound: Vec<BoundDoors>,
    hung: Vec<Hung>,
    open: usize,
    faults: u64,
    read_faults: u64,
    write_faults: u64,
}

// The first place of that name.
fn place_of(places: &[MemPlace], name: &str) -> Option<usize>
    ensures { result ≡ position (is_named name.now) places.now }
{
    places.iter().position(|at| at.place.as_str() == name)
}

// How many doors are left there.
fn left_at(places: &[MemPlace], name: &str) -> usize
    ensures { result ≡ length (doors_at name.now places.now) }
{
    match place_of(places, name) {
        Some(index) => places[index].doors.len(),
        None => 0,
    }
}

// Binds the first `count` of the doors that are left there.
fn bind_at(
    places: &mut [MemPlace],
    alloc: Global,
    name: &str,
    count: usize,
) -> Result<Vec<MemDoor>, AllocError>
    requires { count ≤ length (doors_at name.now places.old) }
    ensures { TakesDoors name.now count places.old places.new result }
{
    match place_of(places, name) {
        Some(index) => places[index].bind(alloc, name, count),
        None => Ok(Vec::new(alloc)),
    }
}

// The first script for that place.
fn script_of<'a>(scripts: &'a [MemScript], name: &str) -> Option<&'a MemScript>
    ensures { option_copied result ≡ find (is_for name.now) scripts.now }
{
    scripts.iter().find(|script| script.place.as_str() == name)
}

impl MemNet {
    ghost use Rattle.std.specs.Prelude.{Some, [], map};
    ghost use Rattle.foundation.specs.Faults.{Rose};
    ghost use Rattle.edge_io.specs.Script.{call_number, failing_numbers};
    ghost use Rattle.edge_io.specs.MemNet.{calls_of, places_of, scripts_of, bound_of, bound_by, hung_of, hung_up_of, state_of, fault_counted};

    /// A net that binds these doors and dials links by these scripts. Where two have one place, the first counts.
    /// `failing` lists the numbers, from 0, of the calls of `bind`, `monitor` and `dial` that fail, in any order. Such a call
    /// counts a fault and changes nothing else.
    pub fn of(
        alloc: Global,
        doors: Vec<MemPlace>,
        scripts: Vec<MemScript>,
        failing: Vec<u64>,
    ) -> MemNet
        ensures places { places_of result ≡ doors.items }
        ensures scripts { scripts_of result ≡ scripts.items }
        ensures told { state_of result ≡ record { bound = Some []; hung = Some []; net_faults = 0; read_faults = 0; write_faults = 0 } }
        ensures failing { failing_numbers (calls_of result) ≡ failing.items }
        ensures first { call_number (calls_of result) ≡ 0 }
    {
        MemNet {
            alloc,
            places: doors,
            scripts,
            calls: Script::of(failing),
            bound: Vec::new(alloc),
            hung: Vec::new(alloc),
            open: 0,
            faults: 0,
            read_faults: 0,
            write_faults: 0,
        }
    }

    /// The doors that were bound, in order.
    pub fn bound(&self) -> &[BoundDoors]
        ensures { bound_by self.now ≡ map bound_of result.now }
    {
        &self.bound
    }

    /// The links that were hung up, in order.
    pub fn hung(&self) -> &[Hung]
        ensures { hung_up_of self.now ≡ map hung_of result.now }
    {
        &self.hung
    }

    // Counts a fault of a bind, a monitor or a dial.
    fn count_fault(&mut self)
        ensures counted { self.new ≡ fault_counted self.old }
        ensures cause { (self.old.faults ≤ self.new.faults) × Rose 1 self.old.faults self.new.faults }
    {
        self.faults = self.faults.saturating_add(1);
    }
}

impl Object for MemNet {
    ghost same = { λ _ _. Unit {0} };

    ghost same_refl = { λ _. tt };

    ghost same_trans = { λ _ _ _ _ _. tt };
}

impl Pause for MemNet {
    ghost pause_apart = { λ x y. y ≡ x };

    /// It waits for nothing.
    fn pause(&mut self)
        ensures { self.new ≡ self.old }
    {}

    ghost pause_refl = { λ _. Prim.cc };

    ghost pause_trans = { λ x y z p q. Prim.cc };
}

impl Net for MemNet {
    ghost use Rattle.std.specs.Prelude.{Some, IfOk, OnOk, length, All};
    ghost use Rattle.std.proofs.Common.{subst, sym};
    ghost use Rattle.edge_io.specs.Counts.{Gains};
    ghost use Rattle.edge_io.specs.Told.{IsFresh, IsDialed};
    ghost use Rattle.edge_io.specs.Door.{IsNewDoor};
    ghost use Rattle.edge_io.specs.Net.{AddsBound, SameHung, HasNetCause, AddsHung, IsHungUp};
    ghost use Rattle.edge_io.specs.MemLink.{place_of as link_place, source_of, sink_of};
    ghost use Rattle.edge_io.specs.MemSource.{given_of, left_of, faults_of as link_read_faults};
    ghost use Rattle.edge_io.specs.MemSink.{taken_of, faults_of as link_write_faults};
    ghost use Rattle.edge_io.specs.MemDoor.{state_of as door_state};
    ghost use Rattle.edge_io.specs.MemNet.{state_of, has_room_for_one, BindsExactly, MonitorsExactly, DialsExactly, SameSetup};

    type L = MemLink;

    type P = MemDoor;

    type M = MemMonitor;

    ghost told = { λ net. state_of net };

    ghost may_bind = { λ _. Unit {0} };

    ghost may_dial = { λ _. Unit {0} };

    ghost may_report = { λ _ _. Unit {0} };

    ghost permits = { λ _ _ _ _ _. Unit {0} };

    ghost has_room = { λ net. has_room_for_one net };

    /// The first `doors` doors that are left at the place. After want of memory some of them may be gone.
    fn bind(&mut self, place: &str, doors: u32) -> Result<Vec<MemDoor>, NetFault>
        ensures count { IfOk result (λ made. length made.items ≡ doors) }
        ensures fresh { IfOk result (λ made. All (λ door. IsNewDoor place.now (door_state door)) made.items) }
        ensures cause { HasNetCause (state_of self.old).net_faults (state_of self.new).net_faults result }
        ensures bound { AddsBound place.now doors result (state_of self.old).bound (state_of self.new).bound }
        ensures rest { SameHung (state_of self.old) (state_of self.new) }
        ensures exact { BindsExactly place.now doors self.old self.new result }
    {
        let count = doors as usize;
        if self.calls.next_fails() || left_at(&self.places, place) < count {
            self.count_fault();
            return Err(NetFault::Fault);
        }
        let bound = BoundDoors {
            place: String::from_str(self.alloc, place)?,
            doors,
        };
        self.bound.reserve(1)?;
        let made = bind_at(&mut self.places, self.alloc, place, count)?;
        self.bound.push_reserved(bound);
        Ok(made)
    }

    /// A monitor whom nobody asks, at any place.
    fn monitor(&mut self, _: &str) -> Result<MemMonitor, NetFault>
        ensures cause { HasNetCause (state_of self.old).net_faults (state_of self.new).net_faults result }
        ensures bound { (state_of self.new).bound ≡ (state_of self.old).bound }
        ensures rest { SameHung (state_of self.old) (state_of self.new) }
        ensures exact { MonitorsExactly self.old self.new result }
    {
        if self.calls.next_fails() {
            self.count_fault();
            return Err(NetFault::Fault);
        }
        Ok(MemMonitor)
    }

    /// A link with the script of the place. The dial takes the memory for telling that the link was hung up.
    fn dial(&mut self, place: &str) -> Result<MemLink, NetFault>
        ensures place { IfOk result (λ link. IsDialed (state_of self.old).hung (link_place link) place.now) }
        ensures fresh { IfOk result (λ link. IsFresh (state_of self.old).hung
            (Some (given_of (source_of link))) (Some (taken_of (sink_of link))) (Some (left_of (source_of link)))) }
        ensures unfailed { IfOk result (λ link. (link_read_faults (source_of link) ≡ 0) × (link_write_faults (sink_of link) ≡ 0)) }
        ensures room { OnOk result (has_room_for_one self.new) }
        ensures cause { HasNetCause (state_of self.old).net_faults (state_of self.new).net_faults result }
        ensures bound { (state_of self.new).bound ≡ (state_of self.old).bound }
        ensures rest { SameHung (state_of self.old) (state_of self.new) }
        ensures exact { DialsExactly place.now self.old self.new result }
    {
        if self.calls.next_fails() {
            self.count_fault();
            return Err(NetFault::Fault);
        }
        let Some(script) = script_of(&self.scripts, place) else {
            self.count_fault();
            return Err(NetFault::Fault);
        };
        let link = link_of(self.alloc, script, place)?;
        let open = self.open.saturating_add(1);
        self.hung.reserve(open)?;
        self.open = open;
        Ok(link)
    }

    fn hang_up(&mut self, link: MemLink)
        ensures adds { AddsHung (has_room_for_one self.old) (state_of self.old).hung (state_of self.new).hung
            (IsHungUp (link_place link) (Some (given_of (source_of link))) (Some (taken_of (sink_of link)))
            (Some (left_of (source_of link)))) }
        ensures reads { Gains (link_read_faults (source_of link)) (state_of self.old).read_faults (state_of self.new).read_faults }
        ensures writes { Gains (link_write_faults (sink_of link)) (state_of self.old).write_faults (state_of self.new).write_faults }
        ensures quiet { (state_of self.new).net_faults ≡ (state_of self.old).net_faults }
        ensures bound { (state_of self.new).bound ≡ (state_of self.old).bound }
        ensures setup { SameSetup self.old self.new }
    {
        let used = link.used();
        self.read_faults = self.read_faults.saturating_add(used.read_faults);
        self.write_faults = self.write_faults.saturating_add(used.write_faults);
        self.open = self.open.saturating_sub(1);
        let hung = Hung {
            place: used.place.unwrap_or(String::new(self.alloc)),
            read: used.read,
            written: used.written,
            left: used.left,
        };
        if self.hung.len() < self.hung.capacity() {
            self.hung.push_reserved(hung);
        }
    }

    /// It waits for nothing.
    fn wait_briefly(&mut self)
        ensures { self.new ≡ self.old }
    {}

    /// It reports nothing.
    fn report_held_up(&mut self, _: &str, _: &HeldUp)
        ensures { self.new ≡ self.old }
    {}

    ghost dialed_is_free = { λ _ _. tt };

    ghost pauses_keep = { λ x y same. Prim.cc };

    ghost pauses_keep_room = { λ x y same room. subst has_room_for_one (sym same) room };
}
