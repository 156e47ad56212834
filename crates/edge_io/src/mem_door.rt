//! A door in memory.
ghost use Rattle.std.specs.Prelude.{◌≡◌, ◌≤◌, IsTrue};
ghost use Rattle.std.specs.List.{list_all};
ghost use Rattle.std.specs.VecDeque.{deque_len};
ghost use Rattle.edge_io.specs.MemLink.{is_unused};

use crate::script::Script;
use crate::{AcceptFault, Door, MemLink, Proto};
use event_form::Talk;
use std::alloc::{AllocError, Global};
use std::collections::VecDeque;

/// A connection that was served and given back to a door in memory.
#[derive(Drop)]
pub struct Finished {
    /// Its protocol.
    pub proto: Proto,
    /// Its number.
    pub conn: u64,
    /// The bytes read from it.
    pub read: Vec<u8>,
    /// The bytes written to it.
    pub written: Vec<u8>,
    /// The status of its ending.
    pub status: u8,
    /// How many bytes were left unread.
    pub left: u64,
}

/// A door at which links in memory come in, and whose accepts fail at the calls that it was given. It tells
/// all.
#[derive(Drop)]
pub struct MemDoor {
    place: Option<String>,
    links: VecDeque<MemLink>,
    made: usize,
    talks: Vec<Finished>,
    script: Script,
    accept_faults: u64,
    read_faults: u64,
    write_faults: u64,
    ghost waits: { deque_len links ≤ made },
    ghost unused: { IsTrue (list_all is_unused links.items) },
}

impl MemDoor {
    ghost use Rattle.std.specs.Prelude.{Some, None, [], All, map};
    ghost use Rattle.std.specs.String.{string_bytes};
    ghost use Rattle.edge_io.specs.Script.{call_number, failing_numbers};
    ghost use Rattle.edge_io.specs.MemLink.{IsUnused};
    ghost use Rattle.edge_io.specs.MemDoor.{links_of, script_of, talks_of, talked_of, state_of, IsUntouched, IsBoundAs};

    /// A door that accepts these links in order, and then is shut. Nothing was read from a link or written to
    /// it. `failing` lists the numbers, from 0, of the accepts that fail, in any order. Such an accept counts
    /// a fault and changes nothing else. The door tells no place until a [`crate::MemNet`] binds it.
    pub fn of(alloc: Global, links: Vec<MemLink>, failing: Vec<u64>) -> MemDoor
        requires { All IsUnused links.items }
        ensures links { links_of result ≡ links.items }
        ensures untouched { IsUntouched result }
        ensures place { (state_of result).place ≡ None }
        ensures quiet { ((state_of result).accept_faults ≡ 0) × ((state_of result).read_faults ≡ 0)
            × ((state_of result).write_faults ≡ 0) }
        ensures failing { failing_numbers (script_of result) ≡ failing.items }
        ensures first { call_number (script_of result) ≡ 0 }
    {
        let made = links.len();
        MemDoor {
            place: None,
            links: VecDeque::from_vec(links),
            made,
            talks: Vec::new(alloc),
            script: Script::of(failing),
            accept_faults: 0,
            read_faults: 0,
            write_faults: 0,
        }
    }

    /// The connections that were given back, in order.
    pub fn talks(&self) -> &[Finished]
        ensures { talks_of self.now ≡ map talked_of result.now }
    {
        &self.talks
    }

    /// The door as it is once it is bound at that place.
    pub(crate) fn bound_at(self, place: String) -> MemDoor
        ensures { IsBoundAs (string_bytes place) self result }
    {
        let mut door = self;
        door.place = Some(place);
        door
    }
}

impl Door for MemDoor {
    ghost use Rattle.std.specs.Prelude.{Some, OnOk, OnErr, IfOk, IfSome, IfNone};
    ghost use Rattle.foundation.specs.Faults.{HasCause};
    ghost use Rattle.edge_io.specs.Counts.{Gains};
    ghost use Rattle.edge_io.specs.Told.{IsToldAs, IsFresh, Adds};
    ghost use Rattle.edge_io.specs.Door.{TakesLink, SameLinks, SameTalks, SameDoor, IsTalk};
    ghost use Rattle.edge_io.specs.MemLink.{source_of, sink_of};
    ghost use Rattle.edge_io.specs.MemSource.{given_of, left_of, faults_of};
    ghost use Rattle.edge_io.specs.MemSink.{taken_of};
    ghost use Rattle.edge_io.specs.MemSink.{faults_of as write_faults_of};
    ghost use Rattle.edge_io.specs.MemDoor.{links_of, script_of, state_of, AcceptsExactly};

    type L = MemLink;

    ghost told = { λ door. state_of door };

    ghost permits = { λ _ _ _ _. Unit {0} };

    /// The accept fails exactly where its number is listed, and else gives the first of the links that wait.
    fn accept(&mut self, _: u64) -> Result<Option<MemLink>, AcceptFault>
        ensures link { IfOk result (λ o. IfSome o (λ _. TakesLink (state_of self.old) (state_of self.new))) }
        ensures fresh { IfOk result (λ o. IfSome o (λ link. IsFresh (state_of self.old).talks
            (Some (given_of (source_of link))) (Some (taken_of (sink_of link))) (Some (left_of (source_of link))))) }
        ensures shut { IfOk result (λ o. IfNone o (IsToldAs (state_of self.old).waiting 0
            × SameLinks (state_of self.old) (state_of self.new))) }
        ensures err { OnErr result (SameLinks (state_of self.old) (state_of self.new)) }
        ensures rest { SameTalks (state_of self.old) (state_of self.new) }
        ensures cause { HasCause (state_of self.old).accept_faults (state_of self.new).accept_faults result }
        ensures exact { AcceptsExactly self.old self.new result }
    {
        if self.script.next_fails() {
            self.accept_faults = self.accept_faults.saturating_add(1);
            return Err(AcceptFault);
        }
        Ok(self.links.pop_front())
    }

    /// The link is let go. Want of memory is that of the list of what was given back.
    fn give_back(
        &mut self,
        link: MemLink,
        proto: Proto,
        conn: u64,
        status: u8,
        _: Talk,
    ) -> Result<(), AllocError>
        ensures adds { OnOk result (Adds (state_of self.old).talks (state_of self.new).talks
            (IsTalk proto conn status (Some (given_of (source_of link))) (Some (taken_of (sink_of link)))
            (Some (left_of (source_of link))))) }
        ensures err { OnErr result ((state_of self.new).talks ≡ (state_of self.old).talks) }
        ensures reads { Gains (faults_of (source_of link)) (state_of self.old).read_faults (state_of self.new).read_faults }
        ensures writes { Gains (write_faults_of (sink_of link)) (state_of self.old).write_faults (state_of self.new).write_faults }
        ensures rest { SameDoor (state_of self.old) (state_of self.new) }
        ensures links { links_of self.new ≡ links_of self.old }
        ensures script { script_of self.new ≡ script_of self.old }
    {
        let used = link.used();
        self.read_faults = self.read_faults.saturating_add(used.read_faults);
        self.write_faults = self.write_faults.saturating_add(used.write_faults);
        self.talks.push(Finished {
            proto,
            conn,
            read: used.read,
            written: used.written,
            status,
            left: used.left,
        })?;
        Ok(())
    }
}
