//! A net over TCP.
ghost use Rattle.std.specs.Prelude.{◌≡◌};
ghost use Rattle.edge_io.specs.Net.{SameHung, HasNetCause};

use crate::dialing::connected;
use crate::door::Shared;
use crate::doors::doors_over;
use crate::listening::{Listening, listening_at};
use crate::roll::{Place, Roll};
use crate::since::seconds_now;
use crate::{Manager, Reports, TcpDoor, TcpLink, TcpMonitor, Waits};
use edge_io::{HeldUp, Net, NetFault, Object, Pause};
use std::alloc::{AllocError, Global};
use std::net::{self, TcpListener, TcpStream};
use std::rt::Clock;
use std::sync::Arc;
use std::time::Duration;
use std::{io, thread};

// How long the shortest wait is, in milliseconds: a twentieth of a second.
const TWENTIETH_MILLIS: u64 = 50;

// How many twentieths of a second a pause takes, and a short wait.
const PAUSE: u32 = 20;

const SHORT: u32 = 1;

// After how many twentieths of a second of waiting the places that lack a thread are reported: after three seconds.
const ROLL_REPORT: u32 = 60;

/// The sockets of the system. A place is an address of IP or the name of a host, a colon and a port. A bind listens
/// at the first of the host's addresses that can be bound, a dial connects to the first that answers.
#[derive(Drop)]
pub struct TcpNet<'a, R> {
    alloc: Global,
    rt: &'a R,
    reports: &'a Reports,
    waits: Waits,
    // Who waits until the last of the places is served at which the net listened first.
    manager: Option<Manager>,
    // The sockets that listen, and wait for a bind or a monitor.
    listening: Vec<Listening>,
    // The places that were bound, once one was.
    roll: Option<Arc<Roll>>,
    places: usize,
    // For how many twentieths of a second this thread waited.
    waited: u32,
    errors: u64,
    read_errors: u64,
    write_errors: u64,
}

impl<'a, R> TcpNet<'a, R> {
    ghost use Rattle.std.specs.Prelude.{None};
    ghost use Rattle.edge_net.specs.TcpNet.{state_of};

    /// A net with no error so far, whose links wait as those of the program. What befalls them is said by `reports`.
    pub fn new(alloc: Global, rt: &'a R, reports: &'a Reports) -> TcpNet<'a, R>
        ensures { state_of result ≡ record { bound = None; hung = None; net_faults = 0; read_faults = 0; write_faults = 0 } }
    {
        TcpNet::with_waits(alloc, rt, reports, Waits::standard())
    }

    /// A net with no error so far, whose doors and links wait so long.
    pub fn with_waits(alloc: Global, rt: &'a R, reports: &'a Reports, waits: Waits) -> TcpNet<'a, R>
        ensures { state_of result ≡ record { bound = None; hung = None; net_faults = 0; read_faults = 0; write_faults = 0 } }
    {
        TcpNet {
            alloc,
            rt,
            reports,
            waits,
            manager: None,
            listening: Vec::new(alloc),
            roll: None,
            places: 0,
            waited: 0,
            errors: 0,
            read_errors: 0,
            write_errors: 0,
        }
    }
}

impl<'a, R> TcpNet<'a, R> {
    ghost use Rattle.edge_net.specs.TcpNet.{state_of};

    /// The same net, which tells the manager once the last of the places is served at which it listened first ([`TcpNet::listen`]).
    pub fn telling(self, manager: Option<Manager>) -> TcpNet<'a, R>
        ensures { state_of result ≡ state_of self.entry }
    {
        TcpNet { manager, ..self }
    }

    // The socket that listens at the place already, if one does, which is handed out then.
    fn take_listening(&mut self, place: &str) -> Option<TcpListener>
        ensures { state_of self.new ≡ state_of self.old }
    {
        let at = listening_at(&self.listening, place)?;
        let Listening { listener, .. } = self.listening.swap_remove(at);
        Some(listener)
    }

    // Tells the manager that all places are served, if this was the last of them.
    fn tell_served(&self) {
        if let Some(manager) = &self.manager
            && self.listening.is_empty()
        {
            manager.tell_ready();
        }
    }
}

impl<R: net::Net<Stream = TcpStream, Listener = TcpListener> + Clock + Eprint> TcpNet<'_, R> {
    ghost use Rattle.edge_net.specs.TcpNet.{state_of};

    /// Listens at the place before doors are asked for there, for which a later bind or monitor of this place takes that socket. Whoever
    /// connects meanwhile waits. A port that is taken is a fault; standard error says which place it is and what the system says of it.
    pub fn listen(&mut self, place: &str) -> Result<(), NetFault>
        ensures cause { HasNetCause (state_of self.old).net_faults (state_of self.new).net_faults result }
        ensures rest { SameHung (state_of self.old) (state_of self.new) }
        ensures bound { (state_of self.new).bound ≡ (state_of self.old).bound }
    {
        let name = String::from_str(self.alloc, place)?;
        match TcpListener::bind(self.rt, place) {
            Ok(listener) => {
                let listening = Listening {
                    place: name,
                    listener,
                };
                match self.listening.push(listening) {
                    Ok(()) => Ok(()),
                    Err(_) => Err(NetFault::NoMemory),
                }
            }
            Err(error) => {
                self.reports.cannot_listen(self.rt, place, &error);
                self.errors = self.errors.saturating_add(1);
                Err(NetFault::Fault)
            }
        }
    }

    // A socket that listens at the place: the one that does already, or another.
    fn listener_at(&mut self, place: &str) -> io::Result<TcpListener>
        ensures { state_of self.new ≡ state_of self.old }
    {
        match self.take_listening(place) {
            Some(listener) => Ok(listener),
            None => TcpListener::bind(self.rt, place),
        }
    }
}

impl<R> Object for TcpNet<'_, R> {
    ghost same = { λ _ _. Unit {0} };

    ghost same_refl = { λ _. tt };

    ghost same_trans = { λ _ _ _ _ _. tt };
}

impl<R: Clock + Eprint> Pause for TcpNet<'_, R> {
    ghost use Rattle.edge_net.specs.TcpNet.{state_of};

    ghost pause_apart = { λ x y. state_of y ≡ state_of x };

    /// Sleeps for a second. Once all pauses and short waits took three seconds, the places that lack a thread are reported too, as
    /// where those who accept wait for this thread to end. A place whose doors all have connections is reported once a minute.
    fn pause(&mut self) {
        self.wait_for(PAUSE)
    }

    ghost pause_refl = { λ _. Prim.cc };

    ghost pause_trans = { λ x y z p q. Prim.cc };
}

impl<R: Clock + Eprint> TcpNet<'_, R> {
    ghost use Rattle.edge_net.specs.TcpNet.{state_of};

    // Sleeps for so many twentieths of a second, and reports the places that lack a thread, and those whose doors all have connections,
    // where it is due.
    fn wait_for(&mut self, twentieths: u32)
        ensures { state_of self.new ≡ state_of self.old }
    {
        let millis = TWENTIETH_MILLIS.saturating_mul(u64::from(twentieths));
        thread::sleep(self.rt, Duration::from_millis(millis));
        let before = self.waited;
        self.waited = before.saturating_add(twentieths);
        let Some(roll) = &self.roll else {
            return;
        };
        if before < ROLL_REPORT && self.waited >= ROLL_REPORT {
            roll.report_missing(self.rt);
        }
        roll.report_busy(self.rt);
    }
}

impl<'a, R> TcpNet<'a, R> {
    ghost use Rattle.edge_net.specs.TcpNet.{state_of};

    // The roll of the net, made where there is none.
    fn roll(&mut self) -> Result<Arc<Roll>, AllocError>
        ensures { state_of self.new ≡ state_of self.old }
    {
        if self.roll.is_none() {
            let roll = Roll::new(self.alloc, self.reports.is_quiet())?;
            self.roll = Some(Arc::new(self.alloc, roll)?);
        }
        match &self.roll {
            Some(roll) => Arc::try_clone(roll),
            None => Err(AllocError),
        }
    }

    // What the doors of a place share at which the socket listens. The place is entered in the roll.
    fn shared(
        &mut self,
        listener: TcpListener,
        place: &str,
        doors: u32,
    ) -> Result<Shared<'a, R>, AllocError>
        ensures { state_of self.new ≡ state_of self.old }
    {
        let roll = self.roll()?;
        let name = String::from_str(self.alloc, place)?;
        let is_quiet = self.reports.is_quiet();
        let place = Place::with_doors(self.alloc, name, u64::from(doors), is_quiet)?;
        let place = Arc::new(self.alloc, place)?;
        roll.enter(self.places, Arc::try_clone(&place)?);
        self.places = self.places.saturating_add(1);
        Ok(Shared {
            rt: self.rt,
            reports: self.reports,
            waits: self.waits,
            listener: Arc::new(self.alloc, listener)?,
            place,
            roll,
        })
    }
}

impl<'a, R: net::Net<Stream = TcpStream, Listener = TcpListener> + Clock + Eprint> Net
    for TcpNet<'a, R> {
    ghost use Rattle.edge_net.specs.TcpNet.{state_of};

    type L = TcpLink<'a, R>;

    type P = TcpDoor<'a, R>;

    type M = TcpMonitor<'a, R>;

    ghost told = { λ net. state_of net };

    ghost may_bind = { λ _. Unit {0} };

    ghost may_dial = { λ _. Unit {0} };

    ghost may_report = { λ _ _. Unit {0} };

    ghost permits = { λ _ _ _ _ _. Unit {0} };

    ghost has_room = { λ _. Unit {0} };

    /// Listens at the place, with one socket for all the doors, and says so on standard error. A port that is taken is a fault;
    /// standard error says which place it is and what the system says of it.
    fn bind(&mut self, place: &str, doors: u32) -> Result<Vec<TcpDoor<'a, R>>, NetFault> {
        match self.listener_at(place) {
            Ok(listener) => {
                let shared = self.shared(listener, place, doors)?;
                let made = doors_over(self.alloc, place, doors as usize, &shared)?;
                self.reports.listens(self.rt, place);
                self.tell_served();
                Ok(made)
            }
            Err(error) => {
                self.reports.cannot_listen(self.rt, place, &error);
                self.errors = self.errors.saturating_add(1);
                Err(NetFault::Fault)
            }
        }
    }

    /// Listens at the place for those who ask for numbers, and says so on standard error. A port that is taken is a fault; standard error
    /// says which place it is and what the system says of it.
    fn monitor(&mut self, place: &str) -> Result<TcpMonitor<'a, R>, NetFault> {
        let roll = self.roll()?;
        let (alloc, rt, reports) = (self.alloc, self.rt, self.reports);
        let made = match self.listener_at(place) {
            Ok(listener) => {
                TcpMonitor::over(alloc, rt, reports, roll, listener, seconds_now(rt))
            }
            Err(error) => Err(error),
        };
        match made {
            Ok(monitor) => {
                self.reports.listens_for_askers(self.rt, place);
                self.tell_served();
                Ok(monitor)
            }
            Err(error) => {
                self.reports.cannot_listen(self.rt, place, &error);
                self.errors = self.errors.saturating_add(1);
                Err(NetFault::Fault)
            }
        }
    }

    /// Connects to the place. A peer that doesn't listen is a fault, and so is one that doesn't answer in time; standard error says
    /// why, where that is news.
    fn dial(&mut self, place: &str) -> Result<TcpLink<'a, R>, NetFault> {
        let name = String::from_str(self.alloc, place)?;
        match connected(self.rt, place, self.waits.dialed) {
            Ok(stream) => {
                self.reports.counts().sessions.add();
                Ok(TcpLink::dialed(self.rt, self.reports, stream, name, self.waits))
            }
            Err(error) => {
                self.reports.cannot_reach(self.rt, place, &error);
                self.errors = self.errors.saturating_add(1);
                Err(NetFault::Fault)
            }
        }
    }

    /// Closes the connection and counts its errors. What the peer still sends, or had sent and nobody read, is given up: what a
    /// sender wrote and its peer didn't acknowledge is sent again.
    fn hang_up(&mut self, link: TcpLink<'a, R>) {
        self.read_errors = self.read_errors.saturating_add(link.read_errors());
        self.write_errors = self.write_errors.saturating_add(link.write_errors());
        link.say_hung_up();
    }

    /// Sleeps for a twentieth of a second.
    fn wait_briefly(&mut self) {
        self.wait_for(SHORT)
    }

    /// Says on standard error which entry holds the forwarding up, where the receiver refused it or the session before failed at it too,
    /// once a minute at most.
    fn report_held_up(&mut self, place: &str, held_up: &HeldUp) {
        self.reports.held_up(self.rt, place, held_up);
    }

    ghost dialed_is_free = { λ _ _. tt };

    ghost pauses_keep = { λ x y same. same };

    ghost pauses_keep_room = { λ x y same room. room };
}
