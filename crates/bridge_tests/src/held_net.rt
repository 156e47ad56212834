//! Doors and a net that give links which hold back what they give, and a monitor at which those ask whom a test lets.
ghost use Rattle.std.specs.Prelude.{◌≡◌, None, IfOk, length, All};
ghost use Rattle.edge_io.specs.Door.{IsNewDoor};

use crate::held::{Held, Movable, Plan};
use crate::held_monitor::{Ask, HeldMonitor};
use edge_io::{AcceptFault, Door, HeldUp, Net, NetFault, Object, Pause, Proto};
use event_form::Talk;
use std::alloc::{AllocError, Global};
use std::sync::atomic::AtomicBool;

/// A link that was served: the status of its ending, and what was written to it.
#[derive(Drop)]
pub(crate) struct Talked {
    pub(crate) status: u8,
    pub(crate) written: Vec<u8>,
}

/// A door at which one link comes in, or none.
#[derive(Drop)]
pub(crate) struct HeldDoor<'a> {
    link: Option<Held<'a>>,
    /// The link that was given back.
    pub(crate) talked: Option<Talked>,
    pub(crate) read_faults: u64,
    pub(crate) write_faults: u64,
}

impl<'a> Door for HeldDoor<'a> {
    type L = Held<'a>;

    ghost told = { λ door. record {
      place = None;
      waiting = None;
      accepted = None;
      talks = None;
      accept_faults = 0;
      read_faults = door.read_faults;
      write_faults = door.write_faults;
    } };

    ghost permits = { λ _ _ _ _. Unit {0} };

    fn accept(&mut self, _: u64) -> Result<Option<Held<'a>>, AcceptFault> {
        Ok(self.link.take())
    }

    fn give_back(
        &mut self,
        link: Held<'a>,
        _: Proto,
        _: u64,
        status: u8,
        _: Talk,
    ) -> Result<(), AllocError> {
        self.read_faults = self.read_faults.saturating_add(link.read_faults);
        self.write_faults = self.write_faults.saturating_add(link.write_faults);
        self.talked = Some(Talked {
            status,
            written: link.written,
        });
        Ok(())
    }
}

/// A net that gives links by plans: the doors of a place have those of the place, one each, in order, and each dial of a place gives
/// one by the first plan there. A monitor is to be had at the place `s` alone.
#[derive(Drop)]
pub(crate) struct HeldNet<'a> {
    alloc: Global,
    plans: &'static [Plan],
    asks: &'static [Ask],
    marks: &'a [AtomicBool],
    faults: u64,
    pub(crate) read_faults: u64,
    pub(crate) write_faults: u64,
    /// What was written to the links that were hung up, one after another.
    pub(crate) sent: Vec<u8>,
    /// Whether no monitor is to be had, and how many were asked for.
    pub(crate) is_refusing: bool,
    pub(crate) monitors: u64,
}

impl<'a> HeldNet<'a> {
    /// A net by these plans, whose answers these marks tell. Nobody asks at its monitor.
    pub(crate) fn new(
        alloc: Global,
        plans: &'static [Plan],
        marks: &'a [AtomicBool],
    ) -> HeldNet<'a> {
        HeldNet::watched(alloc, plans, &[], marks)
    }

    /// A net by these plans, at whose monitor these ask. The marks tell the answers of both.
    pub(crate) fn watched(
        alloc: Global,
        plans: &'static [Plan],
        asks: &'static [Ask],
        marks: &'a [AtomicBool],
    ) -> HeldNet<'a> {
        HeldNet {
            alloc,
            plans,
            asks,
            marks,
            faults: 0,
            read_faults: 0,
            write_faults: 0,
            sent: Vec::new(alloc),
            is_refusing: false,
            monitors: 0,
        }
    }
}

impl Object for HeldNet<'_> {
    ghost same = { λ _ _. Unit {0} };

    ghost same_refl = { λ _. tt };

    ghost same_trans = { λ _ _ _ _ _. tt };
}

impl Pause for HeldNet<'_> {
    ghost pause_apart = { λ x y. y ≡ x };

    fn pause(&mut self) {}

    ghost pause_refl = { λ _. Prim.cc };

    ghost pause_trans = { λ x y z p q. Prim.cc };
}

// The plan of this number among those of the place.
fn plan_of(plans: &'static [Plan], place: &str, number: usize) -> Option<&'static Plan> {
    let mut before = 0_usize;
    for plan in plans {
        if plan.place == place {
            if before == number {
                return Some(plan);
            }
            before = before.saturating_add(1);
        }
    }
    None
}

// The door of this number at the place.
fn door<'a>(
    alloc: Global,
    plans: &'static [Plan],
    marks: &'a [AtomicBool],
    place: &str,
    number: usize,
) -> HeldDoor<'a> {
    let link = match plan_of(plans, place, number) {
        Some(plan) => Some(Held::by(alloc, plan, marks)),
        None => None,
    };
    HeldDoor {
        link,
        talked: None,
        read_faults: 0,
        write_faults: 0,
    }
}

// So many doors at the place.
fn doors_at<'a>(
    alloc: Global,
    plans: &'static [Plan],
    marks: &'a [AtomicBool],
    place: &str,
    count: usize,
) -> Result<Vec<HeldDoor<'a>>, AllocError>
    ensures count { IfOk result (λ made. length made.items ≡ count) }
    ensures fresh { IfOk result (λ made. All (λ door. IsNewDoor place.now (⟦<HeldDoor<'a> as Door>⟧.told door)) made.items) }
{
    let mut made = Vec::with_capacity(alloc, count)?;
    'doors: while made.len() < count {
        let number = made.len();
        made.push_reserved(door(alloc, plans, marks, place, number));
    }
    Ok(made)
}

impl<'a> Net for HeldNet<'a> {
    type L = Held<'a>;

    type P = HeldDoor<'a>;

    type M = HeldMonitor<'a>;

    ghost told = { λ net. record {
      bound = None;
      hung = None;
      net_faults = net.faults;
      read_faults = net.read_faults;
      write_faults = net.write_faults;
    } };

    ghost may_bind = { λ _. Unit {0} };

    ghost may_dial = { λ _. Unit {0} };

    ghost may_report = { λ _ _. Unit {0} };

    ghost permits = { λ _ _ _ _ _. Unit {0} };

    ghost has_room = { λ _. Unit {0} };

    fn bind(&mut self, place: &str, doors: u32) -> Result<Vec<HeldDoor<'a>>, NetFault> {
        match doors_at(self.alloc, self.plans, self.marks, place, doors as usize) {
            Ok(made) => Ok(made),
            Err(_) => Err(NetFault::NoMemory),
        }
    }

    fn monitor(&mut self, place: &str) -> Result<HeldMonitor<'a>, NetFault> {
        self.monitors = self.monitors.saturating_add(1);
        if self.is_refusing || place != "s" {
            self.faults = self.faults.saturating_add(1);
            return Err(NetFault::Fault);
        }
        Ok(HeldMonitor::new(self.asks, self.marks))
    }

    fn dial(&mut self, place: &str) -> Result<Held<'a>, NetFault> {
        match plan_of(self.plans, place, 0) {
            Some(plan) => Ok(Held::by(self.alloc, plan, self.marks)),
            None => {
                self.faults = self.faults.saturating_add(1);
                Err(NetFault::Fault)
            }
        }
    }

    fn hang_up(&mut self, link: Held<'a>) {
        self.read_faults = self.read_faults.saturating_add(link.read_faults);
        self.write_faults = self.write_faults.saturating_add(link.write_faults);
        let _ = self.sent.extend_from_slice(&link.written);
    }

    fn wait_briefly(&mut self) {}

    fn report_held_up(&mut self, _: &str, _: &HeldUp) {}

    ghost dialed_is_free = { λ _ _. tt };

    ghost pauses_keep = { λ x y same. Prim.cc };

    ghost pauses_keep_room = { λ x y same room. room };
}

impl Movable for HeldDoor<'_> {}
