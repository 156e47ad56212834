//! Which places have their workers. Each worker begins with an accept, in a thread of its own where the system grants one; where it
//! refuses one, that worker begins only once another one has ended, and its place is served late.
use crate::accepting::is_due;
use crate::counts::Connections;
use crate::page::escaped;
use std::alloc::{AllocError, Global};
use std::rt::Clock;
use std::sync::atomic::{AtomicBool, AtomicU64, Ordering};
use std::sync::{Arc, OnceLock};
use std::thread;
use std::time::Duration;

// How many places are on a roll at most. The program has at most 64 workers, and each place has one of them or more.
const MOST_PLACES: usize = 64;

// How long a look at the roll waits before the next one, in milliseconds.
const LOOK_MILLIS: u64 = 10;

/// A place that is listened at, as its doors share it.
#[derive(Drop)]
pub(crate) struct Place {
    /// Its name, for the lines on standard error.
    pub(crate) name: String,
    /// Its name as the value of a label.
    pub(crate) label: String,
    /// When an accept that failed there was reported last, in whole seconds of the clock and one more; 0 for never.
    pub(crate) reported: AtomicU64,
    /// The same for when it was reported that all its doors have connections.
    pub(crate) busy_reported: AtomicU64,
    /// The connections that came in there.
    pub(crate) connections: Connections,
    // How many doors it has.
    doors: u64,
    // How many of them have begun to accept.
    begun: AtomicU64,
}

impl Place {
    /// A place with so many doors, none of which has begun. Where it is quiet, nothing of it is ever reported: it is as if it had been at
    /// the end of time.
    pub(crate) fn with_doors(
        alloc: Global,
        name: String,
        doors: u64,
        is_quiet: bool,
    ) -> Result<Place, AllocError> {
        let label = escaped(alloc, name.as_str())?;
        let reported = if is_quiet { u64::MAX } else { 0 };
        Ok(Place {
            name,
            label,
            reported: AtomicU64::new(reported),
            busy_reported: AtomicU64::new(reported),
            connections: Connections::none(alloc)?,
            doors,
            begun: AtomicU64::new(0),
        })
    }

    /// Notes that one more of its doors begins.
    pub(crate) fn begin(&self) {
        let _ = self.begun.fetch_add(1, Ordering::SeqCst);
    }

    /// How many connections it accepted, how many of them have not ended, and how many it serves at once at most.
    pub(crate) fn values(&self) -> [u64; 3] {
        [
            self.connections.accepted(),
            self.connections.open(),
            self.doors,
        ]
    }

    /// Says that each of its doors has a connection, where it has several, that is so, and it was not said in the last minute.
    pub(crate) fn report_busy(&self, rt: &(impl Clock + Eprint)) {
        let (name, doors) = (&self.name, self.doors);
        if doors > 1 && self.connections.open() >= doors && is_due(rt, &self.busy_reported) {
            let _ = eprintln!(rt;
                "bridge: senders at {name}: all {doors} workers serve one; further ones wait"
            );
        }
    }

    // How many of its doors have not begun.
    fn missing(&self) -> u64 {
        self.doors.saturating_sub(self.begun.load(Ordering::SeqCst))
    }
}

/// The places of a net, in the order in which they were bound, and whether it was reported which of them lack a thread.
#[derive(Drop)]
pub(crate) struct Roll {
    places: Vec<OnceLock<Arc<Place>>>,
    is_reported: AtomicBool,
}

impl Roll {
    /// A roll with no place, and room for 64. One that is quiet reports nothing.
    pub(crate) fn new(alloc: Global, is_quiet: bool) -> Result<Roll, AllocError> {
        let mut places = Vec::with_capacity(alloc, MOST_PLACES)?;
        for _ in 0..MOST_PLACES {
            places.push(OnceLock::new())?;
        }
        Ok(Roll {
            places,
            is_reported: AtomicBool::new(is_quiet),
        })
    }

    /// Enters the place as the one with that number. A number above those of the roll has no entry.
    pub(crate) fn enter(&self, number: usize, place: Arc<Place>) {
        if let Some(entry) = self.places.get(number) {
            let _ = entry.try_set(place);
        }
    }

    /// The places, each in an entry of its own. Entries after the last place are empty.
    pub(crate) fn entries(&self) -> &[OnceLock<Arc<Place>>] {
        &self.places
    }

    /// How many connections of all places have ended since FILE had no room for an event.
    pub(crate) fn without_room(&self) -> u64 {
        let mut times = 0u64;
        for entry in &self.places {
            if let Some(place) = entry.get() {
                times = times.saturating_add(place.connections.without_room());
            }
        }
        times
    }

    // Whether each door of each place has begun.
    fn is_whole(&self) -> bool {
        for entry in &self.places {
            if let Some(place) = entry.get()
                && place.missing() > 0
            {
                return false;
            }
        }
        true
    }

    /// Waits until each door has begun, for as long as `most` at most, and reports those that have not then.
    pub(crate) fn wait_for_all(&self, rt: &(impl Clock + Eprint), most: Duration) {
        for _ in 0..most.as_millis() / u128::from(LOOK_MILLIS) {
            if self.is_whole() {
                return;
            }
            thread::sleep(rt, Duration::from_millis(LOOK_MILLIS));
        }
        self.report_missing(rt);
    }

    /// Says of each place that each of its doors has a connection, where that is so, once a minute.
    pub(crate) fn report_busy(&self, rt: &(impl Clock + Eprint)) {
        for entry in &self.places {
            if let Some(place) = entry.get() {
                place.report_busy(rt);
            }
        }
    }

    /// Prints a line for each place of which a door has not begun, the first time that there is one. A write that fails there is
    /// not reported.
    pub(crate) fn report_missing(&self, rt: &impl Eprint) {
        if self.is_whole() || self.is_reported.swap(true, Ordering::SeqCst) {
            return;
        }
        for entry in &self.places {
            if let Some(place) = entry.get() {
                let missing = place.missing();
                if missing > 0 {
                    let (name, doors) = (&place.name, place.doors);
                    let _ = eprintln!(rt;
                        "bridge: {name}: no thread for {missing} of {doors} workers; served late"
                    );
                }
            }
        }
    }
}
