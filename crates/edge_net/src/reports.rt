//! What is said on standard error of the sockets.
ghost use Rattle.std.specs.Prelude.{◌≡◌, max, true, false};

use crate::budget::{Budget, STANDARD_MEMORY};
use crate::counts::Counts;
use crate::hindrance::Hindrance;
use crate::page::{pending_of, room_of};
use crate::since::millis;
use crate::token_places::{Standing, line_of};
use crate::{
    FileCounts, Illness, Line, Matter, Proxies, Receiver, Recent, Since, Standstill, TokenFile,
    Topic,
};
use edge_io::{HeldUp, SpoolNumbers};
use std::net::SocketAddr;
use std::rt::Clock;
use std::sync::Mutex;
use std::sync::atomic::{AtomicU64, Ordering};
use std::{fmt, io};

/// What is said on standard error of the doors and links of a net, which share it, and what is counted of them.
///
/// A line says what befell a sender's connection, with the peer's address: at most one a minute about the same topic, and ten a second
/// in all. The lines count what they leave out. Others say how the receiver is, where that changes, and which entry it holds up, at most
/// once a minute about the same one. Nothing waits for a line, and where one can't be written that isn't reported.
#[derive(Drop)]
pub struct Reports {
    is_quiet: bool,
    // It is printed which number the connection of each sender has.
    is_verbose: bool,
    // The version that runs, or nothing.
    version: &'static str,
    // The file that the tokens of senders were taken from.
    tokens: Option<TokenFile>,
    senders: Mutex<Recent>,
    receiver: Mutex<Receiver>,
    standstill: Mutex<Standstill>,
    // How often something befell a sender's connection while another thread noted such a thing.
    overlooked: AtomicU64,
    counts: Counts,
    budget: Budget,
    proxies: Proxies,
}

// What a line about the receiver stands for beside what it says.
#[derive(Clone, Copy)]
struct Failures {
    // How many failures came since the line before, beside the one that this line is about.
    more: u64,
}

impl fmt::Display for Failures {
    fn fmt<W: fmt::Write>(&self, f: &mut fmt::Formatter<W>) -> fmt::Result {
        let more = self.more;
        match more {
            0 => Ok(()),
            _ => write!(f, "; failures meanwhile: {more}"),
        }
    }
}

// Whether a number of 0 to 65,535 stands after the last colon of a place.
fn has_port(place: &str) -> bool {
    match place.rsplit_once(':') {
        Some((_, port)) => port.parse::<u16>().is_ok(),
        None => false,
    }
}

// Why a place can't be listened at or reached.
#[derive(Clone, Copy)]
struct Reason<'a> {
    place: &'a str,
    error: &'a io::Error,
}

// What the system says, where the place has a port.
impl fmt::Display for Reason<'_> {
    fn fmt<W: fmt::Write>(&self, f: &mut fmt::Formatter<W>) -> fmt::Result {
        let (place, error) = (self.place, self.error);
        if has_port(place) {
            write!(f, "{error}")
        } else {
            write!(f, "no port in {place}")
        }
    }
}

impl Reports {
    /// Lines are printed.
    pub fn new() -> Reports
        ensures { result.is_quiet ≡ false }
    {
        Reports::with_quiet(false)
    }

    /// None is.
    pub fn quiet() -> Reports
        ensures { result.is_quiet ≡ true }
    {
        Reports::with_quiet(true)
    }

    fn with_quiet(is_quiet: bool) -> Reports
        ensures { result.is_quiet ≡ is_quiet }
    {
        Reports {
            is_quiet,
            is_verbose: false,
            version: "",
            tokens: None,
            senders: Mutex::new(Recent::new()),
            receiver: Mutex::new(Receiver::new()),
            standstill: Mutex::new(Standstill::new()),
            overlooked: AtomicU64::new(0),
            counts: Counts::new(),
            budget: Budget::new(STANDARD_MEMORY),
            proxies: Proxies::none(),
        }
    }

    /// The same, where the connections of senders may take so many bytes of memory, or 16,777,216 where they are fewer.
    pub fn with_memory(self, bytes: u64) -> Reports
        ensures quiet { result.is_quiet ≡ self.is_quiet }
        ensures bound { result.budget.bound ≡ max bytes 16_777_216 }
    {
        Reports {
            budget: Budget::new(bytes),
            ..self
        }
    }

    /// The same, where senders come through these proxies.
    pub fn with_proxies(self, proxies: Proxies) -> Reports
        ensures quiet { result.is_quiet ≡ self.is_quiet }
        ensures proxies { result.proxies ≡ proxies }
    {
        Reports { proxies, ..self }
    }

    /// The proxies through which senders come, or none.
    pub(crate) fn proxies(&self) -> Proxies
        ensures { result ≡ self.now.proxies }
    {
        self.proxies
    }

    /// The same of a program of that version, which those are told who ask for numbers.
    pub fn of_version(self, version: &'static str) -> Reports
        ensures { result.is_quiet ≡ self.is_quiet }
    {
        Reports { version, ..self }
    }

    /// The same, and where `is_verbose` says so it is printed which number the connection of each sender has, unless nothing is printed.
    pub fn with_verbose(self, is_verbose: bool) -> Reports
        ensures quiet { result.is_quiet ≡ self.is_quiet }
        ensures verbose { result.is_verbose ≡ is_verbose }
    {
        Reports { is_verbose, ..self }
    }

    /// The same, where the tokens of senders were taken from this file, if they were taken from one. A line about a request names the line
    /// of it in which the request's token stands, where that is known.
    pub fn with_tokens(self, tokens: Option<TokenFile>) -> Reports
        ensures { result.is_quiet ≡ self.is_quiet }
    {
        Reports { tokens, ..self }
    }

    /// Whether lines name those of a file of tokens.
    pub(crate) fn has_tokens(&self) -> bool {
        !self.is_quiet && self.tokens.is_some()
    }

    /// The line in which this token stands, where there is one and it stands in a file.
    pub(crate) fn line_of(&self, token: Option<u128>) -> Option<usize> {
        match (&self.tokens, token) {
            (Some(file), Some(guid)) => line_of(&file.places, guid),
            _ => None,
        }
    }

    /// The version that runs.
    pub(crate) fn version(&self) -> &'static str {
        self.version
    }

    /// Whether no line is printed.
    pub(crate) fn is_quiet(&self) -> bool
        ensures { result ≡ self.now.is_quiet }
    {
        self.is_quiet
    }

    /// What is counted, also where no line is printed.
    pub(crate) fn counts(&self) -> &Counts {
        &self.counts
    }

    /// The memory that the connections of senders take.
    pub(crate) fn budget(&self) -> &Budget {
        &self.budget
    }

    /// What is counted of the calls of FILE, for whoever makes them to note.
    pub fn file(&self) -> &FileCounts {
        &self.counts.file
    }

    /// Since when calls of FILE fail.
    pub fn disk(&self) -> &Since {
        &self.counts.file.failing
    }

    /// What is pending as the spool begins to be served, and how much room there is.
    pub(crate) fn begins(&self, rt: &impl Eprint, numbers: &SpoolNumbers) {
        if !self.is_quiet {
            let (run, pending, room) = (numbers.run, pending_of(numbers), room_of(numbers));
            let _ = eprintln!(rt;
                "bridge: run {run} begins: {pending} entries pending, room for {room} bytes"
            );
        }
    }

    /// That the spool is full, or isn't any more.
    pub(crate) fn fills(&self, rt: &impl Eprint, is_full: bool) {
        if self.is_quiet {
            return;
        }
        let _ = if is_full {
            eprintln!(rt; "bridge: FILE has no room; nothing is acknowledged until it has")
        } else {
            eprintln!(rt; "bridge: FILE has room again")
        };
    }

    /// That a place is listened at.
    pub(crate) fn listens(&self, rt: &impl Eprint, place: &str) {
        if !self.is_quiet {
            let _ = eprintln!(rt; "bridge: listening on {place}");
        }
    }

    /// That a place is listened at for those who ask for numbers.
    pub(crate) fn listens_for_askers(&self, rt: &impl Eprint, place: &str) {
        if !self.is_quiet {
            let _ = eprintln!(rt; "bridge: listening on {place} for those who ask for numbers");
        }
    }

    /// That a place can't be listened at, and why.
    pub(crate) fn cannot_listen(&self, rt: &impl Eprint, place: &str, error: &io::Error) {
        if !self.is_quiet {
            let reason = Reason { place, error };
            let _ = eprintln!(rt; "bridge: can't listen on {place}: {reason}");
        }
    }

    /// That the first bytes came of this peer, whose connection has this number.
    pub(crate) fn begins_to_send(&self, rt: &impl Eprint, peer: SocketAddr, conn: u64) {
        if self.is_verbose && !self.is_quiet {
            let _ = eprintln!(rt; "bridge: connection {conn} is of sender {peer}");
        }
    }

    /// That this befell the connection of this peer.
    pub(crate) fn sender(&self, rt: &(impl Clock + Eprint), peer: SocketAddr, matter: Matter) {
        if self.is_quiet {
            return;
        }
        let topic = Topic {
            peer: peer.ip(),
            matter: matter.kind(),
        };
        if let Some(line) = self.line_about(rt, topic) {
            let standing = Standing::of(&self.tokens, matter);
            let _ = eprintln!(rt; "bridge: sender {peer}: {matter}{standing}{line}");
        }
    }

    // The line about the topic, which came just now, if one is to be printed. Without a clock none is.
    fn line_about(&self, rt: &impl Clock, topic: Topic) -> Option<Line> {
        let Ok(now) = millis(rt) else {
            return None;
        };
        let Some(mut senders) = self.senders.try_lock() else {
            let _ = self.overlooked.fetch_add(1, Ordering::SeqCst);
            return None;
        };
        senders.overlook(self.overlooked.swap(0, Ordering::SeqCst));
        senders.note(topic, now)
    }

    /// That the receiver at this place fails in this way.
    pub(crate) fn receiver_fails(&self, rt: &(impl Clock + Eprint), place: &str, illness: Illness) {
        if let Some(failures) = self.failures_at(rt, illness) {
            let _ = eprintln!(rt; "bridge: receiver {place}: {illness}{failures}");
        }
    }

    /// That no address of this place took a connection, and the error of the last one.
    pub(crate) fn cannot_reach(&self, rt: &(impl Clock + Eprint), place: &str, error: &io::Error) {
        self.counts.unreached.add();
        if let Some(failures) = self.failures_at(rt, Illness::Unreached) {
            let reason = Reason { place, error };
            let _ = eprintln!(rt; "bridge: receiver {place}: can't reach it: {reason}{failures}");
        }
    }

    // What is said of the failures that a line stands for, if one is to be printed about one of this kind that came just now.
    fn failures_at(&self, rt: &impl Clock, illness: Illness) -> Option<Failures> {
        self.counts.receiver.fails(rt);
        if self.is_quiet {
            return None;
        }
        let Ok(now) = millis(rt) else {
            return None;
        };
        let count = self.receiver.try_lock()?.fails(illness, now)?;
        Some(Failures {
            more: count.saturating_sub(1),
        })
    }

    /// That a session with the receiver at this place failed, and what holds the forwarding up.
    pub(crate) fn held_up(&self, rt: &(impl Clock + Eprint), place: &str, held_up: &HeldUp) {
        self.counts.obstacle.note(held_up);
        if !self.is_quiet && self.is_hindrance(rt, held_up) {
            let hindrance = Hindrance { held_up };
            let _ = eprintln!(rt; "bridge: receiver {place}: {hindrance}");
        }
    }

    // Whether a line is to be printed about the entry, at which a session failed just now. Without a clock none is.
    fn is_hindrance(&self, rt: &impl Clock, held_up: &HeldUp) -> bool {
        let Ok(now) = millis(rt) else {
            return false;
        };
        let is_refused = held_up.code.is_some();
        match self.standstill.try_lock() {
            Some(mut standstill) => standstill.fails(held_up.number, is_refused, now),
            None => false,
        }
    }

    /// That a session with the receiver at this place ended with answers and without a failure.
    pub(crate) fn receiver_is_well(&self, rt: &impl Eprint, place: &str) {
        self.counts.receiver.is_well();
        if self.is_quiet {
            return;
        }
        let Some(mut receiver) = self.receiver.try_lock() else {
            return;
        };
        let well = receiver.is_well();
        drop(receiver);
        if let Some(more) = well {
            let failures = Failures { more };
            let _ = eprintln!(rt; "bridge: receiver {place} is well again{failures}");
        }
    }
}
