//! Where those come in over HTTP who ask for a spool's numbers.
ghost use Rattle.std.specs.Prelude.{◌≡◌};
ghost use Rattle.edge_net.specs.Page.{health_status, health_line};

use crate::Reports;
use crate::ages::Ages;
use crate::asker::Asker;
use crate::asking::Asked;
use crate::fullness::Fullness;
use crate::page::{Glance, page};
use crate::roll::Roll;
use crate::since::millis;
use crate::telling::Reply;
use edge_io::{Monitor, SpoolNumbers};
use std::alloc::{AllocError, Global};
use std::net::TcpListener;
use std::rt::Clock;
use std::sync::Arc;
use std::time::Duration;
use std::{io, thread};

// How long it waits where nobody is connected, in milliseconds: a twentieth of a second; and where somebody is who hasn't asked yet.
const WAIT_MILLIS: u64 = 50;

const SHORT_WAIT_MILLIS: u64 = 10;

// How long it takes until the numbers are looked at again, also where nobody asks, in milliseconds.
const LOOK_MILLIS: u64 = 1_000;

// How many are connected at most.
const MOST_ASKERS: usize = 64;

// The type of a page of numbers.
const NUMBERS: &str = "text/plain; version=0.0.4; charset=utf-8";

/// A socket at which those connect who ask for a spool's numbers over HTTP: `/metrics` is a page in Prometheus' text format, and
/// `/health` is answered by 200, or by 503 while the spool is full or calls of FILE fail. Each connection gets one answer. Up to 64 may be
/// connected; who has asked is answered before those whose requests are still to come, and for one more the first that has not asked is
/// closed.
///
/// Once a second it asks for the numbers itself, to see when entries come, and whether there is room: a line on standard error says where
/// the spool is full, and once it isn't any more; the first look's says what is pending.
#[derive(Drop)]
pub struct TcpMonitor<'a, R> {
    alloc: Global,
    rt: &'a R,
    reports: &'a Reports,
    roll: Arc<Roll>,
    // It doesn't wait.
    listener: TcpListener,
    fullness: Fullness,
    // When the run began, in seconds since 1970.
    began: u64,
    // When the pending entries were first seen.
    ages: Ages,
    // From when on the numbers are to be looked at, in milliseconds of the clock; `None`: they never were.
    next_look: Option<u64>,
    // The spool was full at the last look.
    was_full: bool,
    // Those who are connected, who came first at first.
    askers: Vec<Asker>,
    // Somebody of them asks for numbers.
    is_asked: bool,
}

// What those are answered who ask for nothing that there is.
fn refusal(asked: Asked, is_head: bool) -> Reply<'static> {
    match asked {
        Asked::NoMethod => Reply {
            fields: "Allow: GET, HEAD\r\n",
            ..Reply::plain("405 Method Not Allowed", "GET or HEAD\n", is_head)
        },
        Asked::NoRequest => Reply::plain("400 Bad Request", "no request\n", is_head),
        _ => Reply::plain("404 Not Found", "/metrics or /health\n", is_head),
    }
}

// The status of an answer about the health, and its line: by whether calls of FILE fail, and whether the spool is full.
fn health(disk_fails: bool, is_full: bool) -> (&'static str, &'static str)
    ensures status { result.0.now ≡ health_status disk_fails is_full }
    ensures line { result.1.now ≡ health_line disk_fails is_full }
{
    match (disk_fails, is_full) {
        (true, _) => ("503 Service Unavailable", "a call on FILE failed\n"),
        (false, true) => ("503 Service Unavailable", "FILE has no room\n"),
        (false, false) => ("200 OK", "ok\n"),
    }
}

impl<'a, R> TcpMonitor<'a, R> {
    /// A monitor over the socket, whom nobody has asked, of a run that began at that time, in seconds since 1970. The places are those of
    /// the net that lends the reports. The error is the system's, of the call after which the socket doesn't wait.
    pub(crate) fn over(
        alloc: Global,
        rt: &'a R,
        reports: &'a Reports,
        roll: Arc<Roll>,
        listener: TcpListener,
        began: u64,
    ) -> io::Result<TcpMonitor<'a, R>> {
        listener.set_nonblocking(true)?;
        Ok(TcpMonitor {
            alloc,
            rt,
            reports,
            roll,
            listener,
            fullness: Fullness::new(),
            began,
            ages: Ages::none(alloc),
            next_look: None,
            was_full: false,
            askers: Vec::new(alloc),
            is_asked: false,
        })
    }

    // Closes the first connection on which nothing was asked yet.
    fn let_one_go(&mut self) {
        for i in 0..self.askers.len() {
            if self.askers[i].request().is_none() {
                let _gone = self.askers.remove(i);
                return;
            }
        }
    }

    // Lets in those who wait, where 64 are connected in place of the first of them who has not asked.
    fn admit(&mut self, now: u64) {
        for _ in 0..MOST_ASKERS {
            let Ok((stream, _)) = self.listener.accept() else {
                return;
            };
            if self.askers.len() >= MOST_ASKERS {
                self.let_one_go();
            }
            if let Some(asker) = Asker::at(self.alloc, stream, now) {
                let _ = self.askers.push(asker);
            }
        }
    }

    // Looks at each who is connected, and whether somebody asks for numbers. Who asks for something else is answered at once.
    fn look(&mut self, now: u64) {
        self.is_asked = false;
        for asker in &mut self.askers {
            asker.look(now);
            let Some(request) = asker.request() else {
                continue;
            };
            match request.asked {
                Asked::Metrics | Asked::Health => self.is_asked = true,
                asked => asker.answer(self.alloc, refusal(asked, request.is_head), now),
            }
        }
        self.askers.retain(|asker| !asker.is_gone());
    }
}

impl<R: Clock + Eprint> TcpMonitor<'_, R> {
    // The page of numbers.
    fn page(&self, numbers: &SpoolNumbers, is_full: bool, now: u64) -> Result<String, AllocError> {
        let counts = self.reports.counts();
        let glance = Glance {
            numbers,
            is_full,
            version: self.reports.version(),
            began: self.began,
            oldest: self.ages.oldest(now),
            counts,
            budget: self.reports.budget(),
            roll: &self.roll,
            disk_fails: counts.file.failing.seconds(self.rt).unwrap_or(0),
            receiver_fails: counts.receiver.seconds(self.rt).unwrap_or(0),
        };
        page(self.alloc, &glance)
    }

    // Whether the numbers are to be looked at.
    fn is_due(&self, now: u64) -> bool {
        match self.next_look {
            Some(due) => due <= now,
            None => true,
        }
    }

    // Looks at the numbers, and says what is pending at the first look, whether the spool is full where that changed, and which places have
    // as many connections as they serve at once. Whether it is full.
    fn look_at(&mut self, numbers: &SpoolNumbers, now: u64) -> bool {
        let is_full = self.fullness.look(numbers, self.roll.without_room());
        self.ages.look(numbers, now);
        if self.next_look.is_none() {
            self.reports.begins(self.rt, numbers);
        }
        if is_full != self.was_full {
            self.reports.fills(self.rt, is_full);
        }
        self.was_full = is_full;
        self.roll.report_busy(self.rt);
        self.next_look = Some(now.saturating_add(LOOK_MILLIS));
        is_full
    }

    // Answers all who ask for numbers, with this page, or none where no memory was found for it, and this about the health.
    fn answer_all(
        &mut self,
        page: &Result<String, AllocError>,
        health: (&'static str, &'static str),
        now: u64,
    ) {
        let (status, line) = health;
        for asker in &mut self.askers {
            let Some(request) = asker.request() else {
                continue;
            };
            let is_head = request.is_head;
            match (request.asked, page) {
                (Asked::Metrics, Ok(body)) => {
                    let reply = Reply {
                        kind: NUMBERS,
                        ..Reply::plain("200 OK", body.as_str(), is_head)
                    };
                    asker.answer(self.alloc, reply, now)
                }
                (Asked::Metrics, Err(_)) => asker.let_go(),
                _ => asker.answer(self.alloc, Reply::plain(status, line, is_head), now),
            }
        }
    }
}

impl<R: Clock + Eprint> Monitor for TcpMonitor<'_, R> {
    ghost may_tell = { λ _. Unit {0} };

    /// Lets in those who connect, and reads what has come of their requests. Where nobody asks for numbers, it sleeps: for a twentieth of a
    /// second, or a hundredth where somebody is connected; and once a second it asks itself. Who asks for something else is answered at
    /// once. The head of a request has a second and a half to come.
    fn is_asked(&mut self) -> bool {
        let now = millis(self.rt).unwrap_or(u64::MAX);
        self.admit(now);
        self.look(now);
        if self.is_asked || self.is_due(now) {
            return true;
        }
        let wait = if self.askers.is_empty() {
            WAIT_MILLIS
        } else {
            SHORT_WAIT_MILLIS
        };
        thread::sleep(self.rt, Duration::from_millis(wait));
        false
    }

    /// Looks at the numbers, and answers all who ask for them.
    fn tell(&mut self, numbers: &SpoolNumbers) {
        let now = millis(self.rt).unwrap_or(u64::MAX);
        let is_full = self.look_at(numbers, now);
        if !self.is_asked {
            return;
        }
        self.is_asked = false;
        let disk_fails = self.reports.disk().seconds(self.rt).is_some();
        let page = self.page(numbers, is_full, now);
        self.answer_all(&page, health(disk_fails, is_full), now);
    }
}
