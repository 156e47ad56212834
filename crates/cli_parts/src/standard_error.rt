//! A standard error for which nobody has to wait.
use crate::backlog::{Backlog, Batch};
use crate::severity::{is_journal, prefix_of};
use edge_net::Stamp;
use std::alloc::{AllocError, Global};
use std::fmt::Display;
use std::io;
use std::net::{self, SocketAddr, TcpListener, TcpStream};
use std::rt::{Clock, Stderr};
use std::sync::atomic::{AtomicBool, AtomicU64, Ordering};
use std::sync::{Arc, Mutex, MutexGuard, Wait};
use std::thread::{self, Parker, Threads};
use std::time::Duration;

// How often a lock is tried that is held while a line is put or lines are taken.
const MOST_TRIES: u32 = 10_000;

// How long one look at what is left waits before the next one, in milliseconds, and how many looks there are: a second's.
const LOOK_MILLIS: u64 = 5;

const LOOKS: u32 = 200;

/// Standard error. Once it has a thread, lines are handed to that one, which writes them: whoever says a line then never waits until it is
/// written. 1,000 lines with 65,536 bytes wait at most; how many were left out is said where they would stand.
#[derive(Drop)]
pub struct StandardError {
    alloc: Global,
    stderr: Stderr,
    // It is the journal's: how grave a line is stands before it.
    is_journal: bool,
    // The clock by which a line has the time before it, where it is to have one.
    clock: Option<HostRuntime>,
    has_thread: AtomicBool,
    backlog: Mutex<Backlog>,
    // How many lines wait or are being written.
    unwritten: AtomicU64,
    // How many lines found the backlog held by others at each try.
    overlooked: AtomicU64,
    parker: Parker,
}

impl StandardError {
    /// Without a thread: each line is written by whoever says it, who waits until that is done. A line has the time before it where
    /// `has_time` says so, unless it goes to the journal, which notes the time itself.
    pub fn new(rt: &HostRuntime, has_time: bool) -> StandardError {
        let is_journal = is_journal(rt);
        StandardError {
            alloc: rt.alloc(),
            stderr: rt.stderr(),
            is_journal,
            clock: if has_time && !is_journal {
                Some(*rt)
            } else {
                None
            },
            has_thread: AtomicBool::new(false),
            backlog: Mutex::new(Backlog::new(rt.alloc())),
            unwritten: AtomicU64::new(0),
            overlooked: AtomicU64::new(0),
            parker: Parker::new(),
        }
    }

    /// Gives it a thread, which goes on as long as the program. Where the system refuses one, it goes on without.
    pub fn start<R: Threads + Wait + Copy + Send + 'static>(
        threads: &R,
        shared: &Arc<StandardError>,
    ) -> Result<(), AllocError> {
        let theirs = Arc::try_clone(shared)?;
        let waits = *threads;
        shared.has_thread.store(true, Ordering::SeqCst);
        if thread::spawn(threads, move || theirs.write_on(&waits)).is_err() {
            shared.has_thread.store(false, Ordering::SeqCst);
        }
        Ok(())
    }

    // The lines that wait, once nobody else holds them. `None`: others did at each of 10,000 tries.
    fn lock(&self) -> Option<MutexGuard<'_, Backlog>> {
        for _ in 0..MOST_TRIES {
            if let Some(held) = self.backlog.try_lock() {
                return Some(held);
            }
            thread::yield_now();
        }
        None
    }

    // The time that stands before a line, where one does.
    fn stamp(&self) -> Option<Stamp> {
        let rt = self.clock?;
        match rt.since_1970() {
            Ok(since_1970) => Some(Stamp { since_1970 }),
            Err(_) => None,
        }
    }

    // The line, with the time before it where it has one.
    fn text_of<D: Display>(&self, line: &D) -> Result<String, AllocError> {
        match self.stamp() {
            Some(stamp) => format!(in self.alloc; "{stamp} {line}"),
            None => format!(in self.alloc; "{line}"),
        }
    }

    // Hands the line to the thread.
    fn hand<D: Display + Drop>(&self, line: D) {
        let text = self.text_of(&line);
        let Some(mut backlog) = self.lock() else {
            let _ = self.overlooked.fetch_add(1, Ordering::SeqCst);
            return;
        };
        let _ = self.unwritten.fetch_add(1, Ordering::SeqCst);
        let waits = match text {
            Ok(text) => backlog.put(text),
            Err(_) => {
                backlog.leave_out();
                false
            }
        };
        drop(backlog);
        if !waits {
            let _ = self.unwritten.fetch_sub(1, Ordering::SeqCst);
        }
        self.parker.unpark();
    }

    // All that waits, with what was left out.
    fn taken(&self) -> Option<Batch> {
        let mut backlog = self.lock()?;
        let mut batch = backlog.take(self.alloc);
        drop(backlog);
        let overlooked = self.overlooked.swap(0, Ordering::SeqCst);
        batch.dropped = batch.dropped.saturating_add(overlooked);
        Some(batch)
    }

    // Writes a line.
    fn write(&self, line: &str) -> io::Result<()> {
        let prefix = if self.is_journal { prefix_of(line) } else { "" };
        eprintln!(self.stderr; "{prefix}{line}")
    }

    // Writes what was taken. An error is not reported.
    fn write_all(&self, batch: Batch) {
        for line in &batch.lines {
            let _ = self.write(line.as_str());
        }
        let dropped = batch.dropped;
        if dropped > 0 {
            let prefix = if self.is_journal { "<4>" } else { "" };
            let _ = match self.stamp() {
                Some(stamp) => {
                    eprintln!(self.stderr; "{stamp} bridge: {dropped} lines were dropped here")
                }
                None => eprintln!(self.stderr; "{prefix}bridge: {dropped} lines were dropped here"),
            };
        }
        let written = batch.lines.len() as u64;
        let _ = self.unwritten.fetch_sub(written, Ordering::SeqCst);
    }

    // Writes what is handed to the thread, as long as the program goes on.
    fn write_on<R: Wait>(&self, rt: &R) {
        for _ in rt.forever() {
            self.parker.park(rt);
            if let Some(batch) = self.taken() {
                self.write_all(batch);
            }
        }
    }

    /// Waits until each line is written, for a second at most.
    pub fn finish(&self, rt: &impl Clock) {
        for _ in 0..LOOKS {
            if self.unwritten.load(Ordering::SeqCst) == 0 {
                return;
            }
            thread::sleep(rt, Duration::from_millis(LOOK_MILLIS));
        }
    }
}

impl Eprint for StandardError {
    fn eprint<D: Display + Drop>(&self, value: D) -> io::Result<()> {
        self.stderr.eprint(value)
    }

    fn eprintln<D: Display + Drop>(&self, value: D) -> io::Result<()> {
        if self.has_thread.load(Ordering::SeqCst) {
            self.hand(value);
            return Ok(());
        }
        if !self.is_journal && self.clock.is_none() {
            return self.stderr.eprintln(value);
        }
        match self.text_of(&value) {
            Ok(line) => self.write(line.as_str()),
            Err(_) => self.stderr.eprintln(value),
        }
    }
}

/// The system, whose standard error is this one.
#[derive(Clone, Copy)]
pub struct Host<'a> {
    /// The system.
    pub rt: &'a HostRuntime,
    /// Its standard error.
    pub errors: &'a StandardError,
}

impl Clock for Host<'_> {
    fn monotonic(&self) -> io::Result<Duration> {
        self.rt.monotonic()
    }

    fn since_1970(&self) -> io::Result<Duration> {
        self.rt.since_1970()
    }

    fn sleep(&self, duration: Duration) {
        self.rt.sleep(duration)
    }
}

impl Eprint for Host<'_> {
    fn eprint<D: Display + Drop>(&self, value: D) -> io::Result<()> {
        self.errors.eprint(value)
    }

    fn eprintln<D: Display + Drop>(&self, value: D) -> io::Result<()> {
        self.errors.eprintln(value)
    }
}

impl net::Net for Host<'_> {
    type Stream = TcpStream;

    type Listener = TcpListener;

    fn bind(&self, addr: SocketAddr) -> io::Result<TcpListener> {
        net::Net::bind(self.rt, addr)
    }

    fn connect(&self, addr: SocketAddr) -> io::Result<TcpStream> {
        net::Net::connect(self.rt, addr)
    }

    fn connect_timeout(&self, addr: SocketAddr, timeout: Duration) -> io::Result<TcpStream> {
        net::Net::connect_timeout(self.rt, addr, timeout)
    }

    fn lookup_host(&self, host: &str, port: u16, found: &mut [SocketAddr]) -> io::Result<usize> {
        self.rt.lookup_host(host, port, found)
    }
}

// The host is shared by the threads of a server: the impl below owes the proof.
trait Shareable: Sync {}

impl Shareable for Host<'_> {}
