//! How far a command is, for a user who waits, and FILE as it is watched meanwhile.
ghost use Rattle.std.specs.Prelude.{◌≡◌, None, false};

use crate::Host;
use crate::health::{Call, HealthLines, Told, Waiting};
use crate::tally::Tally;
use edge_disk::{Disk, DiskFault};
use std::time::Instant;

// When a command begins that is to be shown, where the clock can be read.
fn began(rt: &HostRuntime, is_shown: bool) -> Option<Instant>
    ensures { is_shown ≡ false → result ≡ None }
{
    if !is_shown {
        return None;
    }
    Instant::now(rt).ok()
}

/// How far a command is: a line on standard error, once a second at most.
#[derive(Drop)]
pub struct Progress<'a> {
    host: Host<'a>,
    // When the command began. Nothing is shown where there is none.
    began: Option<Instant>,
    // How many whole seconds had passed at the last line.
    shown: u64,
    // How much of FILE was read. Nothing is counted where nothing is shown, or no memory was found.
    tally: Option<Tally>,
}

impl<'a> Progress<'a> {
    /// A command that begins, and has read nothing. It is shown where it is to be, and the clock can be read.
    pub fn new(host: Host<'a>, is_shown: bool) -> Progress<'a>
        ensures hidden { is_shown ≡ false → result.began ≡ None }
        ensures unread { result.tally ≡ None }
        ensures unshown { result.shown ≡ 0 }
    {
        Progress {
            host,
            began: began(host.rt, is_shown),
            shown: 0,
            tally: None,
        }
    }

    // FILE has this length in bytes.
    fn begin(&mut self, len: u64) {
        if self.began.is_some() {
            self.tally = Tally::new(self.host.rt.alloc(), len).ok();
        }
    }

    // Counts bytes of FILE that were read, and says how many MiB of it were where a second has passed. What is read again counts once.
    fn count(&mut self, at: u64, bytes: usize) {
        let Some(tally) = &mut self.tally else {
            return;
        };
        tally.note(at, at.saturating_add(bytes as u64));
        let read = tally.read();
        let all = tally.parts();
        let Some(began) = self.began else {
            return;
        };
        let Ok(passed) = began.elapsed(self.host.rt) else {
            return;
        };
        let seconds = passed.as_secs();
        if seconds > self.shown {
            self.shown = seconds;
            let _ = eprintln!(self.host; "bridge: {read} of {all} MiB of FILE read in {seconds} s");
        }
    }
}

/// A disk, how far its reading is, and whether its calls succeed: standard error says so once where one fails, and
/// once where the disk is well again. All else is as the disk has it.
#[derive(Drop)]
pub struct Watched<'a, D> {
    disk: D,
    progress: Progress<'a>,
    health: HealthLines<'a>,
    // Whether a read of it was asked for.
    is_read: bool,
}

impl<'a, D: Disk> Watched<'a, D> {
    /// The disk, with the progress of the command that reads it, what lines about its health call it, and who waits for it.
    pub fn new(
        disk: D,
        progress: Progress<'a>,
        name: &'static str,
        waiting: Waiting,
    ) -> Watched<'a, D>
        ensures { result.disk ≡ disk }
    {
        let health = HealthLines::new(progress.host, name, waiting);
        let mut progress = progress;
        progress.begin(disk.len());
        Watched {
            disk,
            progress,
            health,
            is_read: false,
        }
    }

    /// The same of the file at this path, but how the disk is goes there too.
    pub fn noting(self, told: Told<'a>, path: &str) -> Watched<'a, D>
        ensures { result.disk ≡ self.entry.disk }
    {
        Watched {
            health: self.health.noting(told, path),
            ..self
        }
    }

    /// Whether a read of the disk was asked for.
    pub fn is_read(&self) -> bool
        ensures { result ≡ self.now.is_read }
    {
        self.is_read
    }

    /// The disk, which is watched no more.
    pub fn into_disk(self) -> D
        ensures { result ≡ self.entry.disk }
    {
        self.disk
    }
}

impl<D: Disk> Disk for Watched<'_, D> {
    ghost tells = { D.tells };

    ghost tells_images = { λ w. D.tells_images w.disk };

    ghost moment = { λ w. D.moment w.disk };

    ghost may_release = { D.may_release };

    ghost may_tear = { λ w at n. D.may_tear w.disk at n };

    ghost reads_too = { λ w images. D.reads_too w.disk images };

    ghost fits = { λ w. D.fits w.disk };

    ghost lawful = { λ w tells. D.lawful w.disk tells };

    ghost stands_in = { λ w t c tells. D.stands_in w.disk t c tells };

    fn len(&self) -> u64 {
        self.disk.len()
    }

    fn read_at(&mut self, at: u64, buf: &mut [u8]) -> Result<(), DiskFault> {
        self.is_read = true;
        let bytes = buf.len();
        let outcome = self.disk.read_at(at, buf);
        if outcome.is_ok() {
            self.progress.count(at, bytes);
        }
        self.health.saw(Call::Read { at }, &outcome);
        outcome
    }

    fn write_at(&mut self, at: u64, piece: &[u8]) -> Result<(), DiskFault> {
        let outcome = self.disk.write_at(at, piece);
        if outcome.is_ok() {
            self.health.wrote(piece.len());
        }
        self.health.saw(Call::Write, &outcome);
        outcome
    }

    fn sync(&mut self) -> Result<(), DiskFault> {
        let began = self.health.time();
        let outcome = self.disk.sync();
        self.health.synced(began);
        self.health.saw(Call::Sync, &outcome);
        outcome
    }
}
