//! Whether FILE, or the TARGET of a move, is well, for an operator who watches standard error.
use crate::Host;
use edge_disk::DiskFault;
use edge_file::Home;
use edge_net::FileCounts;
use std::rt::Clock;
use std::time::Duration;

/// A call of the file.
#[derive(Clone, Copy, PartialEq, Eq)]
pub(crate) enum Call {
    /// A read of the bytes from this offset on.
    Read { at: u64 },
    /// A write.
    Write,
    /// A sync.
    Sync,
}

/// Whether the calls of the file succeed, as far as they show it.
#[derive(Clone, Copy, PartialEq, Eq)]
enum Health {
    /// None has failed, or one succeeded that shows that the file is well again.
    Well,
    /// A read at this offset failed, and none there has succeeded since.
    Unread { at: u64 },
    /// A write or a sync failed, and no call has succeeded since.
    Failing,
}

impl Health {
    // After a call. One that succeeds after a write or a sync that failed shows that what was written is
    // durable, since the disk makes it good first; after a read that failed only a read there shows anything.
    fn after(self, call: Call, succeeds: bool) -> Health {
        match (self, call, succeeds) {
            (_, Call::Write | Call::Sync, false) => Health::Failing,
            (Health::Well, Call::Read { at }, false) => Health::Unread { at },
            (Health::Failing, _, true) => Health::Well,
            (Health::Unread { at }, Call::Read { at: there }, true) if at == there => Health::Well,
            _ => self,
        }
    }
}

/// Who waits for FILE where a call of it fails.
#[derive(Clone, Copy, PartialEq, Eq)]
pub enum Waiting {
    /// Senders, whose events the command acknowledges once they are durable.
    Senders,
    /// Nobody: the command acknowledges nothing.
    Nobody,
}

impl Waiting {
    // What follows the line that a write or a sync of the file failed, where somebody waits.
    fn notice(self) -> &'static str {
        match self {
            Waiting::Senders => "; nothing is acknowledged until FILE is well again",
            Waiting::Nobody => "",
        }
    }
}

/// Where it goes how FILE is, beside the lines on standard error.
#[derive(Clone, Copy)]
pub struct Told<'a> {
    /// Where calls are counted, and it is noted since when they fail.
    pub file: &'a FileCounts,
}

/// What is said of a file on standard error: a line where a call of it fails, and one where it is well again. Not
/// one for each call: while it is failing nothing more is said.
#[derive(Drop)]
pub(crate) struct HealthLines<'a> {
    host: Host<'a>,
    // What the lines call the file.
    name: &'static str,
    waiting: Waiting,
    health: Health,
    // Where calls are counted, and it is noted too since when they fail.
    told: Option<Told<'a>>,
    // Where it stood as it was opened, as far as that is known.
    home: Option<Home>,
}

impl<'a> HealthLines<'a> {
    /// No call was made of the file that the lines call so.
    pub(crate) fn new(host: Host<'a>, name: &'static str, waiting: Waiting) -> HealthLines<'a> {
        HealthLines {
            host,
            name,
            waiting,
            health: Health::Well,
            told: None,
            home: None,
        }
    }

    /// The same of the file at this path, but told so.
    pub(crate) fn noting(self, told: Told<'a>, path: &str) -> HealthLines<'a> {
        HealthLines {
            told: Some(told),
            home: Home::look(self.host.rt, path).ok(),
            ..self
        }
    }

    // Whether the file is known to be at its path no more.
    fn is_left(&self) -> bool {
        match &self.home {
            Some(home) => home.is_left(),
            None => false,
        }
    }

    // Notes since when calls fail.
    fn note(&self) {
        let Some(told) = self.told else {
            return;
        };
        match self.health {
            Health::Well => told.file.failing.is_well(),
            Health::Unread { .. } | Health::Failing => told.file.failing.fails(self.host.rt),
        }
    }

    // Says a line, which names the file between these words and has the notice last. Nobody waits where a thread writes the lines.
    fn say(&self, before: &str, after: &str, notice: &str) {
        let name = self.name;
        let _ = eprintln!(self.host; "bridge: {before}{name}{after}{notice}");
    }

    /// The time, where calls are counted and there is a clock.
    pub(crate) fn time(&self) -> Option<Duration> {
        match self.told {
            Some(_) => self.host.rt.monotonic().ok(),
            None => None,
        }
    }

    /// Counts a sync that began at that time.
    pub(crate) fn synced(&self, began: Option<Duration>) {
        if let (Some(told), Some(began), Some(now)) = (self.told, began, self.time()) {
            told.file.synced(now.saturating_sub(began));
        }
    }

    /// Counts so many bytes that were written.
    pub(crate) fn wrote(&self, bytes: usize) {
        if let Some(told) = self.told {
            told.file.wrote(bytes);
        }
    }

    /// Says what a call shows, where that is new.
    pub(crate) fn saw(&mut self, call: Call, outcome: &Result<(), DiskFault>) {
        let before = self.health;
        let after = before.after(call, outcome.is_ok());
        if after == before {
            return;
        }
        self.health = after;
        self.note();
        let notice = self.waiting.notice();
        match (after, call) {
            (Health::Well, _) => self.say("", " is well again", ""),
            (Health::Failing, _) if self.is_left() => {
                self.say("", " was removed or renamed", notice)
            }
            (_, Call::Read { .. }) => self.say("a read of ", " failed", ""),
            (_, Call::Write) => self.say("a write of ", " failed", notice),
            (_, Call::Sync) => self.say("a sync of ", " failed", notice),
        }
    }
}
