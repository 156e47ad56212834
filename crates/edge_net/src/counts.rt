//! What a net counts, for those who ask for numbers.
use crate::ending::is_full;
use crate::{Answer, FileCounts, Since};
use edge_io::{HeldUp, Proto};
use event_form::Talk;
use std::alloc::{AllocError, Global};
use std::sync::OnceLock;
use std::sync::atomic::{AtomicU64, Ordering};

// How many statuses an ending may have.
const STATUSES: usize = 256;

/// How often something came, which threads count together.
#[derive(Drop)]
pub(crate) struct Count {
    times: AtomicU64,
}

impl Count {
    /// It never came.
    pub(crate) fn new() -> Count {
        Count {
            times: AtomicU64::new(0),
        }
    }

    /// That it came once more.
    pub(crate) fn add(&self) {
        let _ = self.times.fetch_add(1, Ordering::SeqCst);
    }

    /// That it came so many times more.
    pub(crate) fn add_many(&self, times: u64) {
        let _ = self.times.fetch_add(times, Ordering::SeqCst);
    }

    /// How often it came.
    pub(crate) fn get(&self) -> u64 {
        self.times.load(Ordering::SeqCst)
    }
}

/// The connections that came in at a place.
#[derive(Drop)]
pub(crate) struct Connections {
    accepted: Count,
    // By which protocol they speak, once one has ended.
    proto: OnceLock<Proto>,
    // How many have ended, by the status of their ending.
    ended: Vec<Count>,
    // How many have ended since FILE had no room for an event.
    without_room: Count,
}

impl Connections {
    /// None came.
    pub(crate) fn none(alloc: Global) -> Result<Connections, AllocError> {
        let mut ended = Vec::with_capacity(alloc, STATUSES)?;
        for _ in 0..STATUSES {
            ended.push(Count::new())?;
        }
        Ok(Connections {
            accepted: Count::new(),
            proto: OnceLock::new(),
            ended,
            without_room: Count::new(),
        })
    }

    /// That one was accepted.
    pub(crate) fn begin(&self) {
        self.accepted.add();
    }

    /// That one has ended, by this protocol, with this status and so.
    pub(crate) fn end(&self, proto: Proto, status: u8, talk: Talk) {
        if is_full(talk) {
            self.without_room.add();
        }
        let _ = self.proto.try_set(proto);
        if let Some(count) = self.ended.get(usize::from(status)) {
            count.add();
        }
    }

    /// How many were accepted.
    pub(crate) fn accepted(&self) -> u64 {
        self.accepted.get()
    }

    /// How many of them have not ended.
    pub(crate) fn open(&self) -> u64 {
        let mut ended = 0u64;
        for count in &self.ended {
            ended = ended.saturating_add(count.get());
        }
        self.accepted().saturating_sub(ended)
    }

    /// By which protocol they speak, once one has ended.
    pub(crate) fn proto(&self) -> Option<Proto> {
        self.proto.get().copied()
    }

    /// How many have ended, by the status of their ending.
    pub(crate) fn ended(&self) -> &[Count] {
        &self.ended
    }

    /// How many have ended since FILE had no room for an event: not those whose event was larger than a slot, nor those for which the table
    /// of ack ids was full.
    pub(crate) fn without_room(&self) -> u64 {
        self.without_room.get()
    }
}

/// By which protocol senders are refused and with which code, as a label has it: the rows of [`Refusals`].
pub(crate) const REFUSED: [(&str, &str); 9] = [
    ("hec", "400"),
    ("hec", "401"),
    ("hec", "403"),
    ("hec", "404"),
    ("hec", "405"),
    ("hec", "500"),
    ("hec", "503"),
    ("hec", "other"),
    ("relp", "500"),
];

// The row of an answer that refuses something.
fn row_of(answer: Answer) -> usize {
    match answer {
        Answer::Reply { code: 400 } => 0,
        Answer::Reply { code: 401 } => 1,
        Answer::Reply { code: 403 } => 2,
        Answer::Reply { code: 404 } => 3,
        Answer::Reply { code: 405 } => 4,
        Answer::Reply { code: 500 } => 5,
        Answer::Reply { code: 503 } => 6,
        Answer::Reply { .. } => 7,
        Answer::Frame { .. } => 8,
    }
}

/// How often requests and frames of senders were refused, by protocol and code.
#[derive(Drop)]
pub(crate) struct Refusals {
    rows: [Count; 9],
}

impl Refusals {
    /// None was.
    pub(crate) fn none() -> Refusals {
        Refusals {
            rows: [
                Count::new(),
                Count::new(),
                Count::new(),
                Count::new(),
                Count::new(),
                Count::new(),
                Count::new(),
                Count::new(),
                Count::new(),
            ],
        }
    }

    /// That one more was refused by this answer.
    pub(crate) fn add(&self, answer: Answer) {
        if let Some(count) = self.rows.get(row_of(answer)) {
            count.add();
        }
    }

    /// How many were, in the order of [`REFUSED`].
    pub(crate) fn rows(&self) -> &[Count] {
        &self.rows
    }
}

/// Which entry holds the forwarding up, as the sessions show it that failed.
#[derive(Drop)]
pub(crate) struct Obstacle {
    // The number of the entry at which the last one failed, and one more; 0: none failed.
    failed_at: AtomicU64,
    // The same of the last one that the receiver refused, or at which two failed one after another.
    entry: AtomicU64,
}

impl Obstacle {
    /// No session failed.
    pub(crate) fn none() -> Obstacle {
        Obstacle {
            failed_at: AtomicU64::new(0),
            entry: AtomicU64::new(0),
        }
    }

    /// That a session failed at this entry.
    pub(crate) fn note(&self, held_up: &HeldUp) {
        let mark = held_up.number.saturating_add(1);
        let before = self.failed_at.swap(mark, Ordering::SeqCst);
        if held_up.code.is_some() || before == mark {
            self.entry.store(mark, Ordering::SeqCst);
        }
    }

    /// The number of the entry that holds the forwarding up, where all below `cursor` are confirmed, and none above it is held up.
    pub(crate) fn entry(&self, cursor: u64) -> Option<u64> {
        let number = self.entry.load(Ordering::SeqCst).checked_sub(1)?;
        if number < cursor { None } else { Some(number) }
    }
}

/// What is counted of the senders, of the receiver and of FILE, and since when the receiver fails.
#[derive(Drop)]
pub(crate) struct Counts {
    /// The requests and frames of senders that were refused.
    pub(crate) refusals: Refusals,
    /// The bytes that senders sent.
    pub(crate) received: Count,
    /// The bytes that were written to the receiver.
    pub(crate) sent: Count,
    /// The sessions with the receiver.
    pub(crate) sessions: Count,
    /// The dials of the receiver that failed.
    pub(crate) unreached: Count,
    /// The sessions in which the receiver refused what was sent.
    pub(crate) receiver_refusals: Count,
    /// Since when the receiver fails.
    pub(crate) receiver: Since,
    /// Which entry it holds up.
    pub(crate) obstacle: Obstacle,
    /// The calls of FILE.
    pub(crate) file: FileCounts,
}

impl Counts {
    /// Nothing came.
    pub(crate) fn new() -> Counts {
        Counts {
            refusals: Refusals::none(),
            received: Count::new(),
            sent: Count::new(),
            sessions: Count::new(),
            unreached: Count::new(),
            receiver_refusals: Count::new(),
            receiver: Since::new(),
            obstacle: Obstacle::none(),
            file: FileCounts::new(),
        }
    }
}
