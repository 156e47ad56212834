//! The memory that the connections of senders take, which has a bound.
ghost use Rattle.std.specs.Prelude.{◌≡◌, max};
ghost use Rattle.edge_net.specs.Budget.{part_of, most_of};

use crate::accepting::is_due;
use std::rt::Clock;
use std::sync::atomic::{AtomicU64, Ordering};
use std::thread;
use std::time::Duration;

/// The least bound: with it each protocol's largest request has room.
pub const LEAST_MEMORY: u64 = 16_777_216;

/// The bound where none is given.
pub const STANDARD_MEMORY: u64 = 268_435_456;

// What each connection takes, of which little is read at a time.
const LEAST_CLAIM: u64 = 16_384;

// What it takes beside that at most while a short read is served.
const MOST_FEW: u64 = 262_144;

// How long a connection waits for memory before it looks again, in milliseconds: at first, and at most. Each time it waits twice as long.
const FIRST_WAIT_MILLIS: u64 = 1;

const MOST_WAIT_MILLIS: u64 = 50;

/// What memory a connection takes beside that which each takes.
#[derive(Clone, Copy, PartialEq, Eq)]
pub enum Part {
    /// None.
    Nothing,
    /// As little as the bytes of a short read need, until they are served.
    Few(u64),
    /// What a request, a batch or a frame needs that is longer than a short read, also while the rest of it is to come.
    Many(u64),
}

/// The part for a connection that takes so many bytes.
pub fn part_of(claimed: u64) -> Part
    ensures { result ≡ part_of claimed }
{
    let more = claimed.saturating_sub(LEAST_CLAIM);
    if more == 0 {
        Part::Nothing
    } else if more <= MOST_FEW {
        Part::Few(more)
    } else {
        Part::Many(more)
    }
}

/// How many bytes the parts of one kind may take together: of the bound's eighths two for what each connection takes, one for what a short
/// read needs, and five for what is longer.
pub fn most_of(bound: u64, part: Part) -> u64
    ensures { result ≡ most_of bound part }
{
    let eighth = bound / 8;
    match part {
        Part::Nothing => 2 * eighth,
        Part::Few(_) => eighth,
        Part::Many(_) => 5 * eighth,
    }
}

/// The memory that the connections of senders take, and its bound. They share it.
///
/// A connection that takes more than there is waits for it, before anything is done for the bytes for which it needs that. What each takes,
/// what short reads need and what is longer have a share of the bound each, so that senders of long requests which stop in their midst keep
/// none from being served whose requests are short. What is needed for a long one is taken at once, so that no two wait for each other.
#[derive(Drop)]
pub struct Budget {
    bound: u64,
    each: AtomicU64,
    few: AtomicU64,
    many: AtomicU64,
    // How many connections wait for memory.
    waiting: AtomicU64,
    // When a line about it was printed last.
    reported: AtomicU64,
}

// Adds to what is taken, where it is no more than `most` then, or nothing was taken; and answers whether it did.
fn add_within(taken: &AtomicU64, bytes: u64, most: u64) -> bool {
    let before = taken.fetch_add(bytes, Ordering::SeqCst);
    if before == 0 || before.saturating_add(bytes) <= most {
        return true;
    }
    let _ = taken.fetch_sub(bytes, Ordering::SeqCst);
    false
}

impl Budget {
    /// Nothing is taken of that many bytes, or of the least bound where they are fewer.
    pub(crate) fn new(bound: u64) -> Budget
        ensures { result.bound ≡ max bound 16_777_216 }
    {
        Budget {
            bound: bound.max(LEAST_MEMORY),
            each: AtomicU64::new(0),
            few: AtomicU64::new(0),
            many: AtomicU64::new(0),
            waiting: AtomicU64::new(0),
            reported: AtomicU64::new(0),
        }
    }

    /// How many bytes are taken, how many may be, and how many connections wait for some.
    pub(crate) fn values(&self) -> [u64; 3] {
        let each = self.each.load(Ordering::SeqCst);
        let few = self.few.load(Ordering::SeqCst);
        let many = self.many.load(Ordering::SeqCst);
        [
            each.saturating_add(few).saturating_add(many),
            self.bound,
            self.waiting.load(Ordering::SeqCst),
        ]
    }

    /// Whether a connection waits for memory.
    pub(crate) fn is_wanted(&self) -> bool {
        self.waiting.load(Ordering::SeqCst) > 0
    }

    // What the parts of that kind take, and how many bytes this one has.
    fn taken(&self, part: Part) -> (&AtomicU64, u64) {
        match part {
            Part::Nothing => (&self.each, LEAST_CLAIM),
            Part::Few(bytes) => (&self.few, bytes),
            Part::Many(bytes) => (&self.many, bytes),
        }
    }

    // Takes the part if there is room for it now.
    fn try_take(&self, part: Part) -> bool {
        let (taken, bytes) = self.taken(part);
        add_within(taken, bytes, most_of(self.bound, part))
    }

    // Says that connections wait, once a minute at most.
    fn report(&self, rt: &(impl Clock + Eprint), is_quiet: bool) {
        if !is_quiet && is_due(rt, &self.reported) {
            let bound = self.bound;
            let _ = eprintln!(rt;
                "bridge: senders wait for memory: --memory {bound} leaves no more for now"
            );
        }
    }

    // Takes the part, for which it waits until there is room.
    fn take(&self, rt: &(impl Clock + Eprint), part: Part, is_quiet: bool) {
        if self.try_take(part) {
            return;
        }
        let _ = self.waiting.fetch_add(1, Ordering::SeqCst);
        self.report(rt, is_quiet);
        let mut wait = FIRST_WAIT_MILLIS;
        for _ in 0..u64::MAX {
            thread::sleep(rt, Duration::from_millis(wait));
            if self.try_take(part) {
                break;
            }
            wait = wait.saturating_mul(2).min(MOST_WAIT_MILLIS);
        }
        let _ = self.waiting.fetch_sub(1, Ordering::SeqCst);
    }

    // Gives the part back.
    fn free(&self, part: Part) {
        let (taken, bytes) = self.taken(part);
        let _ = taken.fetch_sub(bytes, Ordering::SeqCst);
    }

    /// Takes what each connection takes, and waits until there is room for it.
    pub(crate) fn admit(&self, rt: &(impl Clock + Eprint), is_quiet: bool) {
        self.take(rt, Part::Nothing, is_quiet);
    }

    /// Gives back what a connection took that has ended.
    pub(crate) fn dismiss(&self, part: Part) {
        self.change(part);
        self.free(Part::Nothing);
    }

    // Gives back a part that is not nothing.
    fn change(&self, old: Part) {
        if old != Part::Nothing {
            self.free(old);
        }
    }

    /// Takes the second part in place of the first one, and waits until there is room for it.
    pub(crate) fn exchange(
        &self,
        rt: &(impl Clock + Eprint),
        old: Part,
        new: Part,
        is_quiet: bool,
    ) {
        if new == old {
            return;
        }
        self.change(old);
        if new != Part::Nothing {
            self.take(rt, new, is_quiet);
        }
    }
}
