//! What time it is, and since when something fails.
use std::io;
use std::rt::Clock;
use std::sync::atomic::{AtomicU64, Ordering};

// How many milliseconds a second has.
const SECOND: u64 = 1_000;

/// The time, in milliseconds of the clock.
pub(crate) fn millis(rt: &impl Clock) -> io::Result<u64> {
    let now = rt.monotonic()?.as_millis();
    Ok(u64::try_from(now).unwrap_or(u64::MAX))
}

/// When it is, in seconds since 1970; 0 without a clock.
pub(crate) fn seconds_now(rt: &impl Clock) -> u64 {
    match rt.since_1970() {
        Ok(since) => since.as_secs(),
        Err(_) => 0,
    }
}

/// Since when something fails, which threads note and ask for.
#[derive(Drop)]
pub struct Since {
    // When it failed first since it was well, in milliseconds of the clock and one more; 0 while it is well.
    first: AtomicU64,
}

impl Since {
    /// It is well.
    pub fn new() -> Since {
        Since {
            first: AtomicU64::new(0),
        }
    }

    /// That it fails, at the time of the clock. A failure that comes while it fails changes nothing.
    pub fn fails(&self, rt: &impl Clock) {
        let now = millis(rt).unwrap_or(0).saturating_add(1);
        let _ = self
            .first
            .compare_exchange(0, now, Ordering::SeqCst, Ordering::SeqCst);
    }

    /// That it is well.
    pub fn is_well(&self) {
        self.first.store(0, Ordering::SeqCst);
    }

    /// For how many whole seconds it has failed; `None` while it is well. Without a clock they are 0.
    pub fn seconds(&self, rt: &impl Clock) -> Option<u64> {
        let first = self.first.load(Ordering::SeqCst);
        if first == 0 {
            return None;
        }
        let now = millis(rt).unwrap_or(0).saturating_add(1);
        Some(now.saturating_sub(first) / SECOND)
    }
}
