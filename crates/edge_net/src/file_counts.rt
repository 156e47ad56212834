//! What is counted of the calls of FILE.
use crate::Since;
use crate::counts::Count;
use std::time::Duration;

/// How many microseconds a sync takes at most that counts in each row, and the same in seconds, as a label has it. Longer ones count in a
/// row after these.
pub(crate) const STEPS: [(u64, &str); 10] = [
    (500, "0.0005"),
    (1_000, "0.001"),
    (2_500, "0.0025"),
    (5_000, "0.005"),
    (10_000, "0.01"),
    (50_000, "0.05"),
    (100_000, "0.1"),
    (500_000, "0.5"),
    (1_000_000, "1"),
    (5_000_000, "5"),
];

// The row of a sync that took so many microseconds.
fn row_of(micros: u64) -> usize {
    let mut row = 0usize;
    for (most, _) in &STEPS {
        if micros <= *most {
            break;
        }
        row = row.saturating_add(1);
    }
    row
}

/// What is counted of the calls of FILE, which whoever makes them notes.
#[derive(Drop)]
pub struct FileCounts {
    /// Since when they fail.
    pub failing: Since,
    // How many bytes were written.
    written: Count,
    // How many syncs took as long as each row has it, and how many longer.
    syncs: [Count; 11],
    // How many microseconds all of them took.
    micros: Count,
}

impl FileCounts {
    /// None was made.
    pub fn new() -> FileCounts {
        FileCounts {
            failing: Since::new(),
            written: Count::new(),
            syncs: [
                Count::new(),
                Count::new(),
                Count::new(),
                Count::new(),
                Count::new(),
                Count::new(),
                Count::new(),
                Count::new(),
                Count::new(),
                Count::new(),
                Count::new(),
            ],
            micros: Count::new(),
        }
    }

    /// That so many bytes were written.
    pub fn wrote(&self, bytes: usize) {
        self.written.add_many(bytes as u64);
    }

    /// That a sync took so long, however it ended.
    pub fn synced(&self, took: Duration) {
        let micros = u64::try_from(took.as_micros()).unwrap_or(u64::MAX);
        self.micros.add_many(micros);
        if let Some(count) = self.syncs.get(row_of(micros)) {
            count.add();
        }
    }

    /// How many bytes were written.
    pub(crate) fn written(&self) -> u64 {
        self.written.get()
    }

    /// How many syncs took as long as each row has it, and at last how many longer.
    pub(crate) fn syncs(&self) -> &[Count] {
        &self.syncs
    }

    /// How many microseconds all syncs took.
    pub(crate) fn micros(&self) -> u64 {
        self.micros.get()
    }
}
