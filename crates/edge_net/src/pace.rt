//! How many lines a second may have.
ghost use Rattle.std.specs.Prelude.{◌≡◌, ◌↔◌, ◌<◌, ◌≤◌, IsTrue, replicate};
ghost use Rattle.std.specs.Bool.{OnTrue};

// How many lines a second has at most.
const MOST_LINES: usize = 10;

// A second, in milliseconds.
const SECOND: u64 = 1_000;

/// When the last ten lines were printed. A line waits until the tenth one before it is a second old, so that no second has more than
/// ten, wherever it begins.
#[derive(Clone, Copy)]
pub struct Pace {
    // When each of the last ten lines is a second old, in milliseconds of the clock. 0 stands for a line that wasn't printed.
    old_at: [u64; MOST_LINES],
    // Which of them is the oldest.
    oldest: usize,
    ghost in_range: { oldest < 10 },
}

impl Pace {
    ghost use Rattle.edge_net.specs.Pace.{free_from, Took};

    /// No line was printed yet.
    pub fn new() -> Pace
        ensures { result.old_at ≡ replicate 10 0 }
    {
        Pace {
            old_at: [0; MOST_LINES],
            oldest: 0,
        }
    }

    /// Whether a line may be printed at `now`, in milliseconds of the clock, which is noted as printed then.
    pub fn take(&mut self, now: u64) -> bool
        ensures when { IsTrue result ↔ (free_from self.old ≤ now) }
        ensures took { OnTrue result (Took now self.old self.new) }
        ensures kept { (IsTrue result → ⊥) → self.new ≡ self.old }
    {
        if self.old_at[self.oldest] > now {
            return false;
        }
        self.old_at[self.oldest] = now.saturating_add(SECOND);
        self.oldest = (self.oldest + 1) % MOST_LINES;
        true
    }
}
