//! At which entry the sessions with the receiver fail, and what was said of it.
ghost use Rattle.std.specs.Prelude.{◌≡◌, ◌↔◌, Some, None, IsTrue};
ghost use Rattle.std.specs.Bool.{OnTrue};

// How long nothing more is said of an entry after a line about it, in milliseconds.
const MINUTE: u64 = 60_000;

// How long nothing is said of another one after that line.
const TEN_SECONDS: u64 = 10_000;

/// At which entry the last session failed, and which entry the last line is about.
#[derive(Clone, Copy)]
pub struct Standstill {
    /// The number of the entry that was pending first when the last session failed, once one failed.
    failed_at: Option<u64>,
    /// The number of the entry that the last line is about, once there was one.
    said: Option<u64>,
    /// From when on another line about that entry may be printed, in milliseconds of the clock.
    quiet_until: u64,
    /// From when on a line about another entry may be.
    others_quiet_until: u64,
}

impl Standstill {
    ghost use Rattle.edge_net.specs.Pace.{later};
    ghost use Rattle.edge_net.specs.Standstill.{IsStuck, IsFree};

    /// No session failed.
    pub fn new() -> Standstill
        ensures { result ≡ record { failed_at = None; said = None; quiet_until = 0; others_quiet_until = 0 } }
    {
        Standstill {
            failed_at: None,
            said: None,
            quiet_until: 0,
            others_quiet_until: 0,
        }
    }

    // Whether the entry is more than one at which a session was lost.
    fn is_stuck(&self, number: u64, is_refused: bool) -> bool
        ensures { IsTrue result ↔ IsStuck number is_refused self.now }
    {
        is_refused || self.failed_at == Some(number)
    }

    // Whether a line about the entry may be printed.
    fn is_free(&self, number: u64, now: u64) -> bool
        ensures { IsTrue result ↔ IsFree number now self.now }
    {
        now >= self.quiet_until || (self.said != Some(number) && now >= self.others_quiet_until)
    }

    /// That a session failed at `now`, in milliseconds of the clock, while the entry of this number was pending first, which the receiver
    /// refused or didn't: whether a line about it is to be printed. One is where the receiver refused it, or the session before failed
    /// at it too; but none comes within a minute after a line about the same entry, nor within ten seconds after one about another.
    pub fn fails(&mut self, number: u64, is_refused: bool, now: u64) -> bool
        ensures when { IsTrue result ↔ (IsStuck number is_refused self.old × IsFree number now self.old) }
        ensures said { OnTrue result (self.new ≡ record {
          failed_at = Some number;
          said = Some number;
          quiet_until = later now 60000;
          others_quiet_until = later now 10000;
        }) }
        ensures kept { (IsTrue result → ⊥) → self.new ≡ record self.old { failed_at = Some number } }
    {
        let is_due = self.is_stuck(number, is_refused) && self.is_free(number, now);
        self.failed_at = Some(number);
        if is_due {
            self.said = Some(number);
            self.quiet_until = now.saturating_add(MINUTE);
            self.others_quiet_until = now.saturating_add(TEN_SECONDS);
        }
        is_due
    }
}
