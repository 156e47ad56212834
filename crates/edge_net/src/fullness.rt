//! Whether a spool is full.
ghost use Rattle.std.specs.Prelude.{◌≡◌, ◌↔◌, IsTrue};
ghost use Rattle.edge_net.specs.Fullness.{IsRefused};

use edge_io::SpoolNumbers;

/// What is kept in mind of the events for which a spool had no room.
#[derive(Clone, Copy)]
pub struct Fullness {
    // How many there were when it was looked at last, and how many entries were stored.
    refusals: u64,
    end: u64,
    // The last event that came had no room, as far as a look shows it.
    is_refused: bool,
}

impl Fullness {
    /// No event came.
    pub fn new() -> Fullness
        ensures { IsTrue result.is_refused → ⊥ }
    {
        Fullness {
            refusals: 0,
            end: 0,
            is_refused: false,
        }
    }

    /// Whether the spool is full by its numbers, after there was no room for `refusals` events: no slot is free, and since the last
    /// look an event had no room, or one had none before and nothing was stored since.
    pub fn look(&mut self, numbers: &SpoolNumbers, refusals: u64) -> bool
        ensures full { IsTrue result ↔ ((numbers.now.free_slots ≡ 0) × IsTrue self.new.is_refused) }
        ensures refused { IsTrue self.new.is_refused ↔ IsRefused refusals numbers.now.end self.old }
        ensures noted { (self.new.refusals ≡ refusals) × (self.new.end ≡ numbers.now.end) }
    {
        let is_stored = numbers.end != self.end;
        self.is_refused = refusals > self.refusals || self.is_refused && !is_stored;
        self.refusals = refusals;
        self.end = numbers.end;
        numbers.free_slots == 0 && self.is_refused
    }
}
