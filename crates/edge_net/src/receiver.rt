//! How the receiver is, as its sessions show it.
ghost use Rattle.std.specs.Prelude.{◌≡◌, ◌↔◌, Some, None, IsSome, IfSome, IfNone};

use crate::Illness;

// How long nothing more is said of failures after a line about one, in milliseconds.
const MINUTE: u64 = 60_000;

/// What was said of the receiver, and how often it failed since.
#[derive(Clone, Copy)]
pub struct Receiver {
    /// How it failed, by the last line; `None`: there was none, or the last one says that it is well.
    said: Option<Illness>,
    /// From when on another failure may be said, in milliseconds of the clock.
    quiet_until: u64,
    /// How often it failed since the last line about it.
    unsaid: u64,
}

impl Receiver {
    ghost use Rattle.edge_net.specs.Pace.{later};
    ghost use Rattle.edge_net.specs.Receiver.{IsNews, failed};

    /// Nothing was said of it.
    pub fn new() -> Receiver
        ensures { result ≡ record { said = None; quiet_until = 0; unsaid = 0 } }
    {
        Receiver {
            said: None,
            quiet_until: 0,
            unsaid: 0,
        }
    }

    /// That it failed in this way at `now`, in milliseconds of the clock: how often it failed since the last line about it, if a line
    /// is to be printed. One is where the last line says something else, and no failure was said in the last minute.
    pub fn fails(&mut self, illness: Illness, now: u64) -> Option<u64>
        ensures said { IfSome result (λ count. IsNews illness now self.old × (count ≡ failed self.old)
            × (self.new ≡ record { said = Some illness; quiet_until = later now 60000; unsaid = 0 })) }
        ensures unsaid { IfNone result ((IsNews illness now self.old → ⊥) × (self.new ≡ record self.old { unsaid = failed self.old })) }
    {
        let count = self.unsaid.saturating_add(1);
        if self.said == Some(illness) || now < self.quiet_until {
            self.unsaid = count;
            return None;
        }
        *self = Receiver {
            said: Some(illness),
            quiet_until: now.saturating_add(MINUTE),
            unsaid: 0,
        };
        Some(count)
    }

    /// That it is well: how often it failed since the last line about it, if a line is to be printed. One is where the last line says
    /// that it fails. Else what is unsaid stays so.
    pub fn is_well(&mut self) -> Option<u64>
        ensures when { IsSome result ↔ IsSome self.old.said }
        ensures said { IfSome result (λ count. (count ≡ self.old.unsaid) × (self.new ≡ record self.old { said = None; unsaid = 0 })) }
        ensures kept { IfNone result (self.new ≡ self.old) }
    {
        if self.said.is_none() {
            return None;
        }
        let count = self.unsaid;
        self.said = None;
        self.unsaid = 0;
        Some(count)
    }
}
