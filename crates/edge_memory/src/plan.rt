//! Which calls of a disk in memory fail.
ghost use Rattle.std.specs.Prelude.{◌≡◌};
ghost use Rattle.edge_memory.specs.CallPlan.{next_fails, after_call};

use std::marker::Model;

/// The calls whose number is listed fail, and each from the stop on.
#[derive(Drop)]
pub(crate) struct Plan {
    failing: Vec<u64>,
    stop: Option<u64>,
    calls: u64,
}

impl Model for Plan {
    ghost use Rattle.edge_memory.specs.CallPlan.{CallPlan};

    ghost Value = { CallPlan };

    ghost view = { λ p. record { failing = p.failing.items; stop = p.stop; calls = p.calls } };
}

impl Plan {
    pub(crate) fn new(failing: Vec<u64>, stop: Option<u64>) -> Plan
        ensures { result ≡ record { failing = failing.items; stop = stop; calls = 0 } }
    {
        Plan {
            failing,
            stop,
            calls: 0,
        }
    }

    /// Counts one more call, and says whether it fails.
    pub(crate) fn call_fails(&mut self) -> bool
        ensures fails { result ≡ next_fails self.old }
        ensures counted { self.new ≡ after_call self.old }
    {
        let number = self.calls;
        self.calls = number.saturating_add(1);
        self.stop.is_some_and(|stop| number >= stop) || self.failing.contains(&number)
    }
}
