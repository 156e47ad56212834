//! Which calls of a memory form fail.
ghost use Rattle.std.specs.Prelude.{◌↔◌, Contains, IsTrue};

/// The numbers of the calls that fail, and how many calls there were. The calls are numbered from 0.
/// The count is wider than the numbers that a list can have: it is right at each of these, and every
/// call beyond them passes.
#[derive(Drop)]
pub struct Script {
    failing: Vec<u64>,
    calls: u128,
}

// Whether the list has this number.
fn lists(failing: &[u64], call: u128) -> bool
    ensures { IsTrue result ↔ Contains failing.now call }
{
    failing.iter().any(|&number| u128::from(number) == call)
}

impl Script {
    ghost use Rattle.std.specs.Prelude.{◌≡◌};
    ghost use Rattle.edge_io.specs.Script.{call_number, failing_numbers, IsFailing, Advances};

    /// A script of which no call was made.
    pub fn of(failing: Vec<u64>) -> Script
        ensures list { failing_numbers result ≡ failing.items }
        ensures first { call_number result ≡ 0 }
    {
        Script { failing, calls: 0 }
    }

    /// Counts a call, and says whether it is to fail.
    pub fn next_fails(&mut self) -> bool
        ensures fails { IsTrue result ↔ IsFailing self.old }
        ensures advances { Advances self.old self.new }
    {
        let fails = lists(&self.failing, self.calls);
        self.calls = self.calls.saturating_add(1);
        fails
    }
}
