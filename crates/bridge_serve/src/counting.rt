//! The numbers of a spool, and what was done between two moments, in numbers.
ghost use Rattle.std.specs.Prelude.{◌≡◌, ◌+◌, ◌-◌, ◌^◌, ◌≤◌};
ghost use Rattle.spool_log.specs.Memory.{end_of};
ghost use Rattle.bridge_parts.specs.Pending.{pending_in};

use bridge_parts::pending_count;
use edge_disk::Disk;
use spool_log::Spool;

/// Two numbers of a spool. Those of two moments give what was taken and confirmed in between.
#[derive(Clone, Copy, PartialEq, Eq)]
pub(crate) struct Numbers {
    /// The number that the next entry gets. The first entry has 0.
    pub(crate) end: u64,
    /// How many entries aren't known as confirmed.
    pub(crate) left: u64,
    ghost few: { left ≤ end },
    ghost limit: { end ≤ 2 ^ 63 },
}

impl Numbers {
    /// The numbers of the spool. While it is in doubt, they are those before the call that failed.
    pub(crate) fn of<D: Disk>(spool: &Spool<D>) -> Numbers
        ensures end { result.end ≡ end_of spool.now.memory }
        ensures left { result.left ≡ pending_in spool.now.memory }
    {
        Numbers {
            end: spool.end(),
            left: pending_count(spool),
        }
    }

    /// How many entries were taken between these numbers and the later ones.
    pub(crate) fn taken(&self, now: &Numbers) -> u64
        ensures { result ≡ now.now.end - self.now.end }
    {
        now.end.saturating_sub(self.end)
    }

    /// How many entries became known as confirmed between these numbers and the later ones: of those that were left or were taken
    /// since, so many aren't left now.
    pub(crate) fn confirmed(&self, now: &Numbers) -> u64
        ensures { result ≡ self.now.left + (now.now.end - self.now.end) - now.now.left }
    {
        let had = self.left + self.taken(now);
        had.saturating_sub(now.left)
    }
}
