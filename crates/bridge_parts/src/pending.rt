//! How many entries are pending.
ghost use Rattle.std.specs.Prelude.{◌≡◌};
ghost use Rattle.bridge_parts.specs.Pending.{pending_in};

use edge_disk::Disk;
use spool_log::Spool;

/// How many entries are pending: those whose numbers aren't known as confirmed. While the spool is in doubt, it is the number before
/// the call that failed.
pub fn pending_count<D: Disk>(spool: &Spool<D>) -> u64
    ensures { result ≡ pending_in spool.now.memory }
{
    let known = spool.known();
    let mut count = spool.end().saturating_sub(spool.cursor());
    for stretch in known {
        count = count.saturating_sub(stretch.to.saturating_sub(stretch.from));
    }
    count
}
