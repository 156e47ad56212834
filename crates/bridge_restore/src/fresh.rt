//! Whether a tag is fresh in a spool: whether none of its pending entries has it.
ghost use Rattle.std.specs.Prelude.{[], MatchOption, MatchResult, IfErr, IsErrOf};
ghost use Rattle.edge_disk.specs.Calls.{Calls};
ghost use Rattle.edge_disk.specs.Disk.{LeavesOnly};
ghost use Rattle.spool_state.specs.SpoolState.{SpoolState};
ghost use Rattle.spool_state.specs.Left.{left};
ghost use Rattle.spool_answers.specs.Pend.{given_entries};
ghost use Rattle.spool_faults.specs.declared.fault.PendFault.TheVariants as Pend;
ghost use Rattle.spool_log.specs.State.{view, IsIn};
ghost use Rattle.bridge_restore.specs.declared.fault.StoreFault.TheVariants.{Unseen};
ghost use Rattle.bridge_restore.specs.Fresh.{IsFresh, HasTagged, FindsTagged, IsOfSeeing};

use crate::fault::StoreFault;
use edge_disk::Disk;
use spool_log::{Numbered, Spool};
use spool_move::connection;

/// How many entries are read at a time.
const PAGE: u32 = 128;

// The index of the first of these entries that has the tag.
fn first_tagged(page: &[Numbered], tag: u32) -> Option<u64>
    ensures { MatchOption result (IsFresh tag (given_entries page.now)) (λ number. HasTagged tag (given_entries page.now) number) }
{
    let own = connection(tag);
    for one in page {
        if one.entry.conn == own {
            return Some(one.entry.index);
        }
    }
    None
}

/// Looks at the pending entries of the spool. The error is `Strange` exactly where one has the tag, with the index of the first such one, or
/// says that they weren't read. Nothing is written.
pub(crate) fn see_fresh<E: Disk>(target: &mut Spool<E>, tag: u32) -> Result<(), StoreFault>
    ensures known { IfErr result IsOfSeeing }
    ensures calls { Calls (IsErrOf result (Unseen Pend.DiskFault)) (E.moment target.old.disk) (E.moment target.new.disk) }
    ensures seen { (u : SpoolState) → E.tells → IsIn u [] (view target.old.memory target.old.doubt (E.moment target.old.disk))
        → MatchResult result (λ _. IsFresh tag (left u)) (λ fault. FindsTagged tag (left u) fault) }
    ensures kept { (u : SpoolState) → E.tells → IsIn u [] (view target.old.memory target.old.doubt (E.moment target.old.disk))
        → IsIn u [] (view target.new.memory target.new.doubt (E.moment target.new.disk))
        × LeavesOnly (E.moment target.old.disk).image (E.moment target.old.disk) (E.moment target.new.disk) }
{
    let mut from = 0;
    loop {
        let page = match target.pending(from, PAGE) {
            Ok(page) => page,
            Err(fault) => return Err(StoreFault::Unseen(fault)),
        };
        if let Some(number) = first_tagged(&page, tag) {
            return Err(StoreFault::Strange { number });
        }
        match page.last() {
            Some(last) => from = last.number + 1,
            None => return Ok(()),
        }
    }
}
