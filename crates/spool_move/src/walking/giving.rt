//! Numbers given up by the source.
ghost use Rattle.std.specs.Prelude.{◌≡◌, ◌<◌, ◌≤◌, ℕ, List, [], IfErr, IsErrOf};
ghost use Rattle.edge_disk.specs.Calls.{Calls};
ghost use Rattle.spool_state.specs.SpoolState.{SpoolState};
ghost use Rattle.spool_log.specs.Memory.{end_of};
ghost use Rattle.spool_log.specs.State.{view, IsIn};
ghost use Rattle.spool_log.specs.declared.memory.Memory.{Memory};
ghost use Rattle.spool_move.specs.Said.{IsSaidBy};
ghost use Rattle.spool_move.specs.Walking.{GivesUp};

use crate::MoveFault;
use edge_disk::Disk;
use spool_log::{Spool, TakeFault};

/// The source gives up all numbers below this one: they become known as confirmed.
pub(crate) fn give_up<D: Disk>(source: &mut Spool<D>, upto: u64) -> Result<(), MoveFault>
    requires within { upto ≤ end_of source.old.memory }
    requires earned { (n : ℕ) → n < upto → D.may_release n }

    ensures calls { Calls (IsErrOf result MoveFault.SourceFault) (D.moment source.old.disk) (D.moment source.new.disk) }
    ensures other { IsErrOf result MoveFault.TargetFault → ⊥ }
    ensures told { IfErr result (λ fault. (target : Memory) → IsSaidBy source.new.memory target fault) }
    ensures given { (s : SpoolState) → D.tells → IsIn s [] (view source.old.memory source.old.doubt (D.moment source.old.disk))
        → GivesUp s upto result (view source.old.memory source.old.doubt (D.moment source.old.disk))
        (view source.new.memory source.new.doubt (D.moment source.new.disk)) }
{
    match source.confirm(upto) {
        Ok(()) => Ok(()),
        Err(fault) => Err(MoveFault::of_confirm(fault)),
    }
}
