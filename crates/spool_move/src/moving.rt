//! One run of a move.
ghost use Rattle.std.specs.Prelude.{◌≡◌, List, IfErr, IsErrOf};
ghost use Rattle.edge_disk.specs.Calls.{Calls};
ghost use Rattle.spool_state.specs.SpoolState.{SpoolState};
ghost use Rattle.spool_log.specs.State.{view, IsIn};
ghost use Rattle.spool_move.specs.Leave.{MayMove};
ghost use Rattle.spool_move.specs.Moves.{IsAnyMoment, MovesFrom};
ghost use Rattle.spool_move.specs.Said.{IsSaidBy};
ghost use Rattle.spool_move.specs.Turns.{LeavesBoth};

use crate::MoveFault;
use crate::presence::read_present;
use crate::walking::move_all;
use edge_disk::Disk;
use spool_log::Spool;
use std::alloc::Global;

/// Moves the entries of the source that aren't known as confirmed into the target, and answers how many the target took.
///
/// Entry n of the source becomes an entry of the target with the connection number 2^63 + `tag`, index n, unit 0 and the same event.
/// It is present where the target has such an entry of index n that isn't known as confirmed. A run that was stopped by a fault, a
/// crash or a signal is begun again with the same tag, and takes only what isn't present. Both spools may be in doubt: each is
/// mended first.
///
/// First the target's entries are read. `Strange` comes exactly where one of this tag isn't the source's: its index is at or above the
/// source's end, or that of an entry that is left there with another origin or text. `number` is the index of the first such entry, and
/// nothing changed then. Next the source's entries are walked in order: each that isn't present is one `take` of the target. After every
/// 128 entries, at the end, and at `TooLarge`, `Spent` or `Full`, the source's numbers up to the last entry that is present or taken become
/// known as confirmed, and where that fails, its fault is the answer. `TooLarge`, `Spent` and `Full` come exactly where the target's
/// `take` answers so, and `Worn` exactly where the source's `confirm` does.
///
/// `SourceFault` and `TargetFault` come only where a call of that disk failed. `NotSpool` comes only where a device read as no spool, and
/// never on disks that tell what they read.
///
/// `earned` is the leave to make numbers of the source known as confirmed, which the caller gives: a number may become known once
/// the target keeps a copy of its entry, whatever a crash leaves of it. No other number does, also where the call never returns.
pub fn move_pending<D: Disk, E: Disk>(
    alloc: Global,
    source: &mut Spool<D>,
    target: &mut Spool<E>,
    tag: u32,
) -> Result<u64, MoveFault>
    requires earned { MayMove D.tells D.moment E.tells E.moment tag D.may_release }

    ensures source_calls { Calls (IsErrOf result MoveFault.SourceFault) (D.moment source.old.disk) (D.moment source.new.disk) }
    ensures target_calls { Calls (IsErrOf result MoveFault.TargetFault) (E.moment target.old.disk) (E.moment target.new.disk) }
    ensures told { IfErr result (λ fault. IsSaidBy source.new.memory target.new.memory fault) }
    ensures moves { (s t : SpoolState) (ds dt : List SpoolState) → D.tells → E.tells
        → IsIn s ds (view source.old.memory source.old.doubt (D.moment source.old.disk))
        → IsIn t dt (view target.old.memory target.old.doubt (E.moment target.old.disk))
        → MovesFrom tag s ds t dt result
        (view source.old.memory source.old.doubt (D.moment source.old.disk)) (view source.new.memory source.new.doubt (D.moment source.new.disk))
        (view target.old.memory target.old.doubt (E.moment target.old.disk)) (view target.new.memory target.new.doubt (E.moment target.new.disk)) }
    ensures any_moment { (s t : SpoolState) (ds dt : List SpoolState) → D.tells → E.tells
        → IsIn s ds (view source.old.memory source.old.doubt (D.moment source.old.disk))
        → IsIn t dt (view target.old.memory target.old.doubt (E.moment target.old.disk))
        → LeavesBoth D.moment E.moment (IsAnyMoment tag s ds t dt (D.moment source.old.disk) (E.moment target.old.disk))
        source.old.disk target.old.disk source.new.disk target.new.disk }
{
    if let Err(fault) = source.mend() {
        return Err(MoveFault::of_source(fault));
    }
    if let Err(fault) = target.mend() {
        return Err(MoveFault::of_target(fault));
    }
    let present = read_present(alloc, source, target, tag)?;
    move_all(source, target, tag, &present)
}
