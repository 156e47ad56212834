//! What was acknowledged lasts, from the contracts of `bridge`, `bridge_move` and `bridge_skip` alone. The functions do nothing: each has
//! laws as its contract.
ghost use Rattle.bridge_parts.specs.Run.{input_run, net_run, output_run};
ghost use Rattle.bridge_laws.specs.Copied.{CopyLasts};
ghost use Rattle.bridge_laws.specs.Durable.{DurableLasts, KeptLasts};
ghost use Rattle.bridge_laws.specs.Leave.{DurableIsKept, LeaveLasts, LeaveReleases};
ghost use Rattle.bridge_laws.specs.Told.{disk_kind, telling};

use edge_disk::Disk;
use edge_io::{Net, Sink, Source};

/// What is durable lasts: groups of entries that a disk keeps, whatever a crash leaves of it, are kept so after any later calls of
/// `bridge`, skips, and moves out of the device and into it, one after another, and any crashes between them and within them, where none of
/// these calls is a `format`. Each entry of theirs stands at its number, or the cursor is past it. That `move` puts the cursor past none
/// before the target has its entry is `bridge_move`'s own promise.
///
/// So it is, too, over calls that were cut off, as a process that is killed leaves them, or that never ended (`cut`): of such a call no more
/// is known than that each of its writes had the leave which `bridge` asks for (`tears`), as do `bridge_move` and `bridge_skip`. What is
/// kept at a moment of a call by [`leave_lasts`] is therefore kept after all that comes later.
///
/// After a crash the device has something that the crash could leave. Each call has an input, an output, a net and doors of its
/// own, and no more is known of it than the contract of `bridge` says. Of a move, whose other disk is any disk, and of a skip no more is
/// known than [`order_holds_from_format`](crate::order_holds_from_format) tells.
pub fn durable_lasts<D: Disk, E: Disk, S: Source, K: Sink, N: Net>(
    _disk: &D,
    _other: &E,
    _input: &S,
    _output: &K,
    _net: &N,
    _doors: &Vec<N::P>,
)
    ensures lasts { DurableLasts (telling (disk_kind D.tells D.moment) (input_run S.given S.left S.read_faults)
        (output_run K.taken K.write_faults) (net_run N.told) N.P.told) (disk_kind E.tells E.moment) }
    ensures cut { KeptLasts (telling (disk_kind D.tells D.moment) (input_run S.given S.left S.read_faults)
        (output_run K.taken K.write_faults) (net_run N.told) N.P.told) (disk_kind E.tells E.moment) D.may_release }
{}

/// What a move stored lasts in its target: an entry of which the target has a copy, whatever a crash leaves of it, as it has to before the
/// source may give the entry up (`earned` of `bridge_move`), stays in the target at the number that the copy had there, or is below the
/// cursor: after any reads, syncs and writes of that very call, whether it ends or not, and after all that [`durable_lasts`] speaks of.
pub fn moved_lasts<D: Disk, E: Disk, S: Source, K: Sink, N: Net>(
    _target: &D,
    _other: &E,
    _input: &S,
    _output: &K,
    _net: &N,
    _doors: &Vec<N::P>,
)
    ensures { CopyLasts (telling (disk_kind D.tells D.moment) (input_run S.given S.left S.read_faults)
        (output_run K.taken K.write_faults) (net_run N.told) N.P.told) (disk_kind E.tells E.moment) D.may_release }
{}

/// What is durable lasts at each moment within a call, too, whether that ends or not: groups of entries that a disk keeps, whatever a
/// crash leaves of it, are kept so after any reads, syncs and writes, one after another, where each write had the leave that `bridge`
/// asks for (`tears`): whatever a crash may tear of it keeps the spool. And a number that is known then was known before, or may
/// become known. What is durable is kept.
///
/// So an event whose acknowledgment was written is in the spool at its number from then on, or below the cursor: in that call by this
/// law, and after it by [`durable_lasts`], however the call ends.
pub fn leave_lasts<D: Disk>(_disk: &D)
    ensures durable { DurableIsKept D.moment }
    ensures lasts { LeaveLasts D.moment D.may_release }
    ensures releases { LeaveReleases D.moment D.may_release }
{}
