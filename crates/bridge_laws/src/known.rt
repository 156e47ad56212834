//! Why a number is known as confirmed, from the contracts of `bridge`, `bridge_move` and `bridge_skip` alone. The function does nothing:
//! its contract is the law.
ghost use Rattle.bridge_parts.specs.Run.{input_run, net_run, output_run};
ghost use Rattle.bridge_laws.specs.Cause.{KnownHasCause, KnownHasCauseOrCut};
ghost use Rattle.bridge_laws.specs.Told.{disk_kind, telling};

use conn_serve::runs_of_one;
use edge_disk::Disk;
use edge_io::{Net, Sink, Source};

/// A number that is known as confirmed was known before, or a call since then made it known: after any calls of `bridge` but `format`,
/// skips, and moves out of the device and into it, one after another, and any crashes between them and within them, a number that a spool
/// knows which a crash may leave was known by one that a crash could leave as the first of them began; or one of these came:
///
/// - a call of `drain`, or of a `serve` that has a receiver to forward to, whose marks are of entries that the receiver acknowledged: that is
///   the clause `releases` of `bridge`;
/// - a move out of the device, which gives up what the target has: that is `bridge_move`'s own promise;
/// - a skip of this very number, whose output took all of the line of the entry that was pending at it.
///
/// So it is where a crash ended that call, too. No other call makes a number known: not `list`, `replay` or `load`, nor a `serve` without a
/// receiver, a skip of another number, or a move into the device.
///
/// Calls that were cut off, as a process that is killed leaves them, or that never ended may have come as well (`cut`): each of these made
/// known only numbers that may become known, which is the leave that the call had (`releases` of `bridge`, `earned` of `bridge_move` and of
/// `bridge_skip`). The disks and the calls are as [`order_holds_from_format`](crate::order_holds_from_format) tells.
pub fn known_has_cause<D: Disk, E: Disk, S: Source, K: Sink, N: Net>(
    _disk: &D,
    _other: &E,
    _input: &S,
    _output: &K,
    _net: &N,
    _doors: &Vec<N::P>,
)
    ensures ended { KnownHasCause (telling (disk_kind D.tells D.moment) (input_run S.given S.left S.read_faults)
        (output_run K.taken K.write_faults) (net_run N.told) N.P.told) (disk_kind E.tells E.moment) }
    ensures cut { KnownHasCauseOrCut (telling (disk_kind D.tells D.moment) (input_run S.given S.left S.read_faults)
        (output_run K.taken K.write_faults) (net_run N.told) N.P.told) (disk_kind E.tells E.moment) D.may_release }
{
    runs_of_one()
}
