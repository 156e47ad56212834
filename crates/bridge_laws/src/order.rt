//! What follows for the order of a spool's entries, from the contracts of `bridge`, `bridge_move` and `bridge_skip` alone. The functions
//! do nothing: each has a law as its contract.
ghost use Rattle.bridge_parts.specs.Run.{input_run, net_run, output_run};
ghost use Rattle.bridge_laws.specs.InOrder.{DeskOpensLegal, EmptyIsInOrder, OpeningKeepsOrder, UnmovedIsWhole};
ghost use Rattle.bridge_laws.specs.KeepsOrder.{EachCommandKeepsOrder};
ghost use Rattle.bridge_laws.specs.Lifetime.{OrderHolds};
ghost use Rattle.bridge_laws.specs.Told.{OfEachCall, disk_kind, telling};

use conn_serve::runs_of_one;
use edge_disk::Disk;
use edge_io::{Net, Sink, Source};

/// The spool that `format` makes is in order.
pub fn empty_is_in_order()
    ensures { EmptyIsInOrder }
{}

/// A spool in order is in order once it was opened, for storing or to be read.
pub fn opening_keeps_order()
    ensures { OpeningKeepsOrder }
{}

/// Where nothing was moved into a spool in order, the indexes of the entries of each connection number rise by one, whichever number that
/// is. So nothing is left open of such a spool: what isn't said of the numbers from 2^63 on is of moved entries alone.
pub fn unmoved_is_whole()
    ensures { UnmovedIsWhole }
{}

/// Where a crash leaves no spool of the device that is out of order, the desk that is opened for storing over it begins with a legal
/// list of entries of earlier runs. So what a run of `serve` promises of the order of each connection's entries needs no premise.
pub fn desk_opens_legal<D: Disk>(_disk: &D)
    ensures { DeskOpensLegal D.tells (D.moment _disk.now) }
{}

/// Each call of `bridge` keeps the order of a spool's entries: of each connection's, whose indexes rise by one, and of each
/// id's, which stand together. Where a crash before the call could leave no spool that is out of order, none leaves one after
/// the call or within it. `format` makes a spool in order of any device. And where nothing was moved into the spool before, nothing was
/// after: all its connections are of the runs that it has had.
///
/// So it is of each call, whatever the disk, the input, the output and the net were before it and after it, and whatever doors were bound
/// in it. Of the call no more is known than its contract says.
pub fn each_command_keeps_order<D: Disk, S: Source, K: Sink, N: Net>(
    _disk: &D,
    _input: &S,
    _output: &K,
    _net: &N,
    _doors: &Vec<N::P>,
)
    ensures { OfEachCall (telling (disk_kind D.tells D.moment) (input_run S.given S.left S.read_faults)
        (output_run K.taken K.write_faults) (net_run N.told) N.P.told) EachCommandKeepsOrder }
{
    runs_of_one()
}

/// From a call of `format` that ended well on, a crash leaves no spool of the device that is out of order, where `bridge`, `bridge_move`
/// and `bridge_skip` alone write to it: after any calls of `bridge`, skips, and moves out of the device and into it, one after another, and
/// any crashes between them and within them. Where none of them is a `format`, it leaves a spool in order. Each of these calls ended: of one
/// that was killed, or never ended, nothing is said here, since its leave to write doesn't say which connection and index a new entry has.
///
/// Entries that are moved into the device have connection numbers from 2^63 on, one for each tag, and no id. Of their indexes nothing is
/// said here: they are the numbers that the entries had in the source. Where nothing is moved into the device, the order is that of all
/// numbers (`none_unmoved`, `some_unmoved`).
///
/// After a crash the device has something that the crash could leave. Each call has an input, an output, a net and doors of its
/// own, and no more is known of it than the contract of `bridge` says. The other disk of a move is any disk, `E`, whose device may stand
/// for a spool that is out of order, or for none. Of a move no more is known than the contract of `bridge_move` says; of one in the midst
/// of which a crash came, that it was a run of a move (`IsRun`), as each call of `bridge_move` over two spools is
/// (`bridge_move::each_call_is_a_run`). One over a device that is no spool changes nothing of what a crash leaves. A skip has an output of
/// its own, and no more is known of it than the contract of `bridge_skip` says.
pub fn order_holds_from_format<D: Disk, E: Disk, S: Source, K: Sink, N: Net>(
    _disk: &D,
    _other: &E,
    _input: &S,
    _output: &K,
    _net: &N,
    _doors: &Vec<N::P>,
)
    ensures { OrderHolds (telling (disk_kind D.tells D.moment) (input_run S.given S.left S.read_faults)
        (output_run K.taken K.write_faults) (net_run N.told) N.P.told) (disk_kind E.tells E.moment) }
{
    runs_of_one()
}
