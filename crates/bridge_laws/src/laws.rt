//! When each command has to end well, from the contract of `bridge` alone. The functions do nothing: each has a law as its contract.
ghost use Rattle.bridge_parts.specs.Run.{input_run, net_run, output_run};
ghost use Rattle.bridge_laws.specs.CompleteCommands.{EachEndsWell};
ghost use Rattle.bridge_laws.specs.ServeEnds.{ServeEndsWell};
ghost use Rattle.bridge_laws.specs.Told.{OfEachCall, disk_kind, telling};

use conn_serve::runs_of_one;
use edge_disk::Disk;
use edge_io::{Net, Sink, Source};

/// Each command ends well where no call failed and nothing stands in its way: only want of memory can take the place of that.
///
/// So it is of each call of `bridge`, whatever the disk, the input, the output and the net were before it and after it, and whatever doors
/// were bound. Of that call no more is known than its contract says, and that no count of faults rose in it.
///
/// - `format` ends well on a device of the wanted length.
/// - `list` does on a device that stands for a spool.
/// - `load` does by each protocol.
/// - `replay` does where a run and an ordinal of the register are left, the input's bytes are fewer than 2^40 and end with a
///   frame, or one of their frames closes the connection, and each group and each id that they bring is granted in the state
///   to which those before it lead. Then the spool has their events after what it had, and nothing else.
/// - `drain` does where the register can be written once for each pending entry, the peer's bytes are fewer than 2^40, and
///   their frames or replies acknowledge all that is pending before anything ends the session otherwise. Then nothing is left.
pub fn each_command_ends_well<D: Disk, S: Source, K: Sink, N: Net>(
    _disk: &D,
    _input: &S,
    _output: &K,
    _net: &N,
    _doors: &Vec<N::P>,
)
    ensures { OfEachCall (telling (disk_kind D.tells D.moment) (input_run S.given S.left S.read_faults)
        (output_run K.taken K.write_faults) (net_run N.told) N.P.told) EachEndsWell }
{
    runs_of_one()
}

/// `serve` ends well where no call failed and nothing stands in its way: only want of memory can take the place of that.
///
/// So it is of each call of `bridge`, whatever the disk, the input, the output and the net were before it and after it, and whatever doors
/// were bound. Of that call no more is known than its contract says, and that no count of faults rose in it.
///
/// The device stands for a spool of which a run and an ordinal of the register are left. Where the server ran, no accept failed at its
/// doors, and nothing that the peer answered, nor the state of the spool, stopped its last look at what is pending. How single
/// connections ended doesn't matter, nor how earlier sessions of the forwarder did.
pub fn serve_ends_well<D: Disk, S: Source, K: Sink, N: Net>(
    _disk: &D,
    _input: &S,
    _output: &K,
    _net: &N,
    _doors: &Vec<N::P>,
)
    ensures { OfEachCall (telling (disk_kind D.tells D.moment) (input_run S.given S.left S.read_faults)
        (output_run K.taken K.write_faults) (net_run N.told) N.P.told) ServeEndsWell }
{}
