//! What a call of `bridge` leaves alone, from its contract alone. The function does nothing: its contract is the law.
ghost use Rattle.bridge_parts.specs.Run.{input_run, net_run, output_run};
ghost use Rattle.bridge_laws.specs.LeavesAlone.{EachLeavesAlone};
ghost use Rattle.bridge_laws.specs.Told.{OfEachCall, disk_kind, telling};

use edge_disk::Disk;
use edge_io::{Net, Sink, Source};

/// A call of `bridge` leaves alone what its words don't need, and its note is `Usage` only where the words are no command.
///
/// So it is of each call, whatever the disk, the input, the output and the net were before it and after it, and whatever doors were bound
/// in it. Of the call no more is known than its contract says.
///
/// - Where the words are no command, the note is `Usage`, or `NoMemory` where none was found for reading them.
/// - A device whose length isn't the wanted one is handed back as it was given, and so is any device by `load`.
/// - `serve` alone binds doors.
/// - Where the words or the device were refused before the input or the output was met, these are as they were given, unless the words
///   are those of `drain` or `serve`. The input is so unless the words are those of `replay` or of `drain` without a place.
/// - The net is as it was given unless the words are those of `drain` or `serve`, and tells nothing new where no place was named.
pub fn each_command_leaves_alone<D: Disk, S: Source, K: Sink, N: Net>(
    _disk: &D,
    _input: &S,
    _output: &K,
    _net: &N,
    _doors: &Vec<N::P>,
)
    ensures { OfEachCall (telling (disk_kind D.tells D.moment) (input_run S.given S.left S.read_faults)
        (output_run K.taken K.write_faults) (net_run N.told) N.P.told) EachLeavesAlone }
{}
