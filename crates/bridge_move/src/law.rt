//! What follows for calls of `bridge_move` one after another, from its contract alone. The function does nothing: it has a law as its
//! contract.
ghost use Rattle.bridge_parts.specs.Run.{output_run};
ghost use Rattle.bridge_move.specs.Calls.{EachCallIsRun};
ghost use Rattle.bridge_move.specs.MoveRun.{two_disks};

use edge_disk::Disk;
use edge_io::Sink;

/// Each call of `bridge_move` with the words of a move is a run of that move, over two devices that stand for spools, whatever its note is.
/// Where it was well, the run moved all. So what `spool_move` says of any number of runs, each ended by its answer or by a crash, is so of
/// these calls: no entry is lost, none stands twice in one spool, and where a call was well all of them stand in the target alone.
///
/// The arguments are both disks and the output, before the call and after it.
pub fn each_call_is_a_run<D: Disk, E: Disk, K: Sink>(
    _source: &D,
    _source_after: &D,
    _target: &E,
    _target_after: &E,
    _output: &K,
    _output_after: &K,
)
    ensures { EachCallIsRun (two_disks D.tells E.tells D.moment E.moment) (_source.now, _target.now) (_source_after.now, _target_after.now)
        (output_run K.taken K.write_faults _output.now _output_after.now) }
{}
