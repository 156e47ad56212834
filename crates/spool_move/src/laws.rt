//! What holds over any number of runs, from the contract of one run alone. The functions do nothing: each has laws as its contract.
ghost use Rattle.spool_move.specs.Runs.{MovedStandOnce, RunsLoseNothing, RunsMoveAll};

use edge_disk::Disk;

/// Runs of a move one after another, over disks that nobody else changes meanwhile, where the target had no pending entry of the tag
/// at the first. Each run was ended by its answer, or cut off by a crash of either disk or of both at any call of theirs.
///
/// - In every pair of what a crash leaves of the two, the entries that the source had pending at first are moved in order up to one of
///   them, and the source has given up at most those that the target has. So each stands in the source's pending entries or in the
///   target's, and never twice in one of them.
/// - Where a run answers `Ok`, all of them stand in the target's alone, in the source's order.
///
/// After a crash each device has something that the crash could leave of it. Of a run no more is known than its contract says.
pub fn runs_lose_nothing<D: Disk, E: Disk>(_source: &D, _target: &E)
    ensures nothing_lost { RunsLoseNothing D.tells D.moment E.tells E.moment }
    ensures once { MovedStandOnce }
    ensures all_moved { RunsMoveAll D.tells D.moment E.tells E.moment }
{}
