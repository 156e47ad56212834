//! What holds of the stages of a change, and of the calls of a desk's only caller. The functions do nothing: each has a law as its contract.
ghost use Rattle.spool_desk.specs.Alone.{alone_at};
ghost use Rattle.desk_laws.specs.Alone.{ImageIsKept, ImageWas, ToldWasOwn};
ghost use Rattle.desk_laws.specs.FreeSlots.{FreeSlotsAreFree};
ghost use Rattle.desk_laws.specs.Stages.{AddingStagesFollow, KnownStagesFollow};

use edge_disk::Disk;
use spool_desk::Alone;

/// Each stage by which a group is added, and by which numbers become known, keeps what there was. So whatever a crash leaves on the way
/// has all of it.
pub fn stages_follow()
    ensures adding { AddingStagesFollow }
    ensures knowing { KnownStagesFollow }
{}

/// What the calls of a desk's only caller took is in whatever a crash leaves after them, at its number or below the cursor. At each
/// moment since they began a crash left a later state than that at the beginning, with what the first of them had added. It follows
/// from what each of these calls ensures, `Ran`.
pub fn taken_lasts<D: Disk>(_before: &Alone<D>, _after: &Alone<D>)
    ensures kept { ImageIsKept D.tells (alone_at _before.now) (alone_at _after.now) }
    ensures was { ImageWas D.tells (alone_at _before.now) (alone_at _after.now) }
{}

/// An id that the only caller of a desk was told true is one of which it took entries before, where each of its settles stands after
/// such a take.
pub fn told_was_own()
    ensures { ToldWasOwn }
{}

/// The slots that are counted as free, where it is told how a spool stands, are those in which a take may begin a segment: the closed ones,
/// and those of the older ones all of whose entries are below the cursor. No other slot is free.
pub fn free_slots_are_free()
    ensures { FreeSlotsAreFree }
{}
