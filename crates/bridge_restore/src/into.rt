//! The other spool, opened, and the entries that were found stored into it.
ghost use Rattle.std.specs.Prelude.{◌≡◌, List, [], false, Some, IfSome};
ghost use Rattle.notes.specs.declared.note.Note.TheVariants.{DiskFault};
ghost use Rattle.spool_state.specs.SpoolState.{OpenSlot, SpoolState};
ghost use Rattle.spool_answers.specs.Leave.{LetsKeep};
ghost use Rattle.edge_disk.specs.Disk.{IsUntouched};
ghost use Rattle.spool_log.specs.State.{view, IsIn};
ghost use Rattle.bridge_parts.specs.Run.{disk_run};
ghost use Rattle.bridge_rescue.specs.Looking.{AreReadable, AreKnown};
ghost use Rattle.bridge_restore.specs.Into.{TellsTwo, FailsDisk, StoresOpen, StoresSeen, GoesInto, IsStoreNote};
ghost use Rattle.bridge_restore.specs.Told.{told};

use crate::fault::{StoreFault, why_note};
use crate::fresh::see_fresh;
use crate::storing::store_slots;
use bridge_parts::recover_note;
use bridge_rescue::Found;
use edge_disk::Disk;
use notes::Note;
use spool_log::{Opening, Refusal, Spool};
use spool_slots::Window;
use std::alloc::Global;

/// What storing into another spool came to.
#[derive(Drop)]
pub(crate) struct Stored<E> {
    /// Why not all entries were stored, where they weren't.
    pub why: Option<Note>,
    /// How many entries it has taken.
    pub count: u64,
    /// Its disk.
    pub target: E,
}

// Sees that the tag is fresh in the spool, and stores the entries that were found of these slots.
fn store_seen<D: Disk, E: Disk>(
    alloc: Global,
    disk: &mut D,
    window: &mut Window,
    founds: &[Found],
    tag: u32,
    target: &mut Spool<E>,
) -> Result<(), StoreFault>
    requires readable { AreReadable (D.moment disk.old).size founds.now }

    ensures disks { TellsTwo (FailsDisk result) (D.moment disk.old) (D.moment disk.new) (E.moment target.old.disk) (E.moment target.new.disk) }
    ensures told { D.tells → IsUntouched (D.moment disk.old) (D.moment disk.new) }
    ensures stored { (slots : List OpenSlot) (u : SpoolState) → D.tells → E.tells → AreKnown slots founds.now (D.moment disk.old).reads
        → IsIn u [] (view target.old.memory target.old.doubt (E.moment target.old.disk)) → StoresSeen tag u (told tag slots) result
        (view target.old.memory target.old.doubt (E.moment target.old.disk)) (view target.new.memory target.new.doubt (E.moment target.new.disk)) }
{
    see_fresh(target, tag)?;
    store_slots(alloc, disk, window, founds, tag, target)
}

// The same of a spool that is open, which is closed then.
fn store_open<D: Disk, E: Disk>(
    alloc: Global,
    disk: &mut D,
    window: &mut Window,
    founds: &[Found],
    tag: u32,
    mut target: Spool<E>,
) -> Stored<E>
    requires readable { AreReadable (D.moment disk.old).size founds.now }
    requires sure { target.doubt ≡ false }

    ensures known { IfSome result.why IsStoreNote }
    ensures disks { TellsTwo (result.why ≡ Some DiskFault) (D.moment disk.old) (D.moment disk.new) (E.moment target.disk) (E.moment result.target) }
    ensures told { D.tells → IsUntouched (D.moment disk.old) (D.moment disk.new) }
    ensures stored { (slots : List OpenSlot) → D.tells → AreKnown slots founds.now (D.moment disk.old).reads
        → StoresOpen tag slots target result.target result.why result.count }
{
    let begin = target.end();
    let ended = store_seen(alloc, disk, window, founds, tag, &mut target);
    let count = target.end().saturating_sub(begin);
    let why = why_note(ended);
    let target = target.into_disk();
    Stored { why, count, target }
}

/// Opens the spool of this disk as it is, and stores the entries that were found of these slots, in order, up to the first one that it doesn't
/// take. Where it isn't opened, or has an entry of this tag pending already, it stays as it was.
pub(crate) fn store_into<D: Disk, E: Disk>(
    alloc: Global,
    disk: &mut D,
    window: &mut Window,
    founds: &[Found],
    tag: u32,
    target: E,
) -> Stored<E>
    requires readable { AreReadable (D.moment disk.old).size founds.now }
    requires tears { LetsKeep E.tells E.moment E.may_tear E.may_release }

    ensures known { IfSome result.why IsStoreNote }
    ensures disks { TellsTwo (result.why ≡ Some DiskFault) (D.moment disk.old) (D.moment disk.new) (E.moment target) (E.moment result.target) }
    ensures told { D.tells → IsUntouched (D.moment disk.old) (D.moment disk.new) }
    ensures stored { (slots : List OpenSlot) → D.tells → AreKnown slots founds.now (D.moment disk.old).reads
        → GoesInto tag slots (disk_run E.tells E.moment target result.target) result.why result.count }
{
    match Spool::recover(alloc, target, Opening::Keep) {
        Ok(target) => store_open(alloc, disk, window, founds, tag, target),
        Err(Refusal { fault, disk }) => Stored {
            why: Some(recover_note(fault)),
            count: 0,
            target: disk,
        },
    }
}
