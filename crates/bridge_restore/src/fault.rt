//! Why entries that were found were not all stored.
ghost use Rattle.std.specs.Prelude.{◌≡◌};
ghost use Rattle.bridge_restore.specs.Fault.{note_of_take, note_of_store, why_of};

use bridge_parts::pend_note;
use bridge_rescue::note_of_scan;
use notes::Note;
use spool_log::{PendFault, TakeFault};
use spool_slots::ScanFault;

/// Why the entries that were found in one spool were not all stored into another.
pub(crate) enum StoreFault {
    /// The other one has an entry of this tag pending, of which this is the index.
    Strange { number: u64 },
    /// Its pending entries were not all read.
    Unseen(PendFault),
    /// An entry that was found was not read again.
    Unread(ScanFault),
    /// It didn't take the next entry.
    Untaken(TakeFault),
}

// The note of the same name, for an entry that wasn't taken.
fn take_note(fault: TakeFault) -> Note
    ensures { result ≡ note_of_take fault }
{
    match fault {
        TakeFault::TooLarge { need, most } => Note::TooLarge { need, most },
        TakeFault::Spent { end } => Note::Spent { end },
        TakeFault::Full { need, room } => Note::Full { need, room },
        TakeFault::NotSpool { at } => Note::NotSpool { at },
        TakeFault::DiskFault => Note::DiskFault,
        TakeFault::NoMemory => Note::NoMemory,
    }
}

// The note that says why. Of a disk that failed it is `DiskFault`, whichever of the two that was.
fn store_note(fault: StoreFault) -> Note
    ensures { result ≡ note_of_store fault }
{
    match fault {
        StoreFault::Strange { number } => Note::Strange { number },
        StoreFault::Unseen(fault) => pend_note(fault),
        StoreFault::Unread(fault) => note_of_scan(fault),
        StoreFault::Untaken(fault) => take_note(fault),
    }
}

/// The note that says why not all entries were stored, where they weren't. Of a disk that failed it is `DiskFault`, whichever of the two that
/// was.
pub(crate) fn why_note(ended: Result<(), StoreFault>) -> Option<Note>
    ensures { result ≡ why_of ended }
{
    match ended {
        Ok(()) => None,
        Err(fault) => Some(store_note(fault)),
    }
}
