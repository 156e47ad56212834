//! Why entries were not all moved, as a note.
ghost use Rattle.std.specs.Prelude.{◌≡◌};
ghost use Rattle.bridge_move.specs.Ended.{note_of_move};

use notes::Note;
use spool_move::MoveFault;

/// The note of the same name; of a disk that failed it is `DiskFault`, whichever of the two that was.
pub(crate) fn move_note(fault: MoveFault) -> Note
    ensures { result ≡ note_of_move fault }
{
    match fault {
        MoveFault::Strange { number } => Note::Strange { number },
        MoveFault::TooLarge { need, most } => Note::TooLarge { need, most },
        MoveFault::Spent { end } => Note::Spent { end },
        MoveFault::Full { need, room } => Note::Full { need, room },
        MoveFault::Worn { ordinal } => Note::Worn { ordinal },
        MoveFault::NotSpool { at } => Note::NotSpool { at },
        MoveFault::SourceFault | MoveFault::TargetFault => Note::DiskFault,
        MoveFault::NoMemory => Note::NoMemory,
    }
}
