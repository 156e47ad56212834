//! One number that becomes known as confirmed.
ghost use Rattle.std.specs.Prelude.{◌≡◌, ◌↔◌, ◌<◌, ◌^◌, IsTrue};
ghost use Rattle.known_numbers.specs.Numbers.{IsInSome, IsKnown};
ghost use Rattle.spool_state.specs.SpoolState.{SpoolState};
ghost use Rattle.edge_disk.specs.Calls.{Calls};
ghost use Rattle.spool_log.specs.Memory.{end_of, numbers_of};
ghost use Rattle.bridge_skip.specs.Released.{note_of_confirm, IsReleaseNote, Releases};
ghost use Rattle.bridge_skip.specs.Told.{IsOpenIn};

use edge_disk::Disk;
use known_numbers::Stretch;
use notes::Note;
use spool_log::{ConfirmFault, Spool};

// The note of the same name.
fn confirm_note(fault: ConfirmFault) -> Note
    ensures { result ≡ note_of_confirm fault }
{
    match fault {
        ConfirmFault::Worn { ordinal } => Note::Worn { ordinal },
        ConfirmFault::NotSpool { at } => Note::NotSpool { at },
        ConfirmFault::DiskFault => Note::DiskFault,
        ConfirmFault::NoMemory => Note::NoMemory,
    }
}

// Whether the number is in one of the stretches.
fn is_in_some(stretches: &[Stretch], number: u64) -> bool
    ensures { IsTrue result ↔ IsInSome stretches.now number }
{
    for stretch in stretches {
        if stretch.from <= number && number < stretch.to {
            return true;
        }
    }
    false
}

// Whether the number is known as confirmed.
fn is_known<D: Disk>(spool: &Spool<D>, number: u64) -> bool
    ensures { IsTrue result ↔ IsKnown (numbers_of spool.now.memory) number }
{
    number < spool.cursor() || is_in_some(spool.known(), number)
}

/// Makes the number, which is below the end, known as confirmed, durable. `Fine` comes where it is known then. `Full` comes where there would
/// be more than 240 stretches of known numbers above the cursor by it, and nothing changed; the other notes are those of
/// `Spool::mark`.
pub(crate) fn release<D: Disk>(spool: &mut Spool<D>, number: u64) -> Note
    requires within { number < end_of spool.old.memory }
    requires small { number < 2 ^ 63 }
    requires earned { D.may_release number }

    ensures known { IsReleaseNote result }
    ensures calls { Calls (result ≡ Note.DiskFault) (D.moment spool.old.disk) (D.moment spool.new.disk) }
    ensures released { (s : SpoolState) → D.tells → IsOpenIn s spool.old
        → Releases s number (D.moment spool.old.disk) (D.moment spool.new.disk) result }
{
    match spool.mark(&[Stretch {
        from: number,
        to: number + 1,
    }]) {
        Ok(()) => {
            if is_known(spool, number) {
                Note::Fine
            } else {
                Note::Full { need: 1, room: 0 }
            }
        }
        Err(fault) => confirm_note(fault),
    }
}
