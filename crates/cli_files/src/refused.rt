//! Files that aren't opened.
ghost use Rattle.std.specs.Prelude.{◌≡◌, ◌⊎◌, ◌↔◌};
ghost use Rattle.notes.specs.declared.note.Note.TheVariants.{DiskFault, NoMemory};
ghost use Rattle.edge_file.specs.declared.open_fault.OpenFault.TheVariants as OpenFault;
ghost use Rattle.cli_parts.specs.declared.status.Ending.TheVariants as Ending;
ghost use Rattle.cli_parts.specs.Ending.{note_in};

use cli_parts::{Ending, Host, print_note, print_unopened};
use edge_file::{OpenFault, PairFault};
use notes::Note;

/// Says why the file wasn't opened, and ends with that: `InUse` where it is in use, `NoMemory` where no memory was found, and else
/// `Unopened`.
pub fn refuse(host: Host<'_>, file: &str, fault: OpenFault) -> Ending
    ensures note { (note_in result ≡ DiskFault) ⊎ (note_in result ≡ NoMemory) }
    ensures in_use { (result ≡ Ending.InUse) ↔ (fault ≡ OpenFault.InUse) }
    ensures said { (result ≡ Ending.Unopened) ⊎ ((result ≡ Ending.InUse) ⊎ (note_in result ≡ NoMemory)) }
    ensures memory { (note_in result ≡ NoMemory) ↔ (fault ≡ OpenFault.NoMemory) }
{
    match fault {
        OpenFault::InUse => {
            print_unopened(host.rt, &host, file, fault);
            Ending::InUse
        }
        OpenFault::NoMemory => Ending::Noted(Note::NoMemory),
        _ => {
            print_unopened(host.rt, &host, file, fault);
            Ending::Unopened
        }
    }
}

/// Says why the two files weren't opened, and ends with that. One file as both is a fault of the disk.
pub(crate) fn refuse_pair(host: Host<'_>, file: &str, target: &str, fault: PairFault) -> Ending
    ensures { (note_in result ≡ DiskFault) ⊎ (note_in result ≡ NoMemory) }
{
    match fault {
        PairFault::First(fault) => refuse(host, file, fault),
        PairFault::Second(fault) => refuse(host, target, fault),
        PairFault::OneFile => {
            let _ = eprintln!(host; "bridge: {file} and {target} are one file");
            Ending::Unopened
        }
    }
}

/// Prints the note with which no file was opened. Where a line has said why it isn't, there is none.
pub(crate) fn print_refused(host: Host<'_>, ending: Ending) {
    if let Ending::Noted(note) = ending {
        print_note(&(host, host.rt.alloc()), note);
    }
}
