//! How the program ended, and its exit status.
ghost use Rattle.std.specs.Prelude.{◌≡◌};
ghost use Rattle.std.specs.Process.{exit_status};
ghost use Rattle.cli_parts.specs.Ending.{note_in, status_in};

use notes::Note;
use std::process::ExitCode;

/// The status of a run that found FILE, or the TARGET of a move, in use.
const IN_USE: u8 = 80;

/// How the program ended.
#[derive(Clone, Copy, PartialEq, Eq)]
pub enum Ending {
    /// Its call ended with this note, or none was made, for this reason.
    Noted(Note),
    /// FILE, or the TARGET of a move, is in use, so that nothing was done: the same may go well a moment later.
    InUse,
    /// FILE, or the TARGET of a move, isn't opened, or stays as it is since its user said so. Standard error has a line that says why.
    Unopened,
}

impl Ending {
    /// Why it ended. A file that is in use, or isn't opened, is a fault of the disk.
    pub fn note(self) -> Note
        ensures { result ≡ note_in self }
    {
        match self {
            Ending::Noted(note) => note,
            Ending::InUse | Ending::Unopened => Note::DiskFault,
        }
    }

    // The exit status of the program.
    fn status(self) -> u8
        ensures { result ≡ status_in self }
    {
        match self {
            Ending::Noted(note) => note.status(),
            Ending::InUse => IN_USE,
            Ending::Unopened => Note::DiskFault.status(),
        }
    }
}

/// The exit code of a run that ended so.
pub fn exit_code(ending: Ending) -> ExitCode
    ensures status { exit_status result ≡ status_in ending }
{
    ExitCode::from(ending.status())
}
