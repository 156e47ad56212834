//! How a command ended that binds no door.
ghost use Rattle.std.specs.Prelude.{◌≡◌};

use notes::Note;

/// How a command ended that binds no door.
#[derive(Drop)]
pub struct Finished<D> {
    /// Why it ended. It gives the program's exit status.
    pub note: Note,
    /// The disk that was handed in.
    pub disk: D,
}

impl<D> Finished<D> {
    /// A command that ended so.
    pub(crate) fn of(note: Note, disk: D) -> Finished<D>
        ensures note { result.note ≡ note }
        ensures disk { result.disk ≡ disk }
    {
        Finished { note, disk }
    }
}
