//! How a skip ended.
ghost use Rattle.std.specs.Prelude.{◌≡◌};
ghost use Rattle.notes.specs.Notes.{status_of};

use notes::Note;

/// How a skip ended, and the disk that it hands back.
#[derive(Drop)]
pub struct Skipped<D> {
    /// The exit status of the program, by the note: 0 where the entry was printed and its number is known.
    pub status: u8,
    /// Why it ended.
    pub note: Note,
    /// The disk that was handed in.
    pub disk: D,
}

impl<D> Skipped<D> {
    /// A skip that ended so. The status is the note's.
    pub(crate) fn of(note: Note, disk: D) -> Skipped<D>
        ensures status { result.status ≡ status_of note }
        ensures note { result.note ≡ note }
        ensures disk { result.disk ≡ disk }
    {
        Skipped {
            status: note.status(),
            note,
            disk,
        }
    }
}
