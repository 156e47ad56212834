//! How a move ended.
ghost use Rattle.std.specs.Prelude.{◌≡◌};
ghost use Rattle.notes.specs.Notes.{status_of};

use notes::Note;

/// How a move ended, and what it hands back.
#[derive(Drop)]
pub struct Moved<D, E> {
    /// The exit status of the program, by the note: 0 where all was moved.
    pub status: u8,
    /// Why it ended.
    pub note: Note,
    /// The disk of the spool whose entries were to be moved.
    pub source: D,
    /// The disk of the spool into which they were to be moved.
    pub target: E,
}

impl<D, E> Moved<D, E> {
    /// A move that ended so. The status is the note's.
    pub(crate) fn of(note: Note, source: D, target: E) -> Moved<D, E>
        ensures status { result.status ≡ status_of note }
        ensures note { result.note ≡ note }
        ensures source { result.source ≡ source }
        ensures target { result.target ≡ target }
    {
        Moved {
            status: note.status(),
            note,
            source,
            target,
        }
    }
}
