//! How a run ended.
ghost use Rattle.std.specs.Prelude.{◌≡◌, []};
ghost use Rattle.notes.specs.Notes.{status_of};

use notes::Note;
use std::alloc::Global;

/// How a run ended, and what it hands back.
#[derive(Drop)]
pub struct Ended<D, P> {
    /// The exit status of the program, by the note: 0 where all was done.
    pub status: u8,
    /// Why it ended.
    pub note: Note,
    /// The disk that was handed in.
    pub disk: D,
    /// The doors that were bound, each with the connections that were given back to it, also where no worker began. `serve` alone binds
    /// any.
    pub doors: Vec<P>,
}

impl<D, P> Ended<D, P> {
    /// A run that bound no door and ended so. The status is the note's.
    pub(crate) fn of(alloc: Global, note: Note, disk: D) -> Ended<D, P>
        ensures status { result.status ≡ status_of note }
        ensures note { result.note ≡ note }
        ensures disk { result.disk ≡ disk }
        ensures doors { result.doors.items ≡ [] }
    {
        Ended {
            status: note.status(),
            note,
            disk,
            doors: Vec::new(alloc),
        }
    }
}
