//! How a rescue into another spool ended.
ghost use Rattle.std.specs.Prelude.{◌≡◌};
ghost use Rattle.notes.specs.Notes.{status_of};

use bridge_rescue::Report;
use notes::Note;

/// How a rescue into another spool ended, and the disks that it hands back.
#[derive(Drop)]
pub struct Restored<D, E> {
    /// The exit status of the program, by the note: 0 where each slot is sound or closed, no number is missing between them, and all entries
    /// were stored.
    pub status: u8,
    /// Why it ended.
    pub note: Note,
    /// What was found, where the slots were looked at.
    pub report: Option<Report>,
    /// How many entries the other spool has taken: the first of those that were found.
    pub stored: u64,
    /// The disk from which entries were rescued.
    pub disk: D,
    /// The disk of the spool into which they were stored.
    pub target: E,
}

impl<D, E> Restored<D, E> {
    /// A rescue that ended so. The status is the note's.
    pub(crate) fn of(
        note: Note,
        report: Option<Report>,
        stored: u64,
        disk: D,
        target: E,
    ) -> Restored<D, E>
        ensures status { result.status ≡ status_of note }
        ensures note { result.note ≡ note }
        ensures report { result.report ≡ report }
        ensures stored { result.stored ≡ stored }
        ensures disk { result.disk ≡ disk }
        ensures target { result.target ≡ target }
    {
        Restored {
            status: note.status(),
            note,
            report,
            stored,
            disk,
            target,
        }
    }
}
