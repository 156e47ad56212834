//! How a rescue ended.
ghost use Rattle.std.specs.Prelude.{◌≡◌};
ghost use Rattle.notes.specs.Notes.{status_of};

use crate::fault::SlotFault;
use crate::gaps::Span;
use notes::Note;

/// What was found on a device whose slots were looked at.
#[derive(Drop)]
pub struct Report {
    /// How many slots it has.
    pub slots: u32,
    /// How many of them are sound.
    pub sound: u32,
    /// Those that are at fault, in order of place. All others are closed.
    pub faults: Vec<SlotFault>,
    /// The numbers between the entries that were found that none of these has, in order.
    pub gaps: Vec<Span>,
    /// How many entries were found, where all of them were printed, or stored into another spool: those of the sound slots, and those
    /// before the fault of each slot that is broken.
    pub printed: Option<u64>,
}

/// How a rescue ended, and the disk that it hands back.
#[derive(Drop)]
pub struct Rescued<D> {
    /// The exit status of the program, by the note: 0 where each slot is sound or closed, no number is missing between
    /// them, and all entries were printed.
    pub status: u8,
    /// Why it ended.
    pub note: Note,
    /// What was found, where the slots were looked at.
    pub report: Option<Report>,
    /// The disk that was handed in.
    pub disk: D,
}

impl<D> Rescued<D> {
    /// A rescue that ended so. The status is the note's.
    pub(crate) fn of(note: Note, report: Option<Report>, disk: D) -> Rescued<D>
        ensures status { result.status ≡ status_of note }
        ensures note { result.note ≡ note }
        ensures report { result.report ≡ report }
        ensures disk { result.disk ≡ disk }
    {
        Rescued {
            status: note.status(),
            note,
            report,
            disk,
        }
    }
}
