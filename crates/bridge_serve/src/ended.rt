//! How a server's run ended.
ghost use Rattle.std.specs.Prelude.{◌≡◌, []};

use notes::Note;
use std::alloc::Global;

/// How a server's run ended: why, the disk that was handed in, and the doors that were bound.
#[derive(Drop)]
pub struct Over<D, P> {
    /// Why it ended. It gives the program's exit status.
    pub note: Note,
    /// The disk that was handed in, with the spool as the run left it.
    pub disk: D,
    /// The doors that were bound, in the order of their workers, each with the connections that were given back to it. Where no worker
    /// began there are those that were bound till then, with no link accepted.
    pub doors: Vec<P>,
}

impl<D, P> Over<D, P> {
    /// A run in which no door was bound.
    pub(crate) fn unserved(alloc: Global, note: Note, disk: D) -> Over<D, P>
        ensures note { result.note ≡ note }
        ensures disk { result.disk ≡ disk }
        ensures doors { result.doors.items ≡ [] }
    {
        Over {
            note,
            disk,
            doors: Vec::new(alloc),
        }
    }
}
