//! How the journal of a run ends.
ghost use Rattle.spool_turns.specs.Replays.{desk_at};
ghost use Rattle.serve_desk.specs.Serving.{seating_as};
ghost use Rattle.serve_laws.specs.Last.{LastLookIsLast};

use edge_disk::Disk;
use spool_desk::Desk;
use spool_turns::Naming;

/// The last look of a run that forwards comes last of all: by then the forwarder has seen all that the workers did, and they do no
/// more. So the journal ends with the look's calls. Where the desk refused one of them, that refusal is the answer of the journal's
/// last record. Where the dial failed, the last record is the look's question, and an entry was pending. Where a session was held, it
/// was to send all entries up to the end of the list.
pub fn last_look_is_last<D: Disk, J: Naming>(_desk: &Desk<D>)
    ensures { LastLookIsLast D.tells J.start (seating_as J.run J.seats J.began) (desk_at _desk.now) }
{}
