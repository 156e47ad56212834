//! What holds of sessions beside other callers. These functions do nothing: each has a law as its contract.
ghost use Rattle.spool_turns.specs.Replays.{desk_at};
ghost use Rattle.serve_desk.specs.Serving.{seating_as};
ghost use Rattle.session_laws.specs.Laws.{SendsAmongOthers, ToldIsKnown};
ghost use Rattle.session_laws.specs.Run.{SessionsOfRun};
ghost use Rattle.session_laws.specs.Sessions.{OnlyTheirMarksAreKnown, OnlyToldIsKnown, SessionsFollow};

use edge_disk::Disk;
use spool_desk::Desk;
use spool_turns::Naming;

/// A session beside other callers sends, in order, those entries of the whole list that weren't known at its start, up to the end
/// that the desk gave as it began. The whole list is that of the spool at the session's start, with all that was added meanwhile. The
/// protocol's table of endings holds of all these entries. If the session made a call it began at the cursor.
///
/// Afterwards those numbers are known that were known before and those that the session marked, and no others. Where its last mark was
/// refused, that one's numbers are known too, or not at all.
pub fn session_among_others()
    ensures { SendsAmongOthers }
{}

/// After a session that was not halted the first entries that the peer acknowledged are known. A session is halted where the desk
/// refuses a call or memory is wanting. Where the peer acknowledged entries in order alone, none of the others is known. After
/// `Drained` all entries that the session was to send are known, and each entry of the whole list below its end.
pub fn acknowledged_entries_are_known()
    ensures { ToldIsKnown }
{}

/// The sessions of a forwarder in the one journal of a desk were held one after another over one whole list, which is the list at the
/// opening with all that was added. Each sent what the one before had left unknown, from the cursor up to its end, and that was one
/// entry at least if it made a call. The forwarder's calls in the journal are those of its looks.
pub fn sessions_follow_one_another<J: Naming>()
    ensures { SessionsFollow J.start }
{}

/// So it is in a run of the server that forwards, of all its looks in order, with the last one, which comes after the workers have
/// ended. Nobody else marks or confirms: the marks of the one journal are those of these sessions.
pub fn sessions_of_a_run<D: Disk, J: Naming>(_desk: &Desk<D>)
    ensures { SessionsOfRun D.tells J.start (seating_as J.run J.seats J.began) (desk_at _desk.now) }
{}

/// No number is known after sessions but those that were known before them, and those that they marked or were refused to mark.
pub fn only_marked_is_known()
    ensures { OnlyTheirMarksAreKnown }
{}

/// An entry of the whole list that is known after sessions was known before them, or the peer of one of them acknowledged it: it
/// stands in that session's list at a place that was reported as acknowledged.
pub fn only_told_is_known()
    ensures { OnlyToldIsKnown }
{}
