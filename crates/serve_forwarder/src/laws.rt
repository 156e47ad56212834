//! What holds of looks and of their sessions. These functions do nothing: each has a law as its contract.
ghost use Rattle.serve_forwarder.specs.Laws.{ClosedIsReadOut, LooksBindNone, LooksCall, LooksKeepCounts, LooksTell};

use desk_seats::Seat;

/// The calls that looks made on the desk, one look's after another's, are all that their pass made from the first moment of these
/// looks to the last.
pub fn looks_are_of_their_calls<S: Seat>()
    ensures { LooksCall S.start }
{}

/// Where a net keeps a list of the links that were hung up, looks add to it one link for each of their sessions, in order, with the
/// bytes that were read and written in the session.
pub fn looks_tell_their_sessions<S: Seat>()
    ensures { LooksTell S.start }
{}

/// Over looks no count of faults of the net falls. So a fault that one of them met is still counted after the last.
pub fn looks_keep_counts<S: Seat>()
    ensures { LooksKeepCounts S.start }
{}

/// Looks bind no door: what the net tells of the doors that were bound is as before.
pub fn looks_bind_none<S: Seat>()
    ensures { LooksBindNone S.start }
{}

/// Where a session ended as `PeerClosed`, the bytes read have a frame by which the peer says that it closes the session, as a peer of
/// RELP can (`serverclose`), or the peer's bytes were read to their end: the net reports that no byte of the link is left unread.
pub fn closed_links_are_read_out<S: Seat>()
    ensures { ClosedIsReadOut S.start }
{}
