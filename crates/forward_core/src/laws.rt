//! What holds of sessions alone. These functions do nothing: each has a law as its contract.
ghost use Rattle.forward_core.specs.Laws.{AcknowledgesLeft, KnownAfter, OnlyMarkedIsKnown, RestIsLeft, SendsLeft, ToldIsGone};

/// After a session of which the desk refused no call, and with no other caller, the cursor and the stretches above it
/// are those from before, with what the session marked.
pub fn marks_are_known()
    ensures { KnownAfter }
{}

/// A session from the cursor to the end, with no other caller, sends the entries that weren't known as confirmed at its
/// start, in order: its table of endings is that of all of them.
pub fn session_sends_what_is_left()
    ensures { SendsLeft }
{}

/// With no other caller, a number that a session may mark was known at its start, or is that of an entry that the peer has
/// acknowledged by then: one of those that the protocol's table counts, of all entries that weren't known.
pub fn marks_are_acknowledged()
    ensures { AcknowledgesLeft }
{}

/// Whatever the ending, no number becomes known but those that the session marked, or was refused to mark. The entries
/// stay.
pub fn only_marked_is_known()
    ensures { OnlyMarkedIsKnown }
{}

/// After a session of which the desk refused no call, those entries are left for the next one that didn't become known,
/// in order.
pub fn session_leaves_the_rest()
    ensures { RestIsLeft }
{}

/// After a session that was not halted, the first entries that are acknowledged are gone from what is left for the next
/// one. Where the peer acknowledged entries in order alone, what is left is all others, in order; after `Drained`, none.
pub fn acknowledged_entries_are_gone()
    ensures { ToldIsGone }
{}
