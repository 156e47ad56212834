//! What holds of journals alone. These functions do nothing: each has a law as its contract.
ghost use Rattle.desk_access.specs.Laws.{OneState, JournalLasts, StoodWas, LegalJournal, ToldWasTaken};

/// A journal leads from a state to one state: what its records say pins it.
pub fn journal_leads_to_one_state()
    ensures { OneState }
{}

/// Whatever state stands after a journal is a later one. It has each group that was taken, whole, or has
/// passed it by its cursor, and its list grew by what the calls added, in order.
pub fn journal_lasts()
    ensures { JournalLasts }
{}

/// What a crash leaves on the way of a journal stands for a later state, with what the first of its calls
/// had added, and perhaps the whole group of the one that came next.
pub fn stood_was()
    ensures { StoodWas }
{}

/// What a journal adds is in order, where each caller makes the calls that it may make: each connection has
/// its indexes from 0 on, and the entries of an id are one group.
pub fn journal_is_legal()
    ensures { LegalJournal }
{}

/// An id that an answer tells true had its group taken before.
pub fn told_was_taken()
    ensures { ToldWasTaken }
{}
