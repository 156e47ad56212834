//! What holds of the table alone. These functions do nothing: each has a law as its contract.
ghost use Rattle.hec_ids.specs.Laws.{OpenedIsSound, CallsKeepSound, IssuedIsNew, GoneStaysGone, ToldIsGone, SettledBySettle};

/// A new table is sound: it has at most 2^32 ids of its run, each held once, 10,000 a channel, and 1,000
/// channels hold some.
pub fn opened_is_sound()
    ensures { OpenedIsSound }
{}

/// A call leaves a sound table sound, of the same run, and the next id is never less than before.
pub fn calls_keep_sound()
    ensures { CallsKeepSound }
{}

/// An id that is issued is of the run, and no channel held it.
pub fn issued_is_new()
    ensures { IssuedIsNew }
{}

/// An id that was issued and is no longer held does not come back.
pub fn gone_stays_gone()
    ensures { GoneStaysGone }
{}

/// An id that was told true is held by no channel then, so it is told once.
pub fn told_is_gone()
    ensures { ToldIsGone }
{}

/// An id becomes settled by `settle` alone.
pub fn settled_by_settle()
    ensures { SettledBySettle }
{}
