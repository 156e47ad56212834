//! What holds of ids alone. This function does nothing: it has a law as its contract.
ghost use Rattle.spool_turns.specs.Issuing.{IdsOfRunsDiffer};

/// An id is of one run. So no id that was issued in one opening is issued in another, where each raised the run.
pub fn ids_of_runs_differ()
    ensures { IdsOfRunsDiffer }
{}
