//! What follows from the contract of `load_run::load` alone. The function does nothing but cite another law: its contract is the law.
ghost use Rattle.load_laws.specs.Loads.{LoadsAll};

use conn_serve::runs_of_one;

/// A load by any protocol, of 100,000 events at most, comes to its numbers: as many events were stored as were asked for, as many are
/// confirmed, and none is left. Nothing but want of memory is in its way: its stream has no fault, its spool room for each event, and its
/// peer confirms them all.
pub fn load_comes_to_its_numbers()
    ensures { LoadsAll }
{
    runs_of_one()
}
