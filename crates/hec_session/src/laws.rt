//! What holds of the checks alone. The function does nothing: it has a law as its contract.
ghost use Rattle.hec_session.specs.OneAct.{OneAct};

use hec_body::{one_cut, one_line_cut, one_query};

/// A request has one act for a receiver's tokens: one list of events, one list of ids, or one reply. Only
/// the want of memory can take its place.
pub fn one_act()
    ensures { OneAct }
{
    one_cut();
    one_line_cut();
    one_query();
}
