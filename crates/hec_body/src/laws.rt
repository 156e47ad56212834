//! What holds of bodies alone. These functions do nothing: each has a law as its contract.
ghost use Rattle.hec_body.specs.Events.{OneCut};
ghost use Rattle.hec_body.specs.Lines.{OneLineCut};
ghost use Rattle.hec_body.specs.Acks.{OneQuery};

/// An event body is one list of events or has one first fault, whatever is made of it; only the want of
/// memory can take the place of either.
pub fn one_cut()
    ensures { OneCut }
{}

/// A raw body is one list of lines or has one first fault, whatever is made of it; only the want of memory
/// can take the place of either.
pub fn one_line_cut()
    ensures { OneLineCut }
{}

/// An ack query asks for one list of ids.
pub fn one_query()
    ensures { OneQuery }
{}
