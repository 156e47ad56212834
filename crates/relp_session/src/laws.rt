//! What holds of the table alone. These functions do nothing: each has a law as its contract.
ghost use Rattle.relp_session.specs.Answer.{OneAnswer};
ghost use Rattle.relp_session.specs.Session.{ActsByFrames, EndsAtClose, EndsWhenClosed, OpenedByOne, StateOn};

/// Over the frames of any list, what a receiver does for them one after another is each time the
/// table's row, by how far the frames before have brought the session.
pub fn acts_by_frames()
    ensures { ActsByFrames }
{}

/// For each frame, in each state, there is exactly one act and one next state.
pub fn one_answer()
    ensures { OneAnswer }
{}

/// A `close` ends the list: what is done is done for the frames up to it, and after it nothing is
/// stored and nothing is written, whatever frames come.
pub fn ends_at_close()
    ensures { EndsAtClose }
{}

/// The connection ends by an act exactly where the session is closed after it.
pub fn ends_when_closed()
    ensures { EndsWhenClosed }
{}

/// The state after some frames and one more is the next one of the state after them, by that frame.
pub fn state_on()
    ensures { StateOn }
{}

/// A session that is open was opened by one frame: an `open` in the version that is spoken here,
/// which found it neither open nor closed.
pub fn opened_by_one()
    ensures { OpenedByOne }
{}
