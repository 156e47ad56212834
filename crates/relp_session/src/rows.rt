//! The receiver's table: what is done, by how far the session is and what a frame asks for.
ghost use Rattle.std.specs.Prelude.{◌≡◌};
ghost use Rattle.relp_frame.specs.declared.frame.Frame.{Frame};
ghost use Rattle.relp_session.specs.declared.state.State.TheVariants.{Unopened, Opened, Closed};
ghost use Rattle.relp_session.specs.declared.rows.Row.TheVariants.{Nothing};
ghost use Rattle.relp_session.specs.Answer.{act_of};
ghost use Rattle.relp_session.specs.Row.{act_in};

use crate::request::Request;
use crate::state::State;

const OFFERS: &[u8] = b"200 OK\nrelp_version=0\nrelp_software=bridge,1,local\ncommands=syslog";

/// What is done for a frame, its transaction number and its text aside.
#[derive(Clone, Copy)]
pub enum Row {
    /// The frame's event is to be stored.
    Store,
    /// A reply with this data is the answer.
    Say(&'static [u8]),
    /// The session is over: the answer is a reply without data, and the hint.
    Close,
    /// The session was over before.
    Nothing,
}

// The rows of a session that isn't open.
fn row_unopened(request: Request) -> Row
    ensures { (f : Frame) → act_in result f ≡ act_of Unopened request f }
{
    match request {
        Request::Open => Row::Say(OFFERS),
        Request::OpenOther => Row::Say(b"500 unsupported relp_version"),
        Request::Close => Row::Close,
        Request::Syslog | Request::Other => Row::Say(b"500 not open"),
    }
}

// The rows of a session that is open.
fn row_opened(request: Request) -> Row
    ensures { (f : Frame) → act_in result f ≡ act_of Opened request f }
{
    match request {
        Request::Open | Request::OpenOther => Row::Say(b"500 already open"),
        Request::Syslog => Row::Store,
        Request::Close => Row::Close,
        Request::Other => Row::Say(b"500 unknown command"),
    }
}

/// The row of the table.
pub fn row_of(state: State, request: Request) -> Row
    ensures act { (f : Frame) → act_in result f ≡ act_of state request f }
    ensures closed { state ≡ Closed → result ≡ Nothing }
{
    match state {
        State::Unopened => row_unopened(request),
        State::Opened => row_opened(request),
        State::Closed => Row::Nothing,
    }
}
