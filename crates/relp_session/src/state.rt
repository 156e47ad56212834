//! How far a session is.
ghost use Rattle.std.specs.Prelude.{◌≡◌};
ghost use Rattle.relp_session.specs.State.{next};

use crate::request::Request;

/// How far a session is (rsyslog's RELP specification, COMMAND SEMANTICS, "open" and "close"): the
/// client opens it once, and closes it once.
#[derive(Clone, Copy, PartialEq, Eq)]
pub enum State {
    /// No `open` was accepted so far.
    Unopened,
    /// An `open` was accepted.
    Opened,
    /// A `close` came: no command is taken any more.
    Closed,
}

/// The state after a frame that asks for this.
pub fn next_state(state: State, request: Request) -> State
    ensures { result ≡ next state request }
{
    match state {
        State::Unopened => match request {
            Request::Open => State::Opened,
            Request::Close => State::Closed,
            _ => State::Unopened,
        },
        State::Opened => match request {
            Request::Close => State::Closed,
            _ => State::Opened,
        },
        State::Closed => State::Closed,
    }
}
