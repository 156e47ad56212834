//! The receiver's side of a session.
ghost use Rattle.std.specs.Prelude.{◌≡◌, ◌≢◌, ◌↔◌, List, [], ◌∷◌, ◌++◌, Ok, OnOk, OnErr, IfOk};
ghost use Rattle.relp_frame.specs.declared.frame.Frame.{Frame};
ghost use Rattle.relp_frame.specs.Machine.{frame};
ghost use Rattle.relp_frame.specs.Spelling.{IsFrame};
ghost use Rattle.relp_session.specs.declared.act.RelpAct.TheVariants.{End};
ghost use Rattle.relp_session.specs.declared.state.State.TheVariants.{Unopened, Closed};
ghost use Rattle.relp_session.specs.State.{IsNext};
ghost use Rattle.relp_session.specs.Answer.{HasText, IsAnswer, IsEnd, IsSound, act_of};
ghost use Rattle.relp_session.specs.Row.{act_lent};
ghost use Rattle.relp_session.specs.Session.{state_after};

use crate::act::{RelpAct, RelpActRef};
use crate::reply::{closing_reply, reply};
use crate::request::{Request, request_in, request_of};
use crate::rows::{Row, row_of};
use crate::state::{State, next_state};
use event_form::{Blob, Event, Origin};
use relp_frame::{Frame, FrameRef};
use std::alloc::{AllocError, Global};
use std::marker::Model;

/// The receiver's side of one session (rsyslog's RELP specification, COMMAND SEMANTICS). Contracts
/// see how far the session is.
#[derive(Drop)]
pub struct RelpCore {
    state: State,
}

impl Model for RelpCore {
    ghost use Rattle.relp_session.specs.declared.state.State.{State};

    ghost Value = { State };

    ghost view = { λ core. core.state };
}

// What is done for a frame in this state.
fn act_for(
    alloc: Global,
    state: State,
    request: Request,
    frame: Frame,
) -> Result<RelpAct, AllocError>
    ensures value { IfOk result (λ act. act ≡ act_of state request frame) }
    ensures closed { state ≡ Closed → result ≡ Ok (End []) }
{
    let txnr = frame.txnr;
    match row_of(state, request) {
        Row::Store => Ok(RelpAct::Store {
            event: Event {
                origin: Origin::Relp,
                text: frame.body,
            },
            txnr,
        }),
        Row::Say(text) => Ok(RelpAct::Say(reply(alloc, txnr, text)?)),
        Row::Close => Ok(RelpAct::End(closing_reply(alloc, txnr)?)),
        Row::Nothing => Ok(RelpAct::End(Blob::of(Vec::new(alloc)))),
    }
}

// What is done for a frame that is lent.
fn act_for_lent(state: State, request: Request, lent: FrameRef<'_>) -> RelpActRef<'_>
    ensures { act_lent result ≡ act_of state request (frame lent.entry.txnr lent.entry.command.now lent.entry.body.now) }
{
    let txnr = lent.txnr;
    match row_of(state, request) {
        Row::Store => RelpActRef::Store {
            text: lent.body,
            txnr,
        },
        Row::Say(text) => RelpActRef::Say { text, txnr },
        Row::Close => RelpActRef::Close { txnr },
        Row::Nothing => RelpActRef::Nothing,
    }
}

impl RelpCore {
    /// A session that isn't open. It takes no memory.
    pub fn new() -> RelpCore
        ensures { result ≡ Unopened }
    {
        RelpCore {
            state: State::Unopened,
        }
    }

    /// What is done for the next frame, by the table of states. An event that is to be stored has
    /// the frame's body as its text. The answer to a `close` is the last: after it each frame is
    /// answered by `End` with an empty text, which takes no memory.
    ///
    /// The only error is want of memory. After it the session is as before, and the frame is given
    /// up.
    pub fn step(&mut self, alloc: Global, frame: Frame) -> Result<RelpAct, AllocError>
        requires { IsFrame frame }
        ensures answer { IfOk result (IsAnswer self.old frame) }
        ensures sound { IfOk result IsSound }
        ensures written { self.old ≢ Closed → IfOk result HasText }
        ensures closed { self.old ≡ Closed → result ≡ Ok (End []) }
        ensures next { OnOk result (IsNext self.old frame self.new) }
        ensures after { OnOk result ((before : List Frame) → self.old ≡ state_after before → self.new ≡ state_after (before ++ frame ∷ [])) }
        ensures ends { IfOk result (λ act. IsEnd act ↔ (self.new ≡ Closed)) }
        ensures err { OnErr result (self.new ≡ self.old) }
    {
        let request = request_of(&frame);
        let act = act_for(alloc, self.state, request, frame)?;
        self.state = next_state(self.state, request);
        Ok(act)
    }

    /// What is done for the next frame, which a window lends: the same as `step` does, with the
    /// texts left where they are. It takes no memory.
    pub fn step_lent<'a>(&mut self, lent: FrameRef<'a>) -> RelpActRef<'a>
        requires { IsFrame (frame lent.txnr lent.command.now lent.body.now) }
        ensures answer { IsAnswer self.old (frame lent.entry.txnr lent.entry.command.now lent.entry.body.now) (act_lent result) }
        ensures sound { IsSound (act_lent result) }
        ensures next { IsNext self.old (frame lent.entry.txnr lent.entry.command.now lent.entry.body.now) self.new }
        ensures after { (before : List Frame) → self.old ≡ state_after before
            → self.new ≡ state_after (before ++ frame lent.entry.txnr lent.entry.command.now lent.entry.body.now ∷ []) }
        ensures ends { IsEnd (act_lent result) ↔ (self.new ≡ Closed) }
    {
        let request = request_in(lent.command, lent.body);
        let act = act_for_lent(self.state, request, lent);
        self.state = next_state(self.state, request);
        act
    }
}
