//! What is done for one frame of RELP.
ghost use Rattle.std.specs.Prelude.{◌≡◌, ◌+◌, ◌<◌, ◌≤◌, ◌^◌, ℕ, List, [], ◌∷◌, ◌++◌, length, OnOk, IfErr, IsErrOf};
ghost use Rattle.std.specs.Io.KnownBytes.{Appends};
ghost use Rattle.edge_io.specs.Told.{MayFollow};
ghost use Rattle.relp_frame.specs.Machine.{frame};
ghost use Rattle.relp_frame.specs.declared.frame.Frame.{Frame};
ghost use Rattle.relp_frame.specs.Spelling.{IsFrame};
ghost use Rattle.relp_session.specs.Row.{act_lent, answer_text};
ghost use Rattle.relp_session.specs.Session.{state_after};
ghost use Rattle.desk_access.specs.Endings.{IsAtMove};
ghost use Rattle.conn_serve.specs.Relp.{Carries};
ghost use Rattle.conn_serve.specs.Says.{MaySay};
ghost use Rattle.conn_serve.specs.Done.{Done, LeadsBy};
ghost use Rattle.conn_serve.specs.Endings.{CountsFaults};
ghost use Rattle.conn_serve.specs.Terms.{most_of};
ghost use Rattle.conn_serve.specs.RelpServing.{CouldEndWithin, EndsWithin, HaltsAtAct, Handles, IsStaged, StoresNothing};

use super::run::Run;
use super::store::{stage, store_all};
use super::texts::Texts;
use crate::connection::Connection;
use crate::talk::say;
use desk_access::Access;
use edge_io::Link;
use event_form::Talk;
use relp_frame::FrameRef;
use relp_session::{RelpActRef, RelpCore};

// Answers a frame that stores nothing. The error is the ending of the connection.
fn answer<L: Link>(link: &mut L, texts: &mut Texts, act: RelpActRef<'_>) -> Result<(), Talk>
    requires nothing { StoresNothing (act_lent act) }
    requires permitted { MayFollow (L.permits link.old) (L.taken link.old) (answer_text act) }

    ensures goes { OnOk result ((text : List ℕ) × Appends (L.taken link.old) (L.taken link.new) text
        × ((conn index : ℕ) → Carries conn index (act_lent act.entry) [] text)) }
    ensures halts { IfErr result (λ talk. (part : List ℕ) × Appends (L.taken link.old) (L.taken link.new) part
        × ((conn index : ℕ) → HaltsAtAct conn index (act_lent act.entry) talk [] part)) }
    ensures only { IfErr result IsAtMove }
    ensures writes { CountsFaults (IsErrOf result Talk.WriteFault) (L.write_faults link.old) (L.write_faults link.new) }
    ensures same { L.same link.old link.new }
    ensures apart { L.write_apart link.old link.new }
{
    if texts.spell(act).is_err() {
        return Err(Talk::NoMemory);
    }
    match act {
        RelpActRef::Store { .. } => unreachable!(),
        RelpActRef::Say { .. } => say(link, &texts.answer),
        RelpActRef::Close { .. } => match say(link, &texts.answer) {
            Ok(()) => Err(Talk::Closed),
            Err(talk) => Err(talk),
        },
        RelpActRef::Nothing => Err(Talk::Closed),
    }
}

/// Does what the session's table says for the next frame: stages its event, or stores and answers what is staged and then
/// answers the frame. The error is the ending of the connection.
pub fn serve_frame<L: Link, A: Access>(
    link: &mut L,
    access: &mut A,
    connection: &mut Connection,
    core: &mut RelpCore,
    texts: &mut Texts,
    run: &mut Run,
    group: bool,
    lent: FrameRef<'_>,
) -> Result<(), Talk>
    requires frame { IsFrame (frame lent.txnr lent.command.now lent.body.now) }
    requires staged { IsStaged (most_of group) connection.old.number connection.old.taken run.old }
    requires early { connection.old.taken + length run.old < 2 ^ 62 }
    requires may { A.may_take access.old connection.old.number connection.old.taken }
    requires says { MaySay (A.ran access.old) (L.permits link.old) (L.taken link.old) (LeadsBy connection.old.taken
        (Handles (most_of group) connection.old.number core.old run.old)
        (λ frames. CouldEndWithin (most_of group) connection.old.number (frames ++ frame lent.txnr lent.command.now lent.body.now ∷ []))) }

    ensures goes { OnOk result (Done (λ calls. A.ran access.old calls access.new) (L.taken link.old) (L.taken link.new)
        connection.old.taken connection.new.taken (LeadsBy connection.old.taken
        (Handles (most_of group) connection.old.number core.old run.old)
        (λ frames. Handles (most_of group) connection.old.number core.new run.new (frames ++ frame lent.entry.txnr lent.entry.command.now lent.entry.body.now ∷ [])))) }
    ensures halts { IfErr result (λ talk. Done (λ calls. A.ran access.old calls access.new) (L.taken link.old) (L.taken link.new)
        connection.old.taken connection.new.taken (LeadsBy connection.old.taken
        (Handles (most_of group) connection.old.number core.old run.old)
        (λ frames. EndsWithin (most_of group) connection.old.number talk (frames ++ frame lent.entry.txnr lent.entry.command.now lent.entry.body.now ∷ [])))) }
    ensures staged { OnOk result (IsStaged (most_of group) connection.old.number connection.new.taken run.new) }
    ensures only { IfErr result IsAtMove }
    ensures number { connection.new.number ≡ connection.old.number }
    ensures may { OnOk result (A.may_take access.new connection.old.number connection.new.taken) }
    ensures writes { CountsFaults (IsErrOf result Talk.WriteFault) (L.write_faults link.old) (L.write_faults link.new) }
    ensures same { L.same link.old link.new }
    ensures apart { L.write_apart link.old link.new }
{
    let act = core.step_lent(lent);
    match act {
        RelpActRef::Store { text, txnr } => {
            stage(link, access, connection, texts, run, group, text, txnr)
        }
        RelpActRef::Say { .. } | RelpActRef::Close { .. } | RelpActRef::Nothing => {
            store_all(link, access, connection, texts, run)?;
            answer(link, texts, act)
        }
    }
}
