//! A session of RELP.
ghost use Rattle.std.specs.Prelude.{◌≡◌, ◌+◌, ◌<◌, ◌≤◌, ◌^◌, [], length, Option, None, IfOk, IfErr, OnOk, IsErrOf, false, true};
ghost use Rattle.relp_frame.specs.Reading as stream;
ghost use Rattle.relp_frame.specs.Spelling.{IsSpelling};
ghost use Rattle.relp_frame.specs.declared.fault.RelpFault.{RelpFault as TheFault};
ghost use Rattle.relp_frame.specs.declared.limits.TheConstants.{ROOM};
ghost use Rattle.relp_session.specs.declared.state.State.TheVariants.{Unopened};
ghost use Rattle.stream_grammar.specs.Reading.{clear, held_of, Reads};
ghost use Rattle.desk_access.specs.Carried.{Carried};
ghost use Rattle.desk_access.specs.Endings.{IsAtMove};
ghost use Rattle.conn_serve.specs.Runs.{relp_runs};
ghost use Rattle.conn_serve.specs.Done.{Anyway, Done, Leads};
ghost use Rattle.conn_serve.specs.Endings.{CountsFaults};
ghost use Rattle.conn_serve.specs.Says.{CouldEnd, MaySay};
ghost use Rattle.conn_serve.specs.Memory.{need_of};
ghost use Rattle.conn_serve.specs.Terms.{most_of, runs_of};
ghost use Rattle.conn_serve.specs.Handled.{Served, Closing, ReadBy, IsIdle, GivesNext};
ghost use Rattle.conn_serve.specs.RelpServing.{Handles, IsStaged};

use super::act::serve_frame;
use super::run::Run;
use super::store::store_all;
use super::texts::Texts;
use crate::connection::Connection;
use crate::memory::{is_short, need_of};
use crate::session::Session;
use desk_access::Access;
use edge_io::Link;
use event_form::{Talk, Why};
use relp_frame::{RelpFault, RelpWindow};
use relp_session::RelpCore;
use std::alloc::{AllocError, Global};

// How many bytes of memory a connection takes at most: what a long read brings, the window, and a run of events with its answers.
const WHOLE: u64 = 524_288;

/// The window over the bytes, how far the session is, the memory for its texts, the run that is stored next, whether that
/// may have several events, and the fault that the window has met.
#[derive(Drop)]
pub struct RelpSession {
    window: RelpWindow,
    core: RelpCore,
    texts: Texts,
    run: Run,
    group: bool,
    fault: Option<RelpFault>,
}

// Serves the next whole frame, and says whether one waited. The error is the ending of the connection at
// this frame.
fn serve_next<L: Link, A: Access>(
    link: &mut L,
    access: &mut A,
    connection: &mut Connection,
    window: &mut RelpWindow,
    core: &mut RelpCore,
    texts: &mut Texts,
    run: &mut Run,
    group: bool,
) -> Result<bool, Talk>
    requires staged { IsStaged (most_of group) connection.old.number connection.old.taken run.old }
    requires early { connection.old.taken + length run.old < 2 ^ 62 }
    requires may { A.may_take access.old connection.old.number connection.old.taken }
    requires says { MaySay (A.ran access.old) (L.permits link.old) (L.taken link.old)
        (λ calls text. (fault : Option TheFault) → Leads connection.old.taken
        (Served (Handles (most_of group) connection.old.number core.old run.old) (ReadBy stream.relp IsSpelling window.old fault))
        (CouldEnd (Carried (relp_runs (most_of group) connection.old.number))) calls text) }

    ensures goes { (fault : Option TheFault) → OnOk result (Done (λ calls. A.ran access.old calls access.new) (L.taken link.old) (L.taken link.new)
        connection.old.taken connection.new.taken (Leads connection.old.taken
        (Served (Handles (most_of group) connection.old.number core.old run.old) (ReadBy stream.relp IsSpelling window.old fault))
        (Served (Handles (most_of group) connection.old.number core.new run.new) (ReadBy stream.relp IsSpelling window.new fault)))) }
    ensures halts { (fault : Option TheFault) → IfErr result (λ talk. Done (λ calls. A.ran access.old calls access.new) (L.taken link.old) (L.taken link.new)
        connection.old.taken connection.new.taken (Leads connection.old.taken
        (Served (Handles (most_of group) connection.old.number core.old run.old) (ReadBy stream.relp IsSpelling window.old fault))
        (Anyway (Carried (relp_runs (most_of group) connection.old.number)) talk))) }
    ensures staged { OnOk result (IsStaged (most_of group) connection.old.number connection.new.taken run.new) }
    ensures only { IfErr result IsAtMove }
    ensures idle { IfOk result (λ served. served ≡ false → IsIdle ROOM window.new) }
    ensures fewer { IfOk result (λ served. served ≡ true → length window.new.whole < length window.old.whole) }
    ensures extent { OnOk result (window.new.at + length window.new.rest ≡ window.old.at + length window.old.rest) }
    ensures number { connection.new.number ≡ connection.old.number }
    ensures may { OnOk result (A.may_take access.new connection.old.number connection.new.taken) }
    ensures writes { CountsFaults (IsErrOf result Talk.WriteFault) (L.write_faults link.old) (L.write_faults link.new) }
    ensures same { L.same link.old link.new }
    ensures apart { L.write_apart link.old link.new }
{
    let Some(lent) = window.next() else {
        return Ok(false);
    };
    serve_frame(link, access, connection, core, texts, run, group, lent)?;
    Ok(true)
}

impl RelpSession {
    /// A session that has met no byte, which stores runs if `group` says so. The only error is want of memory.
    pub fn new(alloc: Global, group: bool) -> Result<RelpSession, AllocError>
        ensures window { IfOk result (λ s. s.window ≡ clear) }
        ensures reads { IfOk result (λ s. Reads stream.relp IsSpelling [] [] s.window) }
        ensures core { IfOk result (λ s. s.core ≡ Unopened) }
        ensures group { IfOk result (λ s. s.group ≡ group) }
        ensures fault { IfOk result (λ s. s.fault ≡ None) }
    {
        Ok(RelpSession {
            window: RelpWindow::new(alloc)?,
            core: RelpCore::new(),
            texts: Texts::new(alloc),
            run: Run::new(alloc),
            group,
            fault: None,
        })
    }
}

impl Session for RelpSession {
    ghost terms = { λ s. runs_of (most_of s.group) };

    ghost served = { λ number s. Served (Handles (most_of s.group) number s.core []) (ReadBy stream.relp IsSpelling s.window s.fault) };

    ghost carried = { λ terms number. Carried (relp_runs terms.most number) };

    ghost closing = { λ number s. Closing (relp_runs (most_of s.group) number) (Handles (most_of s.group) number s.core []) };

    ghost idle = { λ s. IsIdle ROOM s.window };

    ghost settled = { λ s. IsIdle ROOM s.window × (s.fault ≡ None) };

    ghost extent = { λ s. s.window.at + length s.window.rest };

    ghost takes = { λ s asked more. need_of 524288 asked (held_of s.window + more) };

    fn need(&self, asked: usize, more: usize) -> u64 {
        need_of(WHOLE, asked, self.window.held(), more)
    }

    fn rest(&mut self, asked: usize) {
        if !is_short(asked) {
            return;
        }
        self.window.give_back();
    }

    ghost passes = { λ _. ⊥ };

    fn is_passing(&self) -> bool {
        false
    }

    fn feed(&mut self, piece: &[u8]) -> usize {
        match self.window.feed(piece) {
            Ok(taken) => taken,
            Err(fault) => {
                self.fault = Some(fault);
                piece.len()
            }
        }
    }

    fn serve<L: Link, A: Access>(
        &mut self,
        alloc: Global,
        link: &mut L,
        access: &mut A,
        connection: &mut Connection,
    ) -> Result<(), Talk> {
        let group = self.group;
        self.run.clear();
        'frames: while serve_next(
            link,
            access,
            connection,
            &mut self.window,
            &mut self.core,
            &mut self.texts,
            &mut self.run,
            group,
        )? {}
        store_all(link, access, connection, &mut self.texts, &mut self.run)
    }

    fn fault(&self) -> Option<Talk> {
        let fault = self.fault?;
        Some(Talk::Fault {
            at: fault.at,
            why: Why::from(fault.why),
        })
    }

    fn end(&self) -> Talk {
        match self.window.rest_at() {
            None => Talk::Ended,
            Some(at) => Talk::Truncated { at },
        }
    }

    fn finish<L: Link, A: Access>(
        &mut self,
        link: &mut L,
        access: &mut A,
        connection: &mut Connection,
        over: Talk,
    ) -> Result<(), Talk> {
        Ok(())
    }
}
