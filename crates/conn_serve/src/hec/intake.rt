//! The bytes of a connection, as requests of the collector. A body that is refused whatever it holds is read past.
ghost use Rattle.std.specs.Prelude.{◌≡◌, ◌+◌, ◌<◌, ◌≤◌, ◌^◌, length, IfOk, IfErr, IfSome, IfNone, OnErr, MatchOption};
ghost use Rattle.event_form.specs.declared.talk.Talk.TheVariants.{NoMemory};
ghost use Rattle.http_edge.specs.Window.{Reads, clear, held_of};
ghost use Rattle.conn_serve.specs.HecServing.{GivesAsked, IsSoundAsked};

use super::asked::Asked;
use event_form::{FeedFault, Talk};
use hec_session::{HecAct, HecCore, HecSay};
use http_edge::{HttpFault, HttpWindow, ItemRef, PastBody, Way};
use std::alloc::{AllocError, Global};

/// A request that is refused whatever its body is, and whose body is read past.
#[derive(Drop)]
pub struct Refused {
    /// It and its body, up to its end.
    pub past: PastBody,
    /// Its answer.
    pub reply: HecSay,
    /// Whether the connection ends with the answer.
    pub closing: bool,
    /// Whether it has ended, and waits for its answer.
    pub ended: bool,
}

/// The window over the bytes, and the request under way that left it since its body isn't wanted.
#[derive(Drop)]
pub struct Intake {
    pub window: HttpWindow,
    pub refused: Option<Refused>,
    /// Whether the window's unfinished request was found to be wanted.
    pub wanted: bool,
}

// What the next item in the window asks for, if one waits. The error is want of memory.
fn next_held(window: &mut HttpWindow, alloc: Global, core: &HecCore) -> Result<Option<Asked>, Talk>
    ensures gives { IfOk result (λ asked. GivesAsked core.now window.old asked window.new) }
    ensures sound { IfOk result (λ asked. IfSome asked IsSoundAsked) }
    ensures starved { IfErr result (λ talk. talk ≡ NoMemory) }
{
    let Some(item) = window.next() else {
        return Ok(None);
    };
    match item {
        ItemRef::Continue => Ok(Some(Asked::Leave)),
        ItemRef::Request { head, body } => {
            let closing = head.closes();
            match core.act(alloc, head, body) {
                Ok(act) => Ok(Some(Asked::Act { act, closing })),
                Err(_) => Err(Talk::NoMemory),
            }
        }
    }
}

impl Intake {
    ghost use Rattle.std.specs.Prelude.{[], Some, None, IsSome, OnOk};
    ghost use Rattle.conn_serve.specs.HecReading.{FeedsKept, GivesKept, IsLeft, IsOpen, IsSound, TellsRest, WasRead, extent_of, waits_of};

    /// Nothing was read. The only error is want of memory.
    pub fn new(alloc: Global) -> Result<Intake, AllocError>
        ensures window { IfOk result (λ i. i.window ≡ clear) }
        ensures reads { IfOk result (λ i. Reads [] [] i.window) }
        ensures refused { IfOk result (λ i. i.refused ≡ None) }
    {
        Ok(Intake {
            window: HttpWindow::new(alloc)?,
            refused: None,
            wanted: false,
        })
    }

    // Reads a piece past the body of the request that is refused.
    fn pass(&mut self, piece: &[u8]) -> Result<usize, FeedFault<HttpFault>>
        requires some { IsSome self.old.refused }
        requires going { IsOpen self.old.window self.old.refused }
        requires fits { extent_of self.old + length piece.now ≤ 2 ^ 40 }
        ensures feeds { FeedsKept self.old piece.now result self.new }
        ensures within { IfOk result (λ n. n ≤ length piece.now) }
        ensures some { IfOk result (λ n. held_of self.old.window < 1064960 → 0 < length piece.now → 0 < n) }
        ensures extent { IfOk result (λ n. extent_of self.new ≤ extent_of self.old + n) }
        ensures faulty { IfErr result (λ _. extent_of self.new ≤ extent_of self.old + length piece.now) }
    {
        let Some(mut refused) = self.refused.take() else {
            unreachable!();
        };
        match refused.past.feed(piece) {
            Ok(Way::Open) => {
                self.refused = Some(refused);
                Ok(piece.len())
            }
            Ok(Way::Whole { used, end }) => {
                refused.ended = true;
                self.refused = Some(refused);
                self.window.go_on(end, None);
                Ok(used)
            }
            Ok(Way::Bad(fault)) => {
                self.window.go_on(refused.past.at(), Some(fault));
                Err(FeedFault::Fault(fault))
            }
            Err(_) => {
                self.refused = Some(refused);
                Err(FeedFault::NoMemory)
            }
        }
    }

    /// Adds as much of a piece as there is room for, up to the end of a body that is read past, and says how much. `Fault` comes
    /// exactly where the bytes so far have a fault.
    pub fn feed(&mut self, piece: &[u8]) -> Result<usize, FeedFault<HttpFault>>
        requires going { IsOpen self.old.window self.old.refused }
        requires fits { extent_of self.old + length piece.now ≤ 2 ^ 40 }
        ensures feeds { FeedsKept self.old piece.now result self.new }
        ensures within { IfOk result (λ n. n ≤ length piece.now) }
        ensures some { IfOk result (λ n. held_of self.old.window < 1064960 → 0 < length piece.now → 0 < n) }
        ensures extent { IfOk result (λ n. extent_of self.new ≤ extent_of self.old + n) }
        ensures faulty { IfErr result (λ _. extent_of self.new ≤ extent_of self.old + length piece.now) }
    {
        match self.refused {
            None => match self.window.feed(piece) {
                Ok(taken) => Ok(taken),
                Err(fault) => Err(fault),
            },
            Some(_) => self.pass(piece),
        }
    }

    // What is asked for by the request that was read past, once it has ended.
    fn next_ended(&mut self, core: &HecCore) -> Option<Asked>
        requires { IsSound core.now self.old.window self.old.refused }
        ensures gives { IfSome result (λ asked. GivesKept core.now self.old (Some asked) self.new) }
        ensures sound { IfSome result IsSoundAsked }
        ensures extent { IfSome result (λ _. extent_of self.new ≤ extent_of self.old) }
        ensures less { IfSome result (λ _. waits_of self.new < waits_of self.old) }
        ensures none { IfNone result ((self.new ≡ self.old) × IsOpen self.old.window self.old.refused) }
    {
        let Some(refused) = &self.refused else {
            return None;
        };
        if !refused.ended {
            return None;
        }
        let asked = Asked::Act {
            act: HecAct::Say(refused.reply),
            closing: refused.closing,
        };
        self.refused = None;
        Some(asked)
    }

    // Judges the unfinished request by its head, once that is whole: where it is refused whatever its body is, it leaves the window.
    fn judge(&mut self, alloc: Global, core: &HecCore) -> Result<(), AllocError>
        requires waiting { self.old.window.reading.waiting ≡ [] }
        requires space { held_of self.old.window < 1064960 }
        requires sound { IsSound core.now self.old.window self.old.refused }
        requires going { IsOpen self.old.window self.old.refused }
        requires read { WasRead self.old.window self.old.refused }
        ensures gives { OnOk result (GivesKept core.now self.old None self.new) }
        ensures left { OnOk result (IsLeft self.new) }
        ensures extent { OnOk result (extent_of self.new ≤ extent_of self.old) }
    {
        if self.wanted {
            return Ok(());
        }
        if self.refused.is_some() {
            return Ok(());
        }
        let Some(head) = self.window.unfinished() else {
            return Ok(());
        };
        let closing = head.closes();
        let Some(reply) = core.refusal(alloc, head)? else {
            self.wanted = true;
            return Ok(());
        };
        let past = self.window.leave()?;
        self.refused = Some(Refused {
            past,
            reply,
            closing,
            ended: false,
        });
        Ok(())
    }

    /// What the next item asks for, if one waits. Where none does, the unfinished request is judged, so that its body is kept only where
    /// it may be wanted. The error is want of memory.
    pub fn next_asked(&mut self, alloc: Global, core: &HecCore) -> Result<Option<Asked>, Talk>
        requires sound { IsSound core.now self.old.window self.old.refused }
        requires read { WasRead self.old.window self.old.refused }
        ensures gives { IfOk result (λ asked. GivesKept core.now self.old asked self.new) }
        ensures sound { IfOk result (λ asked. IfSome asked IsSoundAsked) }
        ensures extent { IfOk result (λ _. extent_of self.new ≤ extent_of self.old) }
        ensures less { IfOk result (λ asked. IfSome asked (λ _. waits_of self.new < waits_of self.old)) }
        ensures left { IfOk result (λ asked. IfNone asked (IsLeft self.new)) }
        ensures starved { IfErr result (λ talk. talk ≡ NoMemory) }
    {
        if let Some(asked) = self.next_ended(core) {
            return Ok(Some(asked));
        }
        match next_held(&mut self.window, alloc, core) {
            Ok(Some(asked)) => {
                self.wanted = false;
                Ok(Some(asked))
            }
            Ok(None) => match self.judge(alloc, core) {
                Ok(()) => Ok(None),
                Err(_) => Err(Talk::NoMemory),
            },
            Err(talk) => Err(talk),
        }
    }

    /// The offset of the unfinished request's first byte; `None` where the bytes end at a request's end. It takes no memory.
    pub fn rest_at(&self) -> Option<u64>
        ensures { TellsRest self.now.window self.now.refused result }
    {
        match &self.refused {
            None => self.window.rest_at(),
            Some(refused) => Some(refused.past.at()),
        }
    }
}
