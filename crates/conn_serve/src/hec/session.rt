//! A session of the HTTP Event Collector.
ghost use Rattle.std.specs.Prelude.{◌≡◌, ◌↔◌, ◌+◌, [], Some, None, IfOk, IsSome, IsTrue};
ghost use Rattle.event_form.specs.declared.feed_fault.FeedFault.TheVariants as feed;
ghost use Rattle.http_edge.specs.Window.{Reads, clear, held_of};
ghost use Rattle.desk_access.specs.Carried.{Carried};
ghost use Rattle.conn_serve.specs.Hec.{hec};
ghost use Rattle.conn_serve.specs.Memory.{need_of};
ghost use Rattle.conn_serve.specs.Terms.{terms_with};
ghost use Rattle.conn_serve.specs.Handled.{Handled, Served, Closing};
ghost use Rattle.conn_serve.specs.HecReading.{IsIdle, ReadsKept, extent_of};

use super::act::serve_item;
use super::intake::Intake;
use super::last::LastReply;
use crate::connection::Connection;
use crate::memory::{is_short, need_of};
use crate::session::Session;
use crate::talk::say;
use desk_access::Access;
use edge_io::Link;
use event_form::{FeedFault, Talk, Why};
use hec_session::HecCore;
use hec_tokens::TokenList;
use http_edge::HttpFault;
use std::alloc::{AllocError, Global};

// How many bytes of memory a connection takes at most: what a long read brings, the window, the events of a request with their copies, and
// its reply.
const WHOLE: u64 = 8_388_608;

// How many bytes of replies keep their memory.
const MOST_KEPT: usize = 1_024;

/// The bytes as requests, the receiver with its tokens, the buffer of replies, and why no more bytes were taken.
#[derive(Drop)]
pub struct HecSession {
    intake: Intake,
    core: HecCore,
    text: Vec<u8>,
    met: Option<FeedFault<HttpFault>>,
}

// Whether no memory was found for bytes.
fn is_starved(met: &Option<FeedFault<HttpFault>>) -> bool
    ensures { IsTrue result ↔ (met.now ≡ Some feed.NoMemory) }
{
    match met {
        Some(FeedFault::NoMemory) => true,
        _ => false,
    }
}

impl HecSession {
    /// A session that has met no byte, with a token without acks, one that uses them, and those of a list. The only
    /// error is want of memory.
    pub fn new(
        alloc: Global,
        token: Option<u128>,
        ack_token: Option<u128>,
        listed: TokenList,
    ) -> Result<HecSession, AllocError>
        ensures window { IfOk result (λ s. s.intake.window ≡ clear) }
        ensures refused { IfOk result (λ s. s.intake.refused ≡ None) }
        ensures reads { IfOk result (λ s. Reads [] [] s.intake.window) }
        ensures core { IfOk result (λ s. s.core ≡ record { token = token; ack_token = ack_token; listed = listed }) }
        ensures met { IfOk result (λ s. s.met ≡ None) }
    {
        Ok(HecSession {
            intake: Intake::new(alloc)?,
            core: HecCore::new(token, ack_token, listed),
            text: Vec::new(alloc),
            met: None,
        })
    }
}

impl Session for HecSession {
    ghost terms = { λ s. terms_with s.core };

    ghost served = { λ number s. Served (Handled (hec s.core number)) (ReadsKept s.core s.intake s.met) };

    ghost carried = { λ terms number. Carried (hec terms.tokens number) };

    ghost closing = { λ number s. Closing (hec s.core number) (Handled (hec s.core number)) };

    ghost idle = { λ s. IsIdle s.intake s.met };

    ghost settled = { λ s. IsIdle s.intake s.met × (s.met ≡ None) };

    ghost extent = { λ s. extent_of s.intake };

    ghost takes = { λ s asked more. need_of 8388608 asked (held_of s.intake.window + more) };

    fn need(&self, asked: usize, more: usize) -> u64 {
        need_of(WHOLE, asked, self.intake.window.held(), more)
    }

    ghost passes = { λ s. IsSome s.intake.refused };

    fn is_passing(&self) -> bool {
        self.intake.refused.is_some()
    }

    fn rest(&mut self, asked: usize) {
        if is_short(asked) {
            self.intake.window.give_back();
        }
    }

    fn feed(&mut self, piece: &[u8]) -> usize {
        match self.intake.feed(piece) {
            Ok(taken) => taken,
            Err(fault) => {
                self.met = Some(fault);
                piece.len()
            }
        }
    }

    fn serve<L: Link, A: Access>(
        &mut self,
        alloc: Global,
        link: &mut L,
        access: &mut A,
        connection: &mut Connection,
    ) -> Result<(), Talk> {
        if is_starved(&self.met) {
            return Err(Talk::NoMemory);
        }
        while let Some(asked) = self.intake.next_asked(alloc, &self.core)? {
            serve_item(alloc, link, access, connection, &mut self.text, asked)?;
        }
        self.text.clear();
        self.text.shrink_to(MOST_KEPT);
        Ok(())
    }

    fn fault(&self) -> Option<Talk> {
        match &self.met {
            None => None,
            Some(FeedFault::Fault(fault)) => Some(Talk::Fault {
                at: fault.at,
                why: Why::from(fault.why),
            }),
            Some(FeedFault::NoMemory) => None,
        }
    }

    fn end(&self) -> Talk {
        match self.intake.rest_at() {
            None => Talk::Ended,
            Some(at) => Talk::Truncated { at },
        }
    }

    fn finish<L: Link, A: Access>(
        &mut self,
        link: &mut L,
        access: &mut A,
        connection: &mut Connection,
        over: Talk,
    ) -> Result<(), Talk> {
        let Talk::Fault { .. } = over else {
            return Ok(());
        };
        say(link, LastReply::Malformed.text())
    }
}
