//! The sender.
ghost use Rattle.std.specs.Prelude.{◌≡◌, ◌≢◌, ◌↔◌, ◌+◌, ◌-◌, ◌*◌, ◌%◌, ◌<◌, ◌≤◌, ◌^◌};
ghost use Rattle.std.specs.Prelude.{ℕ, true, false, List, [], ◌++◌, length, Some, None, All, IfOk, OnOk, OnErr};
ghost use Rattle.event_form.specs.declared.event.Entry.{Entry};
ghost use Rattle.event_form.specs.declared.turn.Turn.TheVariants.{Need, Done, Pause, Wait};
ghost use Rattle.event_form.specs.Event.{IsEvent};
ghost use Rattle.event_form.specs.Turn.{text_of, IsResting};
ghost use Rattle.hec_sender.specs.declared.due.Due.TheVariants.{Repeat, Send, Hear};
ghost use Rattle.hec_sender.specs.declared.limits.TheConstants.{WINDOW};
ghost use Rattle.hec_sender.specs.declared.stop.Stop.{Stop};
ghost use Rattle.hec_sender.specs.declared.terms.Terms.{Terms};
ghost use Rattle.hec_sender.specs.declared.verdict.Verdict.TheVariants.{Confirms, Asks, Denies};
ghost use Rattle.hec_sender.specs.Sender.{untouched, given, extent, asked_by, MayFollow, Keeps, Needs, IsDone, IsDue};
ghost use Rattle.hec_sender.specs.Hearing.{Hears, StopsSo};
ghost use Rattle.hec_sender.specs.Sends.{History, nothing, Sends, SendsOn};
ghost use Rattle.hec_sender.specs.Turns.{Acts, IsTurn, IsFor, IsTold, IsSpent, IsWhole, IsWholeOf, Begins, TellsAll, TellsSent, ending_of, spent};

use crate::due::Due;
use crate::query::Query;
use crate::request::next_request;
use crate::stage::Stage;
use crate::stop::Stop;
use crate::terms::Terms;
use crate::text::query;
use crate::verdict::{Verdict, judge};
use event_form::{Entry, FeedFault, Turn, Why};
use http_edge::HttpFault;
use http_reply::ReplyReader;
use std::alloc::{AllocError, Global};
use std::marker::Model;

/// A sender's side of a session. It is asked for its next turn, and given what the turn asks for.
#[derive(Drop)]
pub struct HecSender {
    alloc: Global,
    terms: Terms,
    reader: ReplyReader,
    batch: Vec<Entry>,
    from: usize,
    size: usize,
    stage: Stage,
    done: u64,
    requests: u64,
    first: u64,
    finished: bool,
    asked: bool,
    stop: Option<Stop>,
    fault: Option<HttpFault>,
}

impl Model for HecSender {
    ghost use Rattle.hec_sender.specs.Sender.{Sender};

    ghost Value = { Sender };

    ghost use Rattle.hec_sender.specs.View.{sender_of, KeepsFields};

    ghost view = { sender_of };

    ghost invariant = { KeepsFields };
}

impl HecSender {
    /// A sender that was given nothing. Each of its requests has this token and this channel, GUIDs as numbers; a
    /// query is asked at most `polls` times, which is above 0. It keeps the allocator for what it reads and writes.
    pub fn new(alloc: Global, token: u128, channel: u128, polls: u32) -> HecSender
        requires { 0 < polls }
        ensures untouched { result ≡ untouched (record { token = token; channel = channel; polls = polls }) }
        ensures sends { Sends nothing result }
    {
        HecSender {
            alloc,
            terms: Terms {
                token,
                channel,
                polls,
            },
            reader: ReplyReader::new(alloc),
            batch: Vec::new(alloc),
            from: 0,
            size: 0,
            stage: Stage::Unsent,
            done: 0,
            requests: 0,
            first: 0,
            finished: false,
            asked: false,
            stop: None,
            fault: None,
        }
    }

    /// Adds entries, which are the next run; the first of them has this number. The last turn asked for them, they
    /// follow those given before, and each batch given before had `WINDOW` entries. It takes no memory.
    pub fn give(&mut self, first: u64, entries: Vec<Entry>)
        requires asked { self.old.asked ≡ true }
        requires some { 0 < length entries.items }
        requires few { length entries.items ≤ WINDOW }
        requires whole { given self.old % WINDOW ≡ 0 }
        requires limits { All (λ e. IsEvent e.event) entries.items }
        requires next { 0 < given self.old → first ≡ self.old.first + given self.old }
        requires number { first + length entries.items ≤ 2 ^ 63 }
        ensures sends { (h : History) → Sends h self.old → Sends (record h { entries = h.entries ++ entries.items }) self.new }
        ensures after { self.new ≡ record self.old { rest = entries.items; first = first - self.old.done; asked = false } }
        ensures given { given self.new ≡ given self.old + length entries.items }
        ensures first { self.new.first + given self.old ≡ first }
        ensures extent { extent self.new ≡ extent self.old }
    {
        self.first = first - self.done;
        self.batch = entries;
        self.from = 0;
        self.asked = false;
    }

    /// Says that no more entries come, where the last turn asked for them. It takes no memory.
    pub fn finish(&mut self)
        requires asked { self.old.asked ≡ true }
        ensures sends { (h : History) → Sends h self.old → Sends h self.new }
        ensures after { self.new ≡ record self.old { finished = true; asked = false } }
    {
        self.finished = true;
        self.asked = false;
    }

    /// Adds the next of the collector's bytes. The bytes fed before and this piece are together at most 2^40.
    /// After the error, that no memory was found, nothing was added.
    pub fn feed(&mut self, piece: &[u8]) -> Result<(), AllocError>
        requires fits { extent self.old + length piece.now ≤ 2 ^ 40 }
        ensures sends { OnOk result ((h : History) → Sends h self.old → Sends (record h { fed = h.fed ++ piece.now }) self.new) }
        ensures same { self.new ≡ record self.old { reader = self.new.reader } }
        ensures extent { extent self.new ≤ extent self.old + length piece.now }
        ensures err { OnErr result (self.new ≡ self.old) }
    {
        match self.reader.feed(piece) {
            Ok(()) => Ok(()),
            Err(FeedFault::Fault(fault)) => {
                self.fault = Some(fault);
                Ok(())
            }
            Err(FeedFault::NoMemory) => Err(AllocError),
        }
    }

    /// Does the next thing: writes the next request or query, asks for more entries, or takes one of the collector's
    /// replies and does what it asks for.
    ///
    /// `Write` comes with a whole request, or with a whole query; `Confirmed` with the number after the last entry of
    /// a request that a reply confirms; `Pause` where a reply denies, before the query is written again; `Need`
    /// where all entries given are acknowledged and more may come; `Wait` where a reply is to come; `Done` where all
    /// entries are acknowledged and `finish` was called. `Unconfirmed` comes with the id of a query that was denied
    /// as often as it may be asked; `Refused` with the place of the request in the session, from 0, and the code of
    /// the reply that refuses it; `PeerFault` at the first byte of a reply that may not come (`Reply`), or at the
    /// place where the bytes are no reply. `PeerClosed` never comes. After an ending each turn is the same. The only
    /// error is want of memory; after it the sender is as before.
    pub fn turn(&mut self) -> Result<Turn, AllocError>
        ensures err { OnErr result (self.new ≡ self.old) }
        // what is written and taken
        ensures sends { IfOk result (λ turn. SendsOn self.old (text_of turn) self.new) }
        ensures begins { (h : History) (more : List Entry) → Sends h self.new → MayFollow self.new more → Begins self.new.terms h more }
        ensures whole { IfOk result (λ turn. IsResting turn → (h : History) → Sends h self.new → IsWhole self.new.terms h) }
        ensures all { IfOk result (λ turn. IsResting turn → turn ≢ Need
            → (h : History) (more : List Entry) → Sends h self.new → MayFollow self.new more → IsWholeOf self.new.terms h more) }
        // what is reported
        ensures told { IfOk result (λ turn. IsTold turn self.old.done self.new.done) }
        ensures known { (h : History) → Sends h self.new → TellsAll h self.new }
        ensures sent { (h : History) (more : List Entry) → Sends h self.new → MayFollow self.new more → TellsSent h more self.new }
        ensures sent_before { (h : History) (more : List Entry) → Sends h self.old → MayFollow self.old more → TellsSent h more self.old }
        ensures done { IfOk result (λ turn. turn ≡ Done → self.new.done ≡ given self.new) }
        ensures left { IfOk result (λ turn. IsResting turn → turn ≢ Need → turn ≢ Done → self.new.done < given self.new) }
        // when each turn comes
        ensures turn { IfOk result (λ turn. IsTurn turn self.new) }
        ensures exactly { IfOk result (λ turn. IsFor self.old turn) }
        ensures asked { IfOk result (λ turn. (self.new.asked ≡ true) ↔ (turn ≡ Need)) }
        // how often there are texts, pauses and reports
        ensures spent { IfOk result (λ turn. IsSpent turn (spent self.old) (spent self.new)) }
        ensures bound { spent self.new ≤ 2 ^ 33 * given self.new }
        // what stays
        ensures terms { self.new.terms ≡ self.old.terms }
        ensures extent { extent self.new ≡ extent self.old }
        ensures given { given self.new ≡ given self.old }
        ensures first { self.new.first ≡ self.old.first }
        ensures finished { self.new.finished ≡ self.old.finished }
    {
        let turn = self.act();
        self.settle();
        turn
    }

    // Does what is due.
    fn act(&mut self) -> Result<Turn, AllocError>
        ensures err { OnErr result (self.new ≡ self.old) }
        ensures acts { IfOk result (λ turn. Acts self.old turn self.new) }
    {
        match self.due() {
            Due::Stopped(stop) => Ok(self.stopped(stop)),
            Due::Send => self.send(),
            Due::Repeat(query) => self.repeat(query),
            Due::Ask => Ok(self.ask()),
            Due::End => Ok(self.end()),
            Due::Hear => self.hear(),
        }
    }

    // What is due.
    fn due(&self) -> Due
        ensures { IsDue result self.now }
    {
        if let Some(stop) = self.stop {
            return Due::Stopped(stop);
        }
        match self.stage {
            Stage::Unsent if self.from < self.batch.len() => Due::Send,
            Stage::Unsent if self.finished => Due::End,
            Stage::Unsent => Due::Ask,
            Stage::Paused(query) => Due::Repeat(query),
            Stage::Sent | Stage::Asked(_) => Due::Hear,
        }
    }

    // Does nothing: it says what holds of each sender.
    fn settle(&self)
        ensures { Keeps self.now }
    {
        let _done = self.done;
    }

    // Says again how the session ended.
    fn stopped(&self, stop: Stop) -> Turn
        requires { self.now.stop ≡ Some stop }
        ensures { Acts self.now result self.now }
    {
        self.settle();
        stop.turn()
    }

    // Writes the next request.
    fn send(&mut self) -> Result<Turn, AllocError>
        requires { IsDue Send self.old }
        ensures err { OnErr result (self.new ≡ self.old) }
        ensures acts { IfOk result (λ turn. Acts self.old turn self.new) }
    {
        let run = &self.batch[self.from..];
        let request = next_request(self.alloc, &self.terms, run)?;
        self.size = request.size;
        self.stage = Stage::Sent;
        Ok(Turn::Write(request.text))
    }

    // Writes a query again.
    fn repeat(&mut self, again: Query) -> Result<Turn, AllocError>
        requires { IsDue (Repeat again) self.old }
        ensures err { OnErr result (self.new ≡ self.old) }
        ensures acts { IfOk result (λ turn. Acts self.old turn self.new) }
    {
        let text = query(self.alloc, &self.terms, again.id)?;
        self.stage = Stage::Asked(again);
        Ok(Turn::Write(text))
    }

    // Asks for more entries.
    fn ask(&mut self) -> Turn
        requires { Needs self.old }
        ensures { Acts self.old result self.new }
    {
        self.asked = true;
        Turn::Need
    }

    // All is acknowledged, and no more comes.
    fn end(&self) -> Turn
        requires { IsDone self.now }
        ensures { Acts self.now result self.now }
    {
        self.settle();
        Turn::Done
    }

    // Takes the next reply, where one waits, and does what it asks for.
    fn hear(&mut self) -> Result<Turn, AllocError>
        requires { IsDue Hear self.old }
        ensures err { OnErr result (self.new ≡ self.old) }
        ensures acts { IfOk result (λ turn. Acts self.old turn self.new) }
    {
        let Some(reply) = self.reader.front() else {
            return Ok(self.unheard());
        };
        let at = reply.at;
        match judge(self.alloc, self.stage.asked(), reply)? {
            Verdict::Confirms => Ok(self.confirm()),
            Verdict::Asks { id } => self.ask_for(id),
            Verdict::Denies => Ok(self.deny()),
            Verdict::Refuses { code } => {
                let unit = self.requests;
                Ok(self.end_by(Stop::Refused { unit, code }))
            }
            Verdict::Faults => Ok(self.end_by(Stop::Broken { at })),
        }
    }

    // Where no reply waits: the fault of the collector's bytes, or more of them are to be fed.
    fn unheard(&self) -> Turn
        requires due { IsDue Hear self.now }
        requires none { self.now.reader.waiting ≡ [] }
        ensures { Acts self.now result self.now }
    {
        match self.fault {
            Some(fault) => Turn::PeerFault {
                at: fault.at,
                why: Why::from(fault.why),
            },
            None => Turn::Wait,
        }
    }

    // Takes a reply that confirms the request.
    fn confirm(&mut self) -> Turn
        requires { (at : ℕ) × Hears self.old at Confirms }
        ensures { Acts self.old result self.new }
    {
        let _reply = self.reader.take();
        self.from += self.size;
        self.done += self.size as u64;
        self.requests += 1;
        self.stage = Stage::Unsent;
        Turn::Confirmed {
            upto: self.first + self.done,
        }
    }

    // Takes a reply that gives an id, and asks for it.
    fn ask_for(&mut self, id: u64) -> Result<Turn, AllocError>
        requires { (at : ℕ) × Hears self.old at (Asks id) }
        ensures err { OnErr result (self.new ≡ self.old) }
        ensures acts { IfOk result (λ turn. Acts self.old turn self.new) }
    {
        let text = query(self.alloc, &self.terms, id)?;
        let _reply = self.reader.take();
        self.stage = Stage::Asked(Query { id, times: 1 });
        Ok(Turn::Write(text))
    }

    // Takes a reply that denies: its query is repeated after a pause, unless it was asked as often as it may be.
    fn deny(&mut self) -> Turn
        requires { (at : ℕ) × Hears self.old at Denies }
        ensures { Acts self.old result self.new }
    {
        let Some(query) = self.stage.asked() else {
            unreachable!()
        };
        if query.times < self.terms.polls {
            self.pause(query)
        } else {
            self.end_by(Stop::Unconfirmed { asked: query.id })
        }
    }

    // Takes a reply that denies, before a pause.
    fn pause(&mut self, query: Query) -> Turn
        requires denied { (at : ℕ) × Hears self.old at Denies }
        requires asked { asked_by self.old.stage ≡ Some query }
        requires again { query.times < self.old.terms.polls }
        ensures { Acts self.old result self.new }
    {
        let _reply = self.reader.take();
        self.stage = Stage::Paused(Query {
            id: query.id,
            times: query.times + 1,
        });
        Turn::Pause
    }

    // Takes a reply that ends the session.
    fn end_by(&mut self, stop: Stop) -> Turn
        requires { StopsSo self.old stop }
        ensures { Acts self.old result self.new }
    {
        let _reply = self.reader.take();
        self.stop = Some(stop);
        stop.turn()
    }
}
