//! The sender.
ghost use Rattle.std.specs.Prelude.{◌≡◌, ◌≢◌, ◌+◌, ◌*◌, ◌<◌, ◌≤◌, ◌^◌, true, false, List, ◌++◌, length, All, IfOk, OnOk, OnErr};
ghost use Rattle.event_form.specs.declared.event.Entry.{Entry};
ghost use Rattle.event_form.specs.declared.turn.Turn.TheVariants.{Need, Done};
ghost use Rattle.event_form.specs.Event.{IsEvent};
ghost use Rattle.relp_frame.specs.Reading.{unfed};
ghost use Rattle.event_form.specs.Turn.{HasTold as TellsNothing, IsResting, text_of};
ghost use Rattle.relp_sender.specs.declared.due.Due.{Due};
ghost use Rattle.relp_sender.specs.Due.{IsDue};
ghost use Rattle.relp_sender.specs.Sender.{Keeps, given};
ghost use Rattle.relp_sender.specs.Sends.{History, Sends, SendsOn, untouched};
ghost use Rattle.relp_sender.specs.Spending.{IsSpent, spent};
ghost use Rattle.relp_sender.specs.Turns.{Acts, Begins, Hears, IsFirstOf, IsJoint, IsToldOn, IsTurn, IsWhole, IsWholeOf, Stays, TellsAll, TellsKnown, TellsSent, also_of};
ghost use Rattle.relp_sender.specs.Window.{first_open};

mod acting;
mod taking;
mod writing;

use crate::due::Due;
use crate::stage::{Stage, Stop};
use event_form::{Entry, FeedFault, Turn};
use relp_frame::{RelpFault, RelpReader};
use std::alloc::{AllocError, Global};
use std::collections::VecDeque;
use std::marker::Model;

/// How many frames may be unanswered.
const WINDOW: usize = 1024;

/// A sender's side of a session. It is asked for its next turn, and told what the turn asks for.
#[derive(Drop)]
pub struct RelpSender {
    alloc: Global,
    reader: RelpReader,
    stage: Stage,
    waiting: VecDeque<Entry>,
    written: u64,
    unanswered: VecDeque<u64>,
    first: u64,
    told: u64,
    beyond: Option<u64>,
    finished: bool,
    asked: bool,
    stop: Option<Stop>,
    fault: Option<RelpFault>,
}

impl Model for RelpSender {
    ghost use Rattle.relp_sender.specs.Sender.{Sender};

    ghost Value = { Sender };

    ghost use Rattle.relp_sender.specs.View.{sender_of, KeepsFields};

    ghost view = { sender_of };

    ghost invariant = { KeepsFields };
}

impl RelpSender {
    /// A sender that was given nothing. It keeps the allocator for what it reads and writes.
    pub fn new(alloc: Global) -> RelpSender
        ensures sends { Sends untouched result }
        ensures given { given result ≡ 0 }
        ensures reader { result.reader ≡ unfed }
        ensures told { result.told ≡ 0 }
        ensures asked { result.asked ≡ false }
        ensures finished { result.finished ≡ false }
    {
        RelpSender {
            alloc,
            reader: RelpReader::new(alloc),
            stage: Stage::Fresh,
            waiting: VecDeque::new(alloc),
            written: 0,
            unanswered: VecDeque::new(alloc),
            first: 0,
            told: 0,
            beyond: None,
            finished: false,
            asked: false,
            stop: None,
            fault: None,
        }
    }

    /// Adds 1 to 128 entries, of which the first has this number, once `turn` has asked for them by `Need`. It takes
    /// no memory.
    pub fn give(&mut self, first: u64, entries: Vec<Entry>)
        requires asked { self.old.asked ≡ true }
        requires some { 0 < length entries.items }
        requires few { length entries.items ≤ 128 }
        requires limits { All (λ e. IsEvent e.event) entries.items }
        requires next { 0 < given self.old → first ≡ self.old.first + given self.old }
        requires number { first + length entries.items ≤ 2 ^ 63 }
        ensures sends { (h : History) → Sends h self.old → Sends (record h { entries = h.entries ++ entries.items }) self.new }
        ensures given { given self.new ≡ given self.old + length entries.items }
        ensures first { self.new.first + given self.old ≡ first }
        ensures after { self.new ≡ record self.old { waiting = entries.items; first = self.new.first; asked = false } }
    {
        self.first = first - self.written;
        self.waiting = VecDeque::from_vec(entries);
        self.asked = false;
    }

    /// Says that no more entries come. It takes no memory.
    pub fn finish(&mut self)
        requires asked { self.old.asked ≡ true }
        ensures sends { (h : History) → Sends h self.old → Sends h self.new }
        ensures after { self.new ≡ record self.old { finished = true; asked = false } }
    {
        self.finished = true;
        self.asked = false;
    }

    /// Adds the next of the peer's bytes. The bytes added before and these are together at most 2^40. After
    /// the error, that no memory was found, nothing was added.
    pub fn feed(&mut self, piece: &[u8]) -> Result<(), AllocError>
        requires fits { self.old.reader.at + length self.old.reader.rest + length piece.now ≤ 2 ^ 40 }
        ensures sends { OnOk result ((h : History) → Sends h self.old → Sends (record h { fed = h.fed ++ piece.now }) self.new) }
        ensures same { self.new ≡ record self.old { reader = self.new.reader } }
        ensures room { self.new.reader.at + length self.new.reader.rest ≤ self.old.reader.at + length self.old.reader.rest + length piece.now }
        ensures err { OnErr result (self.new ≡ self.old) }
    {
        match self.reader.feed(piece) {
            Ok(()) => Ok(()),
            Err(FeedFault::Fault(fault)) => {
                self.fault = Some(fault);
                Ok(())
            }
            Err(FeedFault::NoMemory) => Err(AllocError),
        }
    }

    /// Does the next thing: reports what is acknowledged, gives the bytes that may be written, asks for more entries, or says
    /// how the session ended. Where nothing of it is to be done it first takes the peer's frames that are there: the next one,
    /// and then as many as acknowledge frames that were written, in their order.
    ///
    /// Frames are given joined: a text has those of all entries that wait and for which the window has room, or as many as make
    /// at most 65,536 bytes, and one frame where it alone has more.
    ///
    /// The only error is want of memory. After it the sender is as before.
    pub fn turn(&mut self) -> Result<Turn, AllocError>
        ensures err { OnErr result (self.new ≡ self.old) }
        ensures sends { IfOk result (λ turn. SendsOn self.old (text_of turn) (also_of self.old.first turn) self.new) }
        ensures turn { IfOk result (λ turn. IsTurn turn self.new) }
        ensures acts { IfOk result (λ turn. (due : Due) → IsDue due self.old → (Hears self.old → ⊥)
            → Acts due (record self.old { asked = false }) turn self.new) }
        ensures asked { IfOk result (λ turn. self.new.asked ≡ true → turn ≡ Need) }
        ensures need { IfOk result (λ turn. turn ≡ Need → self.new.asked ≡ true) }
        ensures known { IfOk result (λ turn. TellsNothing turn → (h : History) → Sends h self.new → TellsAll h self.new) }
        ensures begins { (h : History) (more : List Entry) → Sends h self.new → IsFirstOf self.new more → Begins h more }
        ensures whole { IfOk result (λ turn. IsResting turn → (h : History) → Sends h self.new → IsWhole h self.new) }
        ensures all { IfOk result (λ turn. IsResting turn → turn ≢ Need
            → (h : History) (more : List Entry) → Sends h self.new → IsFirstOf self.new more → IsWholeOf h more) }
        ensures done { IfOk result (λ turn. turn ≡ Done → (self.new.finished ≡ true) × (self.new.told ≡ given self.new)) }
        ensures joint { IfOk result (λ turn. IsJoint turn self.new) }
        ensures stays { Stays self.old self.new }
        ensures told { IfOk result (λ turn. IsToldOn turn self.old.told self.new.told) }
        ensures most { (h : History) → Sends h self.new → TellsKnown h self.new }
        ensures sent { (h : History) (more : List Entry) → Sends h self.new → TellsSent h more self.new }
        ensures sent_before { (h : History) (more : List Entry) → Sends h self.old → TellsSent h more self.old }
        ensures within { self.new.told ≤ given self.new }
        ensures left { IfOk result (λ turn. IsResting turn → turn ≢ Need → turn ≢ Done → self.new.told < given self.new) }
        ensures spent { IfOk result (λ turn. IsSpent turn (spent self.old) (spent self.new)) }
        ensures bound { spent self.new ≤ 2 * given self.new + 2050 }
    {
        let next = self.prepare()?;
        self.asked = false;
        let mut goes_on = false;
        while self.take_frame(goes_on) {
            goes_on = true;
        }
        let turn = self.act(next);
        self.settle();
        Ok(turn)
    }

    // How many entries are acknowledged from the first one on.
    fn known(&self) -> u64
        ensures { result ≡ first_open self.now.unanswered self.now.written }
    {
        match self.unanswered.front() {
            Some(place) => *place,
            None => self.written,
        }
    }

    // What is due.
    fn due(&self) -> Due
        ensures { IsDue result self.now }
    {
        if self.stop.is_some() {
            return Due::Stopped;
        }
        if self.told < self.known() {
            return Due::Confirm;
        }
        if self.beyond.is_some() {
            return Due::Tell;
        }
        let open = self.unanswered.len();
        match self.stage {
            Stage::Fresh if !self.waiting.is_empty() => Due::Send,
            Stage::Fresh if self.finished => Due::End,
            Stage::Fresh => Due::Ask,
            Stage::Opening => Due::Hear,
            Stage::Open if open == WINDOW => Due::Hear,
            Stage::Open if !self.waiting.is_empty() => Due::Send,
            Stage::Open if !self.finished => Due::Ask,
            Stage::Open if open == 0 => Due::Send,
            Stage::Open => Due::Hear,
            Stage::Closed => Due::End,
        }
    }

    // Does nothing: it says what holds of each sender.
    fn settle(&self)
        ensures { Keeps self.now }
    {
        let _told = self.told;
    }
}
