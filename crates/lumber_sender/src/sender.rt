//! The sender.
ghost use Rattle.std.specs.Prelude.{◌≡◌, ◌≢◌, ◌↔◌, ◌+◌, ◌-◌, ◌*◌, ◌%◌, ◌<◌, ◌≤◌, ◌^◌};
ghost use Rattle.std.specs.Prelude.{true, false, List, [], ◌++◌, length, All, IsTrue, IfOk, OnOk, OnErr};
ghost use Rattle.event_form.specs.declared.event.Entry.{Entry};
ghost use Rattle.event_form.specs.Event.{IsEvent};
ghost use Rattle.lumber_sender.specs.declared.due.Due.TheVariants.{Confirm, Ask, Hear};
ghost use Rattle.event_form.specs.declared.turn.Turn.TheVariants.{Need, Done};
ghost use Rattle.lumber_frame.specs.declared.side.Side.TheVariants as side;
ghost use Rattle.lumber_sender.specs.declared.limits.TheConstants.{WINDOW};
ghost use Rattle.lumber_sender.specs.Progress.{known_by};
ghost use Rattle.lumber_sender.specs.Sender.{untouched, given, known, extent, MayFollow, Keeps, Needs, IsDue};
ghost use Rattle.lumber_sender.specs.Sends.{History, nothing, Sends, SendsOn};
ghost use Rattle.event_form.specs.Turn.{text_of, HasTold, IsResting};
ghost use Rattle.lumber_sender.specs.Turns.{IsTurn, IsFor, IsTold, IsWritten, spent, IsSpent, TellsAll, TellsSent, IsWhole, IsWholeOf, Begins};

use crate::due::Due;
use crate::hearing::{Heard, hear};
use crate::text::next_part;
use event_form::{Entry, FeedFault, Turn, Why};
use lumber_frame::{LumberFault, LumberReader, Side};
use std::alloc::{AllocError, Global};
use std::marker::Model;

/// How many bytes an acknowledgment has.
const ACK_BYTES: u64 = 6;

/// A sender's side of a session. It is asked for its next turn, and given what the turn asks for.
#[derive(Drop)]
pub struct LumberSender {
    alloc: Global,
    reader: LumberReader,
    batch: Vec<Entry>,
    written: usize,
    acked: u32,
    done: u64,
    heard: u64,
    first: u64,
    told: u64,
    finished: bool,
    asked: bool,
    stop: Option<u64>,
    fault: Option<LumberFault>,
}

impl Model for LumberSender {
    ghost use Rattle.lumber_sender.specs.Sender.{Sender};

    ghost Value = { Sender };

    ghost use Rattle.lumber_sender.specs.View.{sender_of, KeepsFields};

    ghost view = { sender_of };

    ghost invariant = { KeepsFields };
}

impl LumberSender {
    /// A sender that was given nothing. It keeps the allocator for what it reads and writes.
    pub fn new(alloc: Global) -> LumberSender
        ensures untouched { result ≡ untouched }
        ensures sends { Sends nothing result }
    {
        LumberSender {
            alloc,
            reader: LumberReader::new(alloc, Side::Sender),
            batch: Vec::new(alloc),
            written: 0,
            acked: 0,
            done: 0,
            heard: 0,
            first: 0,
            told: 0,
            finished: false,
            asked: false,
            stop: None,
            fault: None,
        }
    }

    /// Adds entries, which are the next window; the first of them has this number. The last turn asked for
    /// them, they follow those given before, and each batch given before had `WINDOW` entries. It takes no
    /// memory.
    pub fn give(&mut self, first: u64, entries: Vec<Entry>)
        requires asked { self.old.asked ≡ true }
        requires some { 0 < length entries.items }
        requires few { length entries.items ≤ WINDOW }
        requires whole { given self.old % WINDOW ≡ 0 }
        requires limits { All (λ e. IsEvent e.event) entries.items }
        requires next { 0 < given self.old → first ≡ self.old.first + given self.old }
        requires number { first + length entries.items ≤ 2 ^ 63 }
        ensures sends { (h : History) → Sends h self.old → Sends (record h { entries = h.entries ++ entries.items }) self.new }
        ensures after { self.new ≡ record self.old { batch = entries.items; written = 0; first = first - given self.old; asked = false } }
        ensures given { given self.new ≡ given self.old + length entries.items }
        ensures first { self.new.first + given self.old ≡ first }
        ensures extent { extent self.new ≡ extent self.old }
        ensures spent { spent self.new ≡ spent self.old }
    {
        self.first = first - self.done;
        self.batch = entries;
        self.written = 0;
        self.asked = false;
    }

    /// Says that no more entries come, where the last turn asked for them. It takes no memory.
    pub fn finish(&mut self)
        requires asked { self.old.asked ≡ true }
        ensures sends { (h : History) → Sends h self.old → Sends h self.new }
        ensures after { self.new ≡ record self.old { finished = true; asked = false } }
    {
        self.finished = true;
        self.asked = false;
    }

    /// Adds the next of the receiver's bytes. The bytes fed before and this piece are together at most 2^40.
    /// After the error, that no memory was found, nothing was added.
    pub fn feed(&mut self, piece: &[u8]) -> Result<(), AllocError>
        requires fits { extent self.old + length piece.now ≤ 2 ^ 40 }
        ensures sends { OnOk result ((h : History) → Sends h self.old → Sends (record h { fed = h.fed ++ piece.now }) self.new) }
        ensures same { self.new ≡ record self.old { reader = self.new.reader } }
        ensures extent { extent self.new ≤ extent self.old + length piece.now }
        ensures err { OnErr result (self.new ≡ self.old) }
    {
        match self.reader.feed(piece) {
            Ok(()) => Ok(()),
            Err(FeedFault::Fault(fault)) => {
                self.fault = Some(fault);
                Ok(())
            }
            Err(FeedFault::NoMemory) => Err(AllocError),
        }
    }

    /// Does the next thing: reports what is acknowledged, writes what may be written, asks for more entries,
    /// or takes the receiver's frames, one after another, until something comes of them.
    ///
    /// `Confirmed` comes with the number after the last entry that is acknowledged; `Write` with a part of the
    /// window under way; `Need` where all entries given are acknowledged and more may come; `Wait` where a
    /// window was written and isn't wholly acknowledged; `Done` where all entries are acknowledged and
    /// `finish` was called; `PeerFault` at the offset of an acknowledgment of more frames than the window has,
    /// or of what is no frame. No other turn comes. After `Done` and `PeerFault` each turn is the same. The
    /// only error is want of memory; after it the sender is as before.
    pub fn turn(&mut self) -> Result<Turn, AllocError>
        ensures err { OnErr result (self.new ≡ self.old) }
        // what is written and taken
        ensures written { IfOk result (λ turn. IsWritten turn self.old self.new) }
        ensures sends { IfOk result (λ turn. SendsOn self.old (text_of turn) self.new) }
        ensures begins { (h : History) (more : List Entry) → Sends h self.new → MayFollow self.new more → Begins h more }
        ensures whole { IfOk result (λ turn. IsResting turn → (h : History) → Sends h self.new → IsWhole h) }
        ensures all { IfOk result (λ turn. IsResting turn → turn ≢ Need
            → (h : History) (more : List Entry) → Sends h self.new → MayFollow self.new more → IsWholeOf h more) }
        // what is reported
        ensures told { IfOk result (λ turn. IsTold turn self.old.told self.new.told) }
        ensures most { (h : History) → Sends h self.new → self.new.told ≤ known_by h.progress }
        ensures sent { (h : History) (more : List Entry) → Sends h self.new → MayFollow self.new more → TellsSent h more self.new }
        ensures sent_before { (h : History) (more : List Entry) → Sends h self.old → MayFollow self.old more → TellsSent h more self.old }
        ensures known { IfOk result (λ turn. HasTold turn → (h : History) → Sends h self.new → TellsAll h self.new) }
        ensures done { IfOk result (λ turn. turn ≡ Done → self.new.told ≡ given self.new) }
        ensures within { self.new.told ≤ given self.new }
        ensures left { IfOk result (λ turn. IsResting turn → turn ≢ Need → turn ≢ Done → self.new.told < given self.new) }
        // when each turn comes
        ensures turn { IfOk result (λ turn. IsTurn turn self.new) }
        ensures exactly { IfOk result (λ turn. IsFor self.old turn) }
        ensures asked { IfOk result (λ turn. (self.new.asked ≡ true) ↔ (turn ≡ Need)) }
        // how often there are texts and reports
        ensures spent { IfOk result (λ turn. IsSpent turn (spent self.old) (spent self.new)) }
        ensures bound { spent self.new ≤ 2 * given self.new }
        // what stays
        ensures side { self.new.reader.side ≡ side.Sender }
        ensures extent { extent self.new ≡ extent self.old }
        ensures given { given self.new ≡ given self.old }
        ensures first { self.new.first ≡ self.old.first }
        ensures finished { self.new.finished ≡ self.old.finished }
    {
        if self.written < self.batch.len() {
            let turn = self.write();
            self.settle();
            return turn;
        }
        self.asked = false;
        while self.take_frame() {}
        let turn = self.act();
        self.settle();
        Ok(turn)
    }

    // How many entries are acknowledged.
    fn known(&self) -> u64
        ensures { result ≡ known self.now }
    {
        self.done + u64::from(self.acked)
    }

    // What is due.
    fn due(&self) -> Due
        requires { self.now.written ≡ length self.now.batch }
        ensures { IsDue result self.now }
    {
        if self.stop.is_some() {
            return Due::Stopped;
        }
        if self.told < self.known() {
            return Due::Confirm;
        }
        if !self.batch.is_empty() {
            return Due::Hear;
        }
        if self.finished { Due::End } else { Due::Ask }
    }

    // Writes the next part of the window.
    fn write(&mut self) -> Result<Turn, AllocError>
        requires { self.old.written < length self.old.batch }
        ensures err { OnErr result (self.new ≡ self.old) }
        ensures written { IfOk result (λ turn. IsWritten turn self.old self.new) }
        ensures sends { IfOk result (λ turn. SendsOn self.old (text_of turn) self.new) }
        ensures told { IfOk result (λ turn. IsTold turn self.old.told self.new.told) }
        ensures turn { IfOk result (λ turn. IsTurn turn self.new) }
        ensures exactly { IfOk result (λ turn. IsFor self.old turn) }
        ensures rests { IfOk result (λ turn. IsResting turn → ⊥) }
        ensures spent { IfOk result (λ turn. IsSpent turn (spent self.old) (spent self.new)) }
        ensures extent { extent self.new ≡ extent self.old }
        ensures asked { self.new.asked ≡ false }
        ensures given { given self.new ≡ given self.old }
        ensures first { self.new.first ≡ self.old.first }
        ensures finished { self.new.finished ≡ self.old.finished }
    {
        let part = next_part(self.alloc, &self.batch, self.written)?;
        self.written = part.upto;
        Ok(Turn::Write(part.text))
    }

    // Takes the next of the receiver's frames, where that is due and one waits, and does what it says.
    fn take_frame(&mut self) -> bool
        requires asked { self.old.asked ≡ false }
        requires written { self.old.written ≡ length self.old.batch }
        ensures sends { IsTrue result → SendsOn self.old [] self.new }
        ensures taken { IsTrue result → IsDue Hear self.old }
        ensures none { result ≡ false → (self.new ≡ self.old) × (IsDue Hear self.old → self.old.reader.waiting ≡ []) }
        ensures fewer { IsTrue result → length self.new.reader.waiting < length self.old.reader.waiting }
        ensures asked { self.new.asked ≡ false }
        ensures written { self.new.written ≡ length self.new.batch }
        ensures spent { spent self.new ≡ spent self.old }
        ensures extent { extent self.new ≡ extent self.old }
        ensures given { given self.new ≡ given self.old }
        ensures first { self.new.first ≡ self.old.first }
        ensures told { self.new.told ≡ self.old.told }
        ensures finished { self.new.finished ≡ self.old.finished }
    {
        let Due::Hear = self.due() else {
            return false;
        };
        let Some(frame) = self.reader.take() else {
            return false;
        };
        match hear(self.batch.len(), self.acked, &frame) {
            Heard::Nothing => {
                self.heard += 1;
                true
            }
            Heard::Part(seq) => {
                self.heard += 1;
                self.acked = seq;
                true
            }
            Heard::Whole => {
                self.heard += 1;
                self.done += self.batch.len() as u64;
                self.batch.clear();
                self.written = 0;
                self.acked = 0;
                true
            }
            Heard::Beyond => {
                self.stop = Some(ACK_BYTES * self.heard);
                true
            }
        }
    }

    // Where no frame waits: the fault of the receiver's bytes, or more of them are to be fed.
    fn unheard(&self) -> Turn
        requires due { IsDue Hear self.now }
        requires none { self.now.reader.waiting ≡ [] }
        ensures turn { IsTurn result self.now }
        ensures exactly { IsFor self.now result }
        ensures text { text_of result ≡ [] }
        ensures need { result ≢ Need }
        ensures told { IsTold result self.now.told self.now.told }
        ensures spent { IsSpent result (spent self.now) (spent self.now) }
    {
        match self.fault {
            Some(fault) => Turn::PeerFault {
                at: fault.at,
                why: fault.why.into(),
            },
            None => Turn::Wait,
        }
    }

    // Reports what is acknowledged.
    fn confirm(&mut self) -> Turn
        requires due { IsDue Confirm self.old }
        requires asked { self.old.asked ≡ false }
        ensures sends { SendsOn self.old [] self.new }
        ensures text { text_of result ≡ [] }
        ensures turn { IsTurn result self.new }
        ensures exactly { IsFor self.old result }
        ensures need { result ≢ Need }
        ensures spent { IsSpent result (spent self.old) (spent self.new) }
        ensures extent { extent self.new ≡ extent self.old }
        ensures asked { self.new.asked ≡ false }
        ensures given { given self.new ≡ given self.old }
        ensures finished { self.new.finished ≡ self.old.finished }
        ensures first { self.new.first ≡ self.old.first }
        ensures told { IsTold result self.old.told self.new.told }
    {
        self.told = self.known();
        Turn::Confirmed {
            upto: self.first + self.told,
        }
    }

    // Asks for more entries.
    fn ask(&mut self) -> Turn
        requires due { Needs self.old }
        ensures sends { SendsOn self.old [] self.new }
        ensures turn { IsTurn result self.new }
        ensures need { result ≡ Need }
        ensures after { self.new ≡ record self.old { asked = true } }
    {
        self.asked = true;
        Turn::Need
    }

    // Does nothing: it says what holds of each sender.
    fn settle(&self)
        ensures { Keeps self.now }
    {
        let _told = self.told;
    }

    // Does what is due.
    fn act(&mut self) -> Turn
        requires asked { self.old.asked ≡ false }
        requires written { self.old.written ≡ length self.old.batch }
        requires heard { IsDue Hear self.old → self.old.reader.waiting ≡ [] }
        ensures text { text_of result ≡ [] }
        ensures sends { SendsOn self.old (text_of result) self.new }
        ensures turn { IsTurn result self.new }
        ensures exactly { IsFor self.old result }
        ensures asked { (self.new.asked ≡ true) ↔ (result ≡ Need) }
        ensures spent { IsSpent result (spent self.old) (spent self.new) }
        ensures extent { extent self.new ≡ extent self.old }
        ensures given { given self.new ≡ given self.old }
        ensures finished { self.new.finished ≡ self.old.finished }
        ensures first { self.new.first ≡ self.old.first }
        ensures told { IsTold result self.old.told self.new.told }
    {
        if let Some(at) = self.stop {
            return Turn::PeerFault {
                at,
                why: Why::Reply,
            };
        }
        match self.due() {
            Due::Confirm => self.confirm(),
            Due::Ask => self.ask(),
            Due::Stopped | Due::End => Turn::Done,
            Due::Hear => self.unheard(),
        }
    }
}
