//! The texts that a sender writes.
ghost use Rattle.std.specs.Prelude.{◌≡◌, ◌≢◌, ◌⊎◌, ◌<◌, false, [], length, IfOk, None};
ghost use Rattle.event_form.specs.declared.turn.Turn.TheVariants.{Need, Write};
ghost use Rattle.event_form.specs.Turn.{text_of};
ghost use Rattle.relp_sender.specs.declared.due.Due.TheVariants.{Send};
ghost use Rattle.relp_sender.specs.declared.next.Next.{Next};
ghost use Rattle.relp_sender.specs.Due.{IsDue, IsNext, Suits};
ghost use Rattle.relp_sender.specs.Sender.{HasTold, wrote};
ghost use Rattle.relp_sender.specs.Sends.{SendsOn};
ghost use Rattle.relp_sender.specs.Spending.{IsSpent, spent};
ghost use Rattle.relp_sender.specs.Turns.{Acts, IsJoint, IsToldOn, IsTurn, Stays, also_of};

use super::{RelpSender, WINDOW};
use crate::due::Due;
use crate::joined::{Joined, joined_text};
use crate::next::Next;
use crate::stage::Stage;
use crate::text::{close_text, open_text};
use event_form::{Blob, Turn};
use std::alloc::AllocError;
use std::collections::VecDeque;

impl RelpSender {
    // The next text, where one is due or where the answer to the first frame may make one due.
    pub(super) fn prepare(&self) -> Result<Next, AllocError>
        ensures { IfOk result (λ next. Suits self.now next) }
    {
        if let Stage::Opening = self.stage {
            return self.prepare_frames();
        }
        let Due::Send = self.due() else {
            return Ok(Next::Nothing);
        };
        match self.stage {
            Stage::Fresh => {
                let text = open_text(self.alloc)?;
                let places = VecDeque::with_capacity(self.alloc, WINDOW)?;
                Ok(Next::Open(text, places))
            }
            Stage::Opening | Stage::Open => self.prepare_frames(),
            Stage::Closed => Ok(Next::Nothing),
        }
    }

    // The frames of the next entries, or the one that closes the session.
    fn prepare_frames(&self) -> Result<Next, AllocError>
        requires stage { (self.now.stage ≡ Stage.Opening) ⊎ (self.now.stage ≡ Stage.Open) }
        requires room { length self.now.unanswered < 1024 }
        ensures { IfOk result (λ next. Suits self.now next) }
    {
        if self.waiting.is_empty() {
            let text = close_text(self.alloc, self.written)?;
            return Ok(Next::Close(text));
        }
        let most = (WINDOW - self.unanswered.len()).min(self.waiting.len());
        let joined = joined_text(self.alloc, self.written, &self.waiting, most)?;
        Ok(Next::Frames(joined))
    }

    // Writes the frame that opens the session.
    fn open(&mut self, text: Blob, places: VecDeque<u64>) -> Turn
        requires due { IsDue Send self.old }
        requires next { IsNext self.old (Next.Open text places) }
        requires asked { self.old.asked ≡ false }
        ensures turn { result ≡ Write text }
        ensures sends { SendsOn self.old text [] self.new }
        ensures holds { IsTurn result self.new }
        ensures joint { IsJoint result self.new }
        ensures asked { self.new.asked ≡ false }
        ensures stays { Stays self.old self.new }
        ensures spent { spent self.old < spent self.new }
        ensures told { self.new.told ≡ self.old.told }
    {
        self.unanswered = places;
        self.stage = Stage::Opening;
        Turn::Write(text)
    }

    // Counts the frame of the entry that waits first as written.
    fn advance(&mut self)
        requires goes { self.old.stop ≡ None }
        requires told { HasTold self.old }
        requires stage { self.old.stage ≡ Stage.Open }
        requires some { 0 < length self.old.waiting }
        requires room { length self.old.unanswered < 1024 }
        requires asked { self.old.asked ≡ false }
        ensures { self.new ≡ wrote 1 self.old }
    {
        let Some(_entry) = self.waiting.pop_front() else {
            unreachable!()
        };
        self.unanswered.push_back_reserved(self.written);
        self.written += 1;
    }

    // Writes the frames of the next entries.
    fn send(&mut self, joined: Joined) -> Turn
        requires due { IsDue Send self.old }
        requires next { IsNext self.old (Next.Frames joined) }
        requires asked { self.old.asked ≡ false }
        ensures turn { result ≡ Write joined.text }
        ensures sends { SendsOn self.old joined.text [] self.new }
        ensures holds { IsTurn result self.new }
        ensures joint { IsJoint result self.new }
        ensures asked { self.new.asked ≡ false }
        ensures stays { Stays self.old self.new }
        ensures spent { spent self.old < spent self.new }
        ensures told { self.new.told ≡ self.old.told }
    {
        let Joined { text, count } = joined;
        let mut written = 0;
        while written < count {
            self.advance();
            written += 1;
        }
        Turn::Write(text)
    }

    // Writes the frame that closes the session.
    fn close(&mut self, text: Blob) -> Turn
        requires due { IsDue Send self.old }
        requires next { IsNext self.old (Next.Close text) }
        requires asked { self.old.asked ≡ false }
        ensures turn { result ≡ Write text }
        ensures sends { SendsOn self.old text [] self.new }
        ensures holds { IsTurn result self.new }
        ensures joint { IsJoint result self.new }
        ensures asked { self.new.asked ≡ false }
        ensures stays { Stays self.old self.new }
        ensures spent { spent self.old < spent self.new }
        ensures told { self.new.told ≡ self.old.told }
    {
        self.stage = Stage::Closed;
        Turn::Write(text)
    }

    // Writes the next text.
    pub(super) fn write(&mut self, next: Next) -> Turn
        requires due { IsDue Send self.old }
        requires next { IsNext self.old next }
        requires asked { self.old.asked ≡ false }
        ensures sends { SendsOn self.old (text_of result) (also_of self.old.first result) self.new }
        ensures turn { IsTurn result self.new }
        ensures need { result ≢ Need }
        ensures asked { self.new.asked ≡ false }
        ensures stays { Stays self.old self.new }
        ensures told { IsToldOn result self.old.told self.new.told }
        ensures spent { IsSpent result (spent self.old) (spent self.new) }
        ensures joint { IsJoint result self.new }
        ensures acts { Acts Send self.old result self.new }
    {
        match next {
            Next::Open(text, places) => self.open(text, places),
            Next::Frames(joined) => self.send(joined),
            Next::Close(text) => self.close(text),
            Next::Nothing => unreachable!(),
        }
    }
}
