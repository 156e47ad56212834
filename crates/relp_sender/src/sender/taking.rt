//! The peer's frames, as a sender takes them.
ghost use Rattle.std.specs.Prelude.{◌≡◌, ◌<◌, ◌≤◌, false, [], length, IfSome, IfNone, IsTrue};
ghost use Rattle.relp_sender.specs.declared.due.Due.TheVariants.{Hear};
ghost use Rattle.relp_sender.specs.declared.next.Next.{Next};
ghost use Rattle.relp_sender.specs.Due.{HearsNext, IsDue, MayHear, Suits};
ghost use Rattle.relp_sender.specs.Sender.{HasTold};
ghost use Rattle.relp_sender.specs.Sends.{SendsOn};
ghost use Rattle.relp_sender.specs.Spending.{spent};
ghost use Rattle.relp_sender.specs.Turns.{Hears, Stays};

use super::RelpSender;
use crate::due::Due;
use crate::hearing::{Heard, hear};
use crate::stage::Stage;
use crate::window::beyond;

impl RelpSender {
    // Whether this may be done that a frame of the peer does: to hear it is due, or some were heard in this turn and it
    // acknowledges a frame more.
    fn may_hear(&self, goes_on: bool, heard: Heard) -> bool
        ensures may { IsTrue result → MayHear goes_on self.now heard }
        ensures not { result ≡ false → IsDue Hear self.now → ⊥ }
    {
        match self.due() {
            Due::Hear => true,
            Due::Confirm => goes_on && self.beyond.is_none() && heard.is_acknowledgment(),
            _ => false,
        }
    }

    // What the next of the peer's frames does, where one waits and that may be done.
    fn next_heard(&self, goes_on: bool) -> Option<Heard>
        ensures some { IfSome result (HearsNext goes_on self.now) }
        ensures none { IfNone result (IsDue Hear self.now → self.now.reader.waiting ≡ []) }
    {
        let placed = self.reader.first()?;
        let heard = hear(self.stage, &self.unanswered, placed.at, &placed.frame);
        if self.may_hear(goes_on, heard) {
            Some(heard)
        } else {
            None
        }
    }

    // Takes the next of the peer's frames, where one waits and is heard, and does what it says. It goes on where some
    // were taken in this turn.
    pub(super) fn take_frame(&mut self, goes_on: bool) -> bool
        requires asked { self.old.asked ≡ false }
        ensures sends { IsTrue result → SendsOn self.old [] [] self.new }
        ensures none { result ≡ false → (self.new ≡ self.old) × (IsDue Hear self.old → self.old.reader.waiting ≡ []) }
        ensures hears { IsTrue result → goes_on ≡ false → Hears self.old }
        ensures fewer { IsTrue result → length self.new.reader.waiting < length self.old.reader.waiting }
        ensures spent { spent self.old ≤ spent self.new }
        ensures rests { HasTold self.new → HasTold self.old × (spent self.new ≡ spent self.old) }
        ensures asked { self.new.asked ≡ false }
        ensures stays { Stays self.old self.new }
        ensures suits { (n : Next) → Suits self.old n → Suits self.new n }
        ensures told { self.new.told ≡ self.old.told }
    {
        let Some(heard) = self.next_heard(goes_on) else {
            return false;
        };
        let Some(_placed) = self.reader.take_placed() else {
            unreachable!()
        };
        match heard {
            Heard::Ignored => true,
            Heard::Opens => {
                self.stage = Stage::Open;
                true
            }
            Heard::Acknowledged(index) => {
                let Some(place) = self.unanswered.remove(index) else {
                    unreachable!()
                };
                self.beyond = beyond(index, place);
                true
            }
            Heard::Stopped(stop) => {
                self.stop = Some(stop);
                true
            }
        }
    }
}
