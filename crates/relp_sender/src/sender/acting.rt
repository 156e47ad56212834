//! What a sender does where no frame of the peer is to be taken.
ghost use Rattle.std.specs.Prelude.{◌≡◌, ◌≢◌, true, false, [], Some};
ghost use Rattle.event_form.specs.declared.turn.Turn.TheVariants.{Need};
ghost use Rattle.event_form.specs.Turn.{IsResting, text_of};
ghost use Rattle.relp_sender.specs.declared.due.Due.{Due};
ghost use Rattle.relp_sender.specs.declared.due.Due.TheVariants.{Stopped, Confirm, Tell, Ask, Hear};
ghost use Rattle.relp_sender.specs.Due.{IsDue, Suits};
ghost use Rattle.relp_sender.specs.Sender.{HasTold};
ghost use Rattle.relp_sender.specs.Sends.{SendsOn};
ghost use Rattle.relp_sender.specs.Spending.{IsSpent, spent};
ghost use Rattle.relp_sender.specs.Turns.{Acts, IsJoint, IsToldOn, IsTurn, Stays, also_of};

use super::RelpSender;
use crate::due::Due;
use crate::next::Next;
use crate::stage::Stop;
use event_form::{Turn, Why};

impl RelpSender {
    // Does what is due.
    pub(super) fn act(&mut self, next: Next) -> Turn
        requires next { Suits self.old next }
        requires asked { self.old.asked ≡ false }
        requires heard { IsDue Hear self.old → self.old.reader.waiting ≡ [] }
        ensures sends { SendsOn self.old (text_of result) (also_of self.old.first result) self.new }
        ensures turn { IsTurn result self.new }
        ensures asked { self.new.asked ≡ true → result ≡ Need }
        ensures need { result ≡ Need → self.new.asked ≡ true }
        ensures stays { Stays self.old self.new }
        ensures told { IsToldOn result self.old.told self.new.told }
        ensures spent { IsSpent result (spent self.old) (spent self.new) }
        ensures rests { IsResting result → HasTold self.old }
        ensures joint { IsJoint result self.new }
        ensures acts { (due : Due) → IsDue due self.old → Acts due self.old result self.new }
    {
        if let Some(stop) = self.stop {
            return self.stopped(stop);
        }
        match self.due() {
            Due::Confirm => self.confirm(),
            Due::Tell => self.tell(),
            Due::Send => self.write(next),
            Due::Ask => self.ask(),
            Due::End => Turn::Done,
            Due::Hear => self.unheard(),
            Due::Stopped => unreachable!(),
        }
    }

    // The ending that the peer made.
    fn stopped(&self, stop: Stop) -> Turn
        requires { self.now.stop ≡ Some stop }
        ensures turn { IsTurn result self.now }
        ensures text { text_of result ≡ [] }
        ensures also { also_of self.now.first result ≡ [] }
        ensures need { result ≢ Need }
        ensures told { IsToldOn result self.now.told self.now.told }
        ensures spent { IsSpent result (spent self.now) (spent self.now) }
        ensures acts { Acts Stopped self.now result self.now }
    {
        match stop {
            Stop::Hint => Turn::PeerClosed,
            Stop::Refused { unit, code } => Turn::Refused { unit, code },
            Stop::BadReply { at } => Turn::PeerFault {
                at,
                why: Why::Reply,
            },
        }
    }

    // Where no frame waits: the fault of the peer's bytes, or more of them are to be fed.
    fn unheard(&self) -> Turn
        requires due { IsDue Hear self.now }
        requires none { self.now.reader.waiting ≡ [] }
        ensures turn { IsTurn result self.now }
        ensures text { text_of result ≡ [] }
        ensures also { also_of self.now.first result ≡ [] }
        ensures need { result ≢ Need }
        ensures told { IsToldOn result self.now.told self.now.told }
        ensures spent { IsSpent result (spent self.now) (spent self.now) }
        ensures acts { Acts Hear self.now result self.now }
    {
        match self.fault {
            Some(fault) => Turn::PeerFault {
                at: fault.at,
                why: Why::from(fault.why),
            },
            None => Turn::Wait,
        }
    }

    // Tells how many of the first entries are acknowledged.
    fn confirm(&mut self) -> Turn
        requires due { IsDue Confirm self.old }
        requires asked { self.old.asked ≡ false }
        ensures sends { SendsOn self.old [] [] self.new }
        ensures text { text_of result ≡ [] }
        ensures also { also_of self.old.first result ≡ [] }
        ensures turn { IsTurn result self.new }
        ensures need { result ≢ Need }
        ensures asked { self.new.asked ≡ false }
        ensures stays { Stays self.old self.new }
        ensures told { IsToldOn result self.old.told self.new.told }
        ensures spent { IsSpent result (spent self.old) (spent self.new) }
        ensures acts { Acts Confirm self.old result self.new }
    {
        self.told = self.known();
        Turn::Confirmed {
            upto: self.first + self.told,
        }
    }

    // Tells that an entry after those is acknowledged.
    fn tell(&mut self) -> Turn
        requires due { IsDue Tell self.old }
        requires asked { self.old.asked ≡ false }
        ensures sends { SendsOn self.old [] (also_of self.old.first result) self.new }
        ensures text { text_of result ≡ [] }
        ensures turn { IsTurn result self.new }
        ensures need { result ≢ Need }
        ensures asked { self.new.asked ≡ false }
        ensures stays { Stays self.old self.new }
        ensures told { IsToldOn result self.old.told self.new.told }
        ensures spent { IsSpent result (spent self.old) (spent self.new) }
        ensures acts { Acts Tell self.old result self.new }
    {
        let Some(place) = self.beyond.take() else {
            unreachable!()
        };
        let from = self.first + place;
        Turn::Also { from, to: from + 1 }
    }

    // Asks for more entries.
    fn ask(&mut self) -> Turn
        requires due { IsDue Ask self.old }
        ensures sends { SendsOn self.old [] [] self.new }
        ensures turn { IsTurn result self.new }
        ensures need { result ≡ Need }
        ensures asked { self.new.asked ≡ true }
        ensures stays { Stays self.old self.new }
        ensures told { self.new.told ≡ self.old.told }
        ensures spent { spent self.new ≡ spent self.old }
        ensures acts { Acts Ask self.old result self.new }
    {
        self.asked = true;
        Turn::Need
    }
}
