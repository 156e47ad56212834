//! A pass at the desk that threads share, as a caller of the desk.
use crate::naming::Naming;
use crate::pass::Pass;
use crate::shared::Shared;
use desk_access::{Access, Front};
use desk_seats::Seat;
use edge_disk::Disk;
use event_form::Entry;
use hec_ids::IssueFault;
use known_numbers::Stretch;
use spool_answers::{ConfirmFault, Numbered, PendFault, Receipt, TakeFault};
use std::sync::Wait;

/// A pass at its desk. What it does may wait for the lock, but for `run`, `end` and `cursor`.
#[derive(Drop)]
pub struct Seated<'a, D: Disk, J: Naming, R: Wait> {
    /// The desk that the pass is of.
    pub shared: &'a Shared<D, J>,
    /// Who calls.
    pub pass: Pass<J>,
    /// The right to wait for the lock.
    pub rt: &'a R,
}

impl<'a, D: Disk, J: Naming, R: Wait> Access for Seated<'a, D, J, R> {
    ghost use Rattle.std.specs.Prelude.{◌≡◌, ◌+◌, ◌<◌, length};
    ghost use Rattle.desk_access.specs.History.{IsDesk};
    ghost use Rattle.desk_access.specs.Legal.{IsNext, IsUnused, IsStored};
    ghost use Rattle.spool_turns.specs.Replays.{IsReal};
    ghost use Rattle.desk_seats.specs.Ran.{Ran, ran_none, ran_more, none_real, more_real, ran_seen, ran_lawful};
    ghost use Rattle.desk_seats.specs.Ran.{ran_next, ran_issued, ran_unused, ran_stored, ran_still_stored, ran_confirms};

    ghost number = { λ a. a.pass.number };

    ghost seen = { λ a x journal. J.start x × IsDesk x × (journal ≡ a.pass.seen) };

    ghost ran = { λ a calls b. Ran J.start a.pass calls b.pass
        × (0 < length calls → IsReal ⟦<D as Disk>⟧ J.start J.run J.seats J.began b.pass.seen) };

    ghost may_take = { λ a conn index. IsNext J.run a.pass.number a.pass.own conn index };

    ghost may_use = { λ a id. IsUnused a.pass.own id };

    ghost may_settle = { λ a id. IsStored a.pass.own id };

    ghost may_confirm = { λ a. a.pass.number + 1 ≡ J.seats };

    ghost may_release = { D.may_release };

    ghost end_known = { λ a. a.pass.end_known };

    ghost cursor_known = { λ a. a.pass.cursor_known };

    fn run(&mut self) -> u32 {
        self.shared.run()
    }

    fn end(&mut self) -> u64 {
        self.shared.front(&mut self.pass)
    }

    fn cursor(&mut self) -> u64 {
        self.shared.cursor(&mut self.pass)
    }

    fn take(&mut self, entries: &[Entry]) -> Result<Receipt, TakeFault> {
        self.shared.take(self.rt, &mut self.pass, entries)
    }

    fn take_front(&mut self, entries: Vec<Entry>) -> Front {
        self.shared.take_front(self.rt, &mut self.pass, entries)
    }

    fn pending(&mut self, from: u64, most: u32) -> Result<Vec<Numbered>, PendFault> {
        self.shared.pending(self.rt, &mut self.pass, from, most)
    }

    fn confirm(&mut self, upto: u64) -> Result<(), ConfirmFault> {
        self.shared.confirm(self.rt, &mut self.pass, upto)
    }

    fn mark(&mut self, known: &[Stretch]) -> Result<(), ConfirmFault> {
        self.shared.mark(self.rt, &mut self.pass, known)
    }

    fn known_count(&mut self) -> u64 {
        self.shared.known_count(self.rt, &mut self.pass)
    }

    fn issue(&mut self, channel: u128) -> Result<u64, IssueFault> {
        self.shared.issue(self.rt, &mut self.pass, channel)
    }

    fn settle(&mut self, channel: u128, id: u64) -> bool {
        self.shared.settle(self.rt, &mut self.pass, channel, id)
    }

    fn forget(&mut self, channel: u128, id: u64) -> bool {
        self.shared.forget(self.rt, &mut self.pass, channel, id)
    }

    fn ask(&mut self, channel: u128, ids: &[u64], known: &mut [bool]) {
        self.shared
            .ask(self.rt, &mut self.pass, channel, ids, known);
    }

    ghost ran_none = { λ a. (ran_none J.start a.pass, none_real (IsReal ⟦<D as Disk>⟧ J.start J.run J.seats J.began a.pass.seen)) };

    ghost ran_more = { λ a b c calls more p q. (
      ran_more J.start a.pass b.pass c.pass calls more p.0 q.0,
      more_real J.start b.pass c.pass calls more (IsReal ⟦<D as Disk>⟧ J.start J.run J.seats J.began) q.0 p.1 q.1,
    ) };

    ghost seen_more = { λ a b calls x journal ran seen. ran_seen J.start a.pass b.pass calls x journal ran.0 seen };

    ghost seen_lawful = { λ a b calls x journal ran some seen. ran_lawful J.start a.pass b.pass calls x journal ran.0 some seen };

    ghost known_rises = { λ a b calls ran. (ran.0.end_known, ran.0.cursor_known) };

    ghost may_take_more = { λ a b calls conn index ran sure all may. ran_next J.start J.run a.pass b.pass calls conn index ran.0 sure all may };

    ghost may_use_issued = { λ a b channel id ran. ran_issued J.start a.pass b.pass channel id ran.0 };

    ghost may_use_more = { λ a b calls id ran unused may. ran_unused J.start a.pass b.pass calls id ran.0 unused may };

    ghost may_settle_taken = { λ a b group receipt id ran some units. ran_stored J.start a.pass b.pass group receipt id ran.0 some units };

    ghost may_settle_more = { λ a b calls id ran may. ran_still_stored J.start a.pass b.pass calls id ran.0 may };

    ghost may_confirm_more = { λ a b calls ran may. ran_confirms J.start J.seats a.pass b.pass calls ran.0 may };
}

impl<'a, D: Disk, J: Naming, R: Wait> Seat for Seated<'a, D, J, R> {
    ghost use Rattle.std.specs.Prelude.{refl};
    ghost use Rattle.spool_turns.specs.Replays.{IsReal};

    type Pass = Pass<J>;

    ghost start = { J.start };

    ghost of_run = { J.run };

    ghost seats = { J.seats };

    ghost is_real = { IsReal ⟦<D as Disk>⟧ J.start J.run J.seats J.began };

    ghost knows = { λ a. a.pass };

    ghost pass_knows = { λ pass. pass };

    fn beside(&self, pass: Pass<J>) -> Self {
        Seated {
            shared: self.shared,
            pass,
            rt: self.rt,
        }
    }

    fn into_pass(self) -> Pass<J> {
        let Seated { pass, .. } = self;
        pass
    }

    fn first_conn(&self, caller: u32) -> u64 {
        self.shared.division().first_conn(self.shared.run(), caller)
    }

    fn meet(&mut self, other: &mut Pass<J>) {
        self.shared.meet(&mut self.pass, other);
    }

    ghost knows_calls = { λ a b calls ran. ran };

    ghost has_seen = { λ a x journal began is_desk same. (began, is_desk, same) };

    ghost knows_words = { λ a. (refl, refl) };

    ghost may_begin = { λ a conn index next. next };

    ghost confirms = { λ a may. may };
}
