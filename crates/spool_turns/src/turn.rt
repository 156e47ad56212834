//! What lies under the lock of the spool.
ghost use Rattle.std.specs.Prelude.{◌≡◌, ◌+◌, ◌^◌, ◌<◌, ◌≤◌, ℕ, length, take, All, IfOk, IfErr};
ghost use Rattle.known_numbers.specs.Numbers.{IsInSome};
ghost use Rattle.event_form.specs.Entry.{IsEntry};
ghost use Rattle.spool_answers.specs.Mark.{EndsBy};
ghost use Rattle.spool_answers.specs.Pend.{AreNumbered};
ghost use Rattle.desk_access.specs.Call.{takes, pends, confirms, marks, counts, listed};
ghost use Rattle.spool_answers.specs.Take.{IsRefusal};
ghost use Rattle.desk_access.specs.Batch.{MayTake, MayUse, IsPlain};
ghost use Rattle.desk_access.specs.Legal.{IsNext, IsUnused};
ghost use Rattle.desk_seats.specs.Passes.{Calls};
ghost use Rattle.spool_turns.specs.Replays.{IsReal};
ghost use Rattle.spool_turns.specs.Twins.{of_spool};

use crate::naming::Naming;
use crate::pass::Pass;
use crate::shared::Shared;
use crate::twin::TwinSeat;
use desk_access::Access;
use edge_disk::Disk;
use event_form::Entry;
use known_numbers::Stretch;
use spool_answers::{ConfirmFault, Numbered, PendFault, Receipt, TakeFault};
use spool_desk::Alone;
use std::marker::{Brand, PhantomData};
use std::sync::Wait;

/// The spool, as a desk whose own ids aren't used, and the one of two seats that knows where it is. The journal lies under a lock of its
/// own, which is taken while this one is held, and for moments only: not while the disk is waited for.
#[derive(Drop)]
pub struct Turn<D: Disk, J: Naming> {
    pub(crate) alone: Alone<D>,
    pub(crate) twin: TwinSeat<D>,
    pub(crate) of: PhantomData<J>,
    ghost twin_table: { twin.table_id ≡ J.table.twins },
    ghost twin_is: { twin.me ≡ of_spool alone },
}

impl<D: Disk, J: Naming> Turn<D, J> {
    pub(crate) fn take<R: Wait>(
        &mut self,
        rt: &R,
        desk: &Shared<D, J>,
        pass: &mut Pass<J>,
        entries: &[Entry],
    ) -> Result<Receipt, TakeFault>
        requires few { length entries.now < 2 ^ 32 }
        requires limits { All IsEntry entries.now }
        requires next { MayTake (IsNext J.run pass.old.number pass.old.own) entries.now }
        requires units { MayUse (IsUnused pass.old.own) entries.now }

        ensures call { Calls J.start J.run J.seats pass.old (takes entries.now result) pass.new }
        ensures real { IsReal ⟦<D as Disk>⟧ J.start J.run J.seats J.began pass.new.seen }
        ensures receipt { IfOk result (λ receipt. (receipt.count ≡ length entries.now) × (receipt.first + receipt.count ≤ 2 ^ 63)) }
    {
        let answer = self.alone.take(entries);
        desk.journal
            .lock(rt)
            .enter::<Brand, &[Entry], Result<Receipt, TakeFault>>(
                &desk.table.shared,
                &desk.twins.shared,
                &mut self.alone,
                &mut self.twin,
                &mut pass.seat,
                &entries,
                &answer,
            );
        answer
    }

    pub(crate) fn take_front<R: Wait>(
        &mut self,
        rt: &R,
        desk: &Shared<D, J>,
        pass: &mut Pass<J>,
        entries: &[Entry],
    ) -> (usize, Result<Receipt, TakeFault>)
        requires some { 0 < length entries.now }
        requires few { length entries.now < 2 ^ 32 }
        requires limits { All IsEntry entries.now }
        requires next { MayTake (IsNext J.run pass.old.number pass.old.own) entries.now }
        requires plain { All IsPlain entries.now }

        ensures call { Calls J.start J.run J.seats pass.old (takes (take result.0 entries.now) result.1) pass.new }
        ensures real { IsReal ⟦<D as Disk>⟧ J.start J.run J.seats J.began pass.new.seen }
        ensures front { (0 < result.0) × (result.0 ≤ length entries.now) }
        ensures receipt { IfOk result.1 (λ receipt. (receipt.count ≡ result.0) × (receipt.first + receipt.count ≤ 2 ^ 63)) }
        ensures alone { IfErr result.1 (λ fault. IsRefusal fault → result.0 ≡ 1) }
    {
        let count = self.alone.fitting(entries);
        let front = &entries[..count];
        let answer = self.alone.take(front);
        desk.journal
            .lock(rt)
            .enter::<Brand, &[Entry], Result<Receipt, TakeFault>>(
                &desk.table.shared,
                &desk.twins.shared,
                &mut self.alone,
                &mut self.twin,
                &mut pass.seat,
                &front,
                &answer,
            );
        (count, answer)
    }

    pub(crate) fn pending<R: Wait>(
        &mut self,
        rt: &R,
        desk: &Shared<D, J>,
        pass: &mut Pass<J>,
        from: u64,
        most: u32,
    ) -> Result<Vec<Numbered>, PendFault>
        requires number { from ≤ pass.old.end_known }

        ensures call { Calls J.start J.run J.seats pass.old (pends from most (listed result)) pass.new }
        ensures real { IsReal ⟦<D as Disk>⟧ J.start J.run J.seats J.began pass.new.seen }
        ensures few { IfOk result (λ given. length given.items ≤ most) }
        ensures numbered { IfOk result (λ given. AreNumbered 0 (2 ^ 63) given.items) }
    {
        self.look(rt, desk, pass);
        let answer = self.alone.pending(from, most);
        desk.journal
            .lock(rt)
            .enter::<Brand, (u64, u32), Result<Vec<Numbered>, PendFault>>(
                &desk.table.shared,
                &desk.twins.shared,
                &mut self.alone,
                &mut self.twin,
                &mut pass.seat,
                &(from, most),
                &answer,
            );
        answer
    }

    pub(crate) fn confirm<R: Wait>(
        &mut self,
        rt: &R,
        desk: &Shared<D, J>,
        pass: &mut Pass<J>,
        upto: u64,
    ) -> Result<(), ConfirmFault>
        requires caller { pass.old.number + 1 ≡ J.seats }
        requires number { upto ≤ pass.old.end_known }
        requires earned { (n : ℕ) → n < upto → D.may_release n }

        ensures call { Calls J.start J.run J.seats pass.old (confirms upto result) pass.new }
        ensures real { IsReal ⟦<D as Disk>⟧ J.start J.run J.seats J.began pass.new.seen }
    {
        self.look(rt, desk, pass);
        let answer = self.alone.confirm(upto);
        desk.journal
            .lock(rt)
            .enter::<Brand, u64, Result<(), ConfirmFault>>(
                &desk.table.shared,
                &desk.twins.shared,
                &mut self.alone,
                &mut self.twin,
                &mut pass.seat,
                &upto,
                &answer,
            );
        answer
    }

    pub(crate) fn mark<R: Wait>(
        &mut self,
        rt: &R,
        desk: &Shared<D, J>,
        pass: &mut Pass<J>,
        known: &[Stretch],
    ) -> Result<(), ConfirmFault>
        requires caller { pass.old.number + 1 ≡ J.seats }
        requires numbers { All (EndsBy pass.old.end_known) known.now }
        requires earned { (n : ℕ) → IsInSome known.now n → D.may_release n }

        ensures call { Calls J.start J.run J.seats pass.old (marks known.now result) pass.new }
        ensures real { IsReal ⟦<D as Disk>⟧ J.start J.run J.seats J.began pass.new.seen }
    {
        self.look(rt, desk, pass);
        let answer = self.alone.mark(known);
        desk.journal
            .lock(rt)
            .enter::<Brand, &[Stretch], Result<(), ConfirmFault>>(
                &desk.table.shared,
                &desk.twins.shared,
                &mut self.alone,
                &mut self.twin,
                &mut pass.seat,
                &known,
                &answer,
            );
        answer
    }

    pub(crate) fn known_count<R: Wait>(
        &mut self,
        rt: &R,
        desk: &Shared<D, J>,
        pass: &mut Pass<J>,
    ) -> u64
        ensures call { Calls J.start J.run J.seats pass.old (counts result) pass.new }
        ensures real { IsReal ⟦<D as Disk>⟧ J.start J.run J.seats J.began pass.new.seen }
    {
        let answer = self.alone.known_count();
        desk.journal.lock(rt).enter::<Brand, (), u64>(
            &desk.table.shared,
            &desk.twins.shared,
            &mut self.alone,
            &mut self.twin,
            &mut pass.seat,
            &(),
            &answer,
        );
        answer
    }

    // The pass has loaded no end above that of the desk.
    fn look<R: Wait>(&mut self, rt: &R, desk: &Shared<D, J>, pass: &mut Pass<J>)
        ensures alone { self.new.alone ≡ self.old.alone }
        ensures pass { pass.new ≡ pass.old }
        ensures end { pass.old.end_known ≤ self.new.alone.end_told }
    {
        desk.journal.lock(rt).look(
            &desk.table.shared,
            &desk.twins.shared,
            &self.alone,
            &mut self.twin,
            &mut pass.seat,
        );
    }
}
