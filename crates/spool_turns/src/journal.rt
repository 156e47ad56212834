//! What lies under the lock of the journal.
ghost use Rattle.std.specs.Prelude.{◌≡◌, ◌+◌, ◌-◌, ◌<◌, ◌≤◌, nat_eq, ℕ, false, true, length, get_or};
ghost use Rattle.std.specs.List.{IsDistinct};
ghost use Rattle.desk_access.specs.Call.{issues, settles, forgets, asks, own_of};
ghost use Rattle.desk_access.specs.Desk.{DeskState};
ghost use Rattle.desk_access.specs.Legal.{May, IsStored};
ghost use Rattle.desk_seats.specs.Passes.{Calls};
ghost use Rattle.spool_turns.specs.Passes.{IsPass, Sound, IsAsked, known_of, pass_in};
ghost use Rattle.spool_turns.specs.Replays.{Closes, IsReal, desk_at};
ghost use Rattle.spool_turns.specs.Levels.{HasLevel};
ghost use Rattle.spool_turns.specs.Twins.{of_spool};
ghost use Rattle.spool_turns.specs.Stands.{IsMade};

use crate::calling::{enter_call, enter_idle};
use crate::level::Level;
use crate::naming::Naming;
use crate::pass::Pass;
use crate::rule::{Called, PassSeat, Steps};
use crate::steps::{check_numbers, check_pass, learn};
use crate::turn::Turn;
use crate::twin::{TwinSeat, TwinSteps, apart, meet};
use edge_disk::Disk;
use hec_ids::{Ids, IssueFault};
use spool_desk::{Alone, Desk};
use std::marker::{Brand, Model, PhantomData};

/// The ids, the seat that has the journal, and the one of two seats that knows where the spool's last call left the desk, with the level
/// there. To a contract it is the journal.
#[derive(Drop)]
pub struct Journal<D: Disk, J: Naming> {
    pub(crate) ids: Ids,
    pub(crate) locked: PassSeat,
    pub(crate) twin: TwinSeat<D>,
    pub(crate) level: Level,
    pub(crate) of: PhantomData<J>,
}

impl<D: Disk, J: Naming> Model for Journal<D, J> {
    ghost use Rattle.std.specs.Prelude.{◌≡◌, List};
    ghost use Rattle.desk_access.specs.Call.{Record};
    ghost use Rattle.spool_turns.specs.Passes.{facts_in};
    ghost use Rattle.spool_turns.specs.Stands.{IsKept};
    ghost use Rattle.spool_turns.specs.Levels.{IsLevelOf};

    ghost Value = { List Record };

    ghost view = { λ j. (facts_in j.locked.me.0).log };

    ghost invariant = { λ j. (j.locked.table_id ≡ J.table.seats) × (j.twin.table_id ≡ J.table.twins)
        × IsKept ⟦<D as Disk>⟧ J.start J.run J.seats J.began j.ids j.locked.me j.twin.me
        × IsLevelOf j.twin.me.0 j.level };
}

impl<D: Disk, J: Naming> Journal<D, J> {
    /// The pass has loaded no end above that of the desk, which the spool's seat knows.
    pub(crate) fn look(
        &mut self,
        steps: &Steps,
        twins: &TwinSteps<D>,
        alone: &Alone<D>,
        twin: &mut TwinSeat<D>,
        seat: &mut PassSeat,
    )
        requires tables { (steps.now.table_id ≡ J.table.seats) × (steps.now.table_id.words ≡ 4) × (twins.now.table_id ≡ J.table.twins) × (0 < twins.now.table_id.words) }
        requires seats { (seat.old.table_id ≡ J.table.seats) × (twin.old.table_id ≡ J.table.twins) }
        requires twin { twin.old.me ≡ of_spool alone.now }
        requires pass { IsPass seat.old.me }

        ensures seats { (seat.new.table_id ≡ J.table.seats) × (twin.new.table_id ≡ J.table.twins) }
        ensures twin { twin.new.me ≡ of_spool alone.now }
        ensures pass { seat.new.me ≡ seat.old.me }
        ensures end { (pass_in seat.old.me.0).end_known ≤ alone.now.end_told }
    {
        meet(twins, &mut self.twin, twin);
        learn(steps, &mut self.locked, seat);
        *twin = apart(twins, &mut self.twin, alone);
    }

    /// Enters a call that the spool has answered, and which its pass might make. The call and its answer are for the proof alone.
    pub(crate) fn enter<C: Called, X, Y>(
        &mut self,
        steps: &Steps,
        twins: &TwinSteps<D>,
        alone: &mut Alone<D>,
        twin: &mut TwinSeat<D>,
        seat: &mut PassSeat,
        call: &X,
        answer: &Y,
    )
        requires tables { (steps.now.table_id ≡ J.table.seats) × (steps.now.table_id.words ≡ 4) × (twins.now.table_id ≡ J.table.twins) × (0 < twins.now.table_id.words) }
        requires seats { (seat.old.table_id ≡ J.table.seats) × (twin.old.table_id ≡ J.table.twins) }
        requires made { IsMade ⟦<D as Disk>⟧ C.call twin.old.me alone.old }
        requires pass { IsPass seat.old.me }
        requires may { May J.run (J.seats - 1) (pass_in seat.old.me.0).number (pass_in seat.old.me.0).own C.call }

        ensures seats { (seat.new.table_id ≡ J.table.seats) × (twin.new.table_id ≡ J.table.twins) }
        ensures twin { twin.new.me ≡ of_spool alone.new }
        ensures pass { IsPass seat.new.me × Sound J.start (pass_in seat.new.me.0) × ((pass_in seat.new.me.0).number ≡ (pass_in seat.old.me.0).number)
            × ((pass_in seat.new.me.0).out ≡ (pass_in seat.old.me.0).out) }
        ensures call { Calls J.start J.run J.seats (known_of (pass_in seat.old.me.0)) C.call (known_of (pass_in seat.new.me.0)) }
        ensures real { IsReal ⟦<D as Disk>⟧ J.start J.run J.seats J.began (pass_in seat.new.me.0).seen }
    {
        meet(twins, &mut self.twin, twin);
        enter_call::<Brand, D, X, Y>(steps, &mut self.locked, alone, seat, call, answer);
        *twin = apart(twins, &mut self.twin, alone);
        self.level = Level::of(alone);
    }

    pub(crate) fn issue(
        &mut self,
        steps: &Steps,
        pass: &mut Pass<J>,
        channel: u128,
    ) -> Result<u64, IssueFault>
        requires table { (steps.now.table_id ≡ J.table.seats) × (steps.now.table_id.words ≡ 4) }

        ensures call { Calls J.start J.run J.seats pass.old (issues channel result) pass.new }
        ensures real { IsReal ⟦<D as Disk>⟧ J.start J.run J.seats J.began pass.new.seen }
    {
        let answer = self.ids.issue(channel);
        enter_idle::<Brand, D, u128, Result<u64, IssueFault>>(
            steps,
            &mut self.locked,
            &self.twin,
            &mut pass.seat,
            &channel,
            &answer,
        );
        answer
    }

    pub(crate) fn settle(
        &mut self,
        steps: &Steps,
        pass: &mut Pass<J>,
        channel: u128,
        id: u64,
    ) -> bool
        requires table { (steps.now.table_id ≡ J.table.seats) × (steps.now.table_id.words ≡ 4) }
        requires taken { IsStored pass.old.own id }

        ensures call { Calls J.start J.run J.seats pass.old (settles channel id result) pass.new }
        ensures real { IsReal ⟦<D as Disk>⟧ J.start J.run J.seats J.began pass.new.seen }
    {
        let answer = self.ids.settle(channel, id);
        enter_idle::<Brand, D, (u128, u64), bool>(
            steps,
            &mut self.locked,
            &self.twin,
            &mut pass.seat,
            &(channel, id),
            &answer,
        );
        answer
    }

    pub(crate) fn forget(
        &mut self,
        steps: &Steps,
        pass: &mut Pass<J>,
        channel: u128,
        id: u64,
    ) -> bool
        requires table { (steps.now.table_id ≡ J.table.seats) × (steps.now.table_id.words ≡ 4) }

        ensures call { Calls J.start J.run J.seats pass.old (forgets channel id result) pass.new }
        ensures real { IsReal ⟦<D as Disk>⟧ J.start J.run J.seats J.began pass.new.seen }
    {
        let answer = self.ids.forget(channel, id);
        enter_idle::<Brand, D, (u128, u64), bool>(
            steps,
            &mut self.locked,
            &self.twin,
            &mut pass.seat,
            &(channel, id),
            &answer,
        );
        answer
    }

    pub(crate) fn ask(
        &mut self,
        steps: &Steps,
        pass: &mut Pass<J>,
        channel: u128,
        ids: &[u64],
        known: &mut [bool],
    )
        requires table { (steps.now.table_id ≡ J.table.seats) × (steps.now.table_id.words ≡ 4) }
        requires equal { length ids.now ≡ length known.old }
        requires distinct { IsDistinct nat_eq ids.now }

        ensures call { Calls J.start J.run J.seats pass.old (asks channel ids.now known.new) pass.new }
        ensures real { IsReal ⟦<D as Disk>⟧ J.start J.run J.seats J.began pass.new.seen }
        ensures held { (x : DeskState) → J.start x → IsAsked x channel ids.now known.new pass.new.seen }
        ensures stored { (x : DeskState) → J.start x → (k : ℕ) → k < length ids.now → get_or known.new k false ≡ true
            → (caller : ℕ) × IsStored (own_of caller pass.new.seen) (get_or ids.now k 0) }
    {
        self.ids.ask(channel, ids, known);
        let answer: &[bool] = known;
        enter_idle::<Brand, D, (u128, &[u64]), &[bool]>(
            steps,
            &mut self.locked,
            &self.twin,
            &mut pass.seat,
            &(channel, ids),
            &answer,
        );
    }

    /// Where the spool's last call left it.
    pub(crate) fn level(&self) -> Level
        ensures { HasLevel ⟦<D as Disk>⟧ J.start J.run J.seats J.began result }
    {
        self.level
    }

    /// The desk again: its spool, which lay under the other lock, and the ids.
    pub(crate) fn close(
        self,
        steps: &Steps,
        twins: &TwinSteps<D>,
        turn: Turn<D, J>,
        mut passes: Vec<Pass<J>>,
    ) -> Desk<D>
        requires tables { (steps.now.table_id ≡ J.table.seats) × (steps.now.table_id.words ≡ 4) × (twins.now.table_id ≡ J.table.twins) × (0 < twins.now.table_id.words) }

        ensures { Closes D.tells J.start J.run J.seats J.began self passes.items (desk_at result) }
    {
        let Journal {
            ids,
            mut locked,
            twin: mut mine,
            ..
        } = self;
        let Turn {
            alone,
            twin: mut other,
            of: _,
        } = turn;
        meet(twins, &mut mine, &mut other);
        check_numbers(steps, &mut locked);
        while let Some(pass) = passes.pop() {
            let Pass { seat, .. } = pass;
            check_pass(steps, &mut locked, seat);
        }
        let Desk { spool, ids: _ } = alone.into_desk();
        Desk { spool, ids }
    }
}
