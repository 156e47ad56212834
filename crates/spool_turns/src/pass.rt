//! A pass: what one caller of the shared desk knows.
ghost use Rattle.std.specs.Prelude.{◌≡◌, ◌^◌, ◌≤◌, max};
ghost use mathlib.Core.List.{IsPrefix};
ghost use Rattle.desk_access.specs.Desk.{DeskState};
ghost use Rattle.desk_seats.specs.Passes.{LeadsBelow};

use crate::naming::Naming;
use crate::rule::{PassSeat, Steps};
use crate::steps::{load_cursor, load_end, merge};
use std::marker::{Model, PhantomData};

/// A pass of a shared desk, which one caller has.
///
/// To a contract it is what the caller knows: the pass's number, the journal that it has seen, its own calls, and the
/// greatest end and cursor that it loaded.
#[derive(Drop)]
pub struct Pass<J: Naming> {
    pub(crate) seat: PassSeat,
    pub(crate) number: u32,
    pub(crate) of: PhantomData<J>,
}

impl<J: Naming> Model for Pass<J> {
    ghost use Rattle.std.specs.Prelude.{◌≡◌, ◌<◌, None};
    ghost use Rattle.desk_seats.specs.Passes.{Known};
    ghost use Rattle.spool_turns.specs.Passes.{known_of, pass_in, IsPass, Sound};

    ghost Value = { Known };

    ghost view = { λ p. known_of (pass_in p.seat.me.0) };

    ghost invariant = { λ p. (p.seat.table_id ≡ J.table.seats) × IsPass p.seat.me × Sound J.start (pass_in p.seat.me.0)
        × ((pass_in p.seat.me.0).number ≡ p.number) × (p.number < J.seats) × ((pass_in p.seat.me.0).out ≡ None) };
}

impl<J: Naming> Pass<J> {
    /// The pass has then seen all that the other has seen.
    pub(crate) fn meet(&mut self, steps: &Steps, other: &mut Pass<J>)
        requires table { (steps.now.table_id ≡ J.table.seats) × (steps.now.table_id.words ≡ 4) }

        ensures first { IsPrefix self.old.seen self.new.seen }
        ensures second { IsPrefix other.old.seen self.new.seen }
        ensures own { (self.new.number ≡ self.old.number) × (self.new.own ≡ self.old.own) }
        ensures loaded { (self.new.end_known ≡ max self.old.end_known other.old.end_known)
            × (self.new.cursor_known ≡ max self.old.cursor_known other.old.cursor_known) }
        ensures other { other.new ≡ other.old }
    {
        merge(steps, &mut self.seat, &mut other.seat);
    }

    /// Loads the end.
    pub(crate) fn end(&mut self, steps: &Steps) -> u64
        requires table { (steps.now.table_id ≡ J.table.seats) × (steps.now.table_id.words ≡ 4) }

        ensures seen { (x : DeskState) → J.start x → LeadsBelow x self.old.seen result self.old.cursor_known }
        ensures loaded { (self.old.end_known ≤ result) × (self.new.end_known ≡ result) }
        ensures limit { result ≤ 2 ^ 63 }
        ensures same { (self.new.number ≡ self.old.number) × (self.new.seen ≡ self.old.seen) × (self.new.own ≡ self.old.own)
            × (self.new.cursor_known ≡ self.old.cursor_known) }
    {
        load_end(steps, &mut self.seat)
    }

    /// Loads the cursor.
    pub(crate) fn cursor(&mut self, steps: &Steps) -> u64
        requires table { (steps.now.table_id ≡ J.table.seats) × (steps.now.table_id.words ≡ 4) }

        ensures seen { (x : DeskState) → J.start x → LeadsBelow x self.old.seen self.old.end_known result }
        ensures loaded { (self.old.cursor_known ≤ result) × (self.new.cursor_known ≡ result) }
        ensures same { (self.new.number ≡ self.old.number) × (self.new.seen ≡ self.old.seen) × (self.new.own ≡ self.old.own)
            × (self.new.end_known ≡ self.old.end_known) }
    {
        load_cursor(steps, &mut self.seat)
    }
}
