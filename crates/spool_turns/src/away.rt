//! A pass that is out.
use crate::naming::Naming;
use crate::rule::PassSeat;
use std::marker::{Model, PhantomData};

/// A pass that is out: it handed in entries, and comes back when the answer is collected.
///
/// To a contract it is what the pass knew when it handed in, and the entries.
#[derive(Drop)]
pub struct Away<J: Naming> {
    pub(crate) seat: PassSeat,
    pub(crate) number: u32,
    pub(crate) of: PhantomData<J>,
}

impl<J: Naming> Model for Away<J> {
    ghost use Rattle.std.specs.Prelude.{◌≡◌, ◌<◌, false, true};
    ghost use Rattle.spool_turns.specs.Passes.{IsClaim, number_in, handed_in};
    ghost use Rattle.spool_turns.specs.Sent.{Sent, sent_of};

    ghost Value = { Sent };

    ghost view = { λ a. sent_of a.seat.me.0 };

    ghost invariant = { λ a. (a.seat.table_id ≡ J.table.seats) × IsClaim a.seat.me × (number_in a.seat.me.0 ≡ a.number) × (a.number < J.seats)
        × ((handed_in a.seat.me.0).front ≡ false) × (J.began.grouped ≡ true) };
}
