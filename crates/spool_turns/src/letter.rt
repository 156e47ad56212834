//! What a pass hands in, and what comes back to it.
use crate::naming::Naming;
use crate::rule::PassSeat;
use edge_disk::Disk;
use event_form::Entry;
use spool_answers::{Receipt, TakeFault};
use std::marker::{Model, PhantomData};

/// What a pass hands in: its seat, and the entries that it may take. With `front` a front of them may be taken alone.
#[derive(Drop)]
pub(crate) struct Letter<J: Naming> {
    pub(crate) seat: PassSeat,
    pub(crate) number: u32,
    pub(crate) entries: Vec<Entry>,
    pub(crate) front: bool,
    pub(crate) of: PhantomData<J>,
}

impl<J: Naming> Model for Letter<J> {
    ghost use Rattle.std.specs.Prelude.{◌≡◌, ℕ};
    ghost use Rattle.spool_turns.specs.Letters.{IsLetter};

    ghost Value = { ℕ };

    ghost view = { λ l. l.number };

    ghost invariant = { λ l. (l.seat.table_id ≡ J.table.seats) × IsLetter J.run J.seats l.number l.entries.items l.front l.seat.me };
}

/// What comes back: the seat, the entries, how many of them were to be taken, and the answer of that take.
#[derive(Drop)]
pub(crate) struct Answer<D: Disk, J: Naming> {
    pub(crate) seat: PassSeat,
    pub(crate) number: u32,
    pub(crate) entries: Vec<Entry>,
    pub(crate) count: usize,
    pub(crate) answer: Result<Receipt, TakeFault>,
    pub(crate) of: PhantomData<J>,
    pub(crate) over: PhantomData<D>,
}

impl<D: Disk, J: Naming> Model for Answer<D, J> {
    ghost use Rattle.std.specs.Prelude.{◌≡◌, ℕ};
    ghost use Rattle.spool_turns.specs.Letters.{IsAnswered};

    ghost Value = { ℕ };

    ghost view = { λ a. a.number };

    ghost invariant = { λ a. (a.seat.table_id ≡ J.table.seats)
        × IsAnswered ⟦<D as Disk>⟧ J.start J.run J.seats J.began a.number a.entries.items a.count a.answer a.seat.me };
}
