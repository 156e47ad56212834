//! The rule of the table of seats, and its steps.
use crate::view::View;
use atomic_table::{Join, Play, Seat, Shared, Split, Table, TableRule};
use std::alloc::Global;
use std::marker::{Brand, PhantomData};

/// The rule: there is one journal, and what each seat knows of it is right.
pub struct OneJournal;

impl TableRule<u64, View, (u64, u64)> for OneJournal {
    ghost use Rattle.spool_turns.specs.Rules.{Kept, first_view};

    ghost holds = { λ _ s. Kept s.words s.views };

    ghost first = { first_view };
}

/// The table of seats. Word 0 is only read, word 1 is the end, word 2 the cursor, and word 3 counts the passes.
pub type SeatTable = Table<u64, View, (u64, u64), OneJournal, Global>;

pub type Steps = Shared<u64, View, (u64, u64), OneJournal>;

pub type PassSeat = Seat<u64, View>;

/// A pass hands its view over to a new seat.
pub struct HandsOver;

impl Split<View> for HandsOver {
    ghost use Rattle.spool_turns.specs.Rules.{Spent};

    ghost left = { λ v. Spent };

    ghost right = { λ v. v };
}

/// A pass comes under the lock, and leaves it.
pub struct Admits;

impl Join<View> for Admits {
    ghost use Rattle.spool_turns.specs.Rules.{Spent, admitted};

    ghost both = { admitted };

    ghost spent = { Spent };
}

impl Split<View> for Admits {
    ghost use Rattle.spool_turns.specs.Rules.{caller_of, released};

    ghost left = { released };

    ghost right = { caller_of };
}

/// What a pass has seen is copied, and another takes it in.
pub struct Merges;

impl Split<View> for Merges {
    ghost use Rattle.spool_turns.specs.Rules.{copy_of};

    ghost left = { λ v. v };

    ghost right = { copy_of };
}

impl Join<View> for Merges {
    ghost use Rattle.spool_turns.specs.Rules.{Spent, merging};

    ghost both = { merging };

    ghost spent = { Spent };
}

/// The record of a call. Each call picks it.
pub trait Recorded {
    ghost use Rattle.desk_access.specs.Call.{Record};

    ghost one: { Record };
}

impl Recorded for Brand {
    ghost use Rattle.std.specs.Prelude.{None, false};
    ghost use Rattle.desk_access.specs.Call.{Record, counts};

    ghost one = { record { by = 0; call = counts 0; joins = false; met = None; after = record { base = 0; end = 0; cursor = 0; known_count = 0; room = 0 }; clock = 0 } };
}

/// The call of the spool that is entered. Each call picks it.
pub trait Called {
    ghost use Rattle.desk_access.specs.Call.{Call};

    ghost call: { Call };
}

impl Called for Brand {
    ghost use Rattle.desk_access.specs.Call.{counts};

    ghost call = { counts 0 };
}

/// A record of the caller's call is added to the journal.
pub struct Records<C: Recorded> {
    of: PhantomData<C>,
}

impl<C: Recorded> Play<u64, View> for Records<C> {
    ghost use Rattle.spool_turns.specs.Rules.{Records};

    ghost then = { λ s v n w. Records C.one v w };
}

/// A pass under the lock sees the whole journal.
pub struct SeesAll;

impl Play<u64, View> for SeesAll {
    ghost use Rattle.spool_turns.specs.Rules.{SeesAll};

    ghost then = { λ s v n w. SeesAll v w };
}

/// The entries that a pass hands in, and whether the first of them may be taken alone. Each call picks them.
pub trait HandedIn {
    ghost use Rattle.std.specs.Prelude.{List, Bool};
    ghost use Rattle.event_form.specs.declared.event.Entry.{Entry};

    ghost entries: { List Entry };

    ghost front: { Bool };
}

impl HandedIn for Brand {
    ghost use Rattle.std.specs.Prelude.{[], false};

    ghost entries = { [] };

    ghost front = { false };
}

/// A pass goes out with entries: its seat keeps a claim to it, and another seat takes its view along.
pub struct SendsOut<E: HandedIn> {
    of: PhantomData<E>,
}

impl<E: HandedIn> Split<View> for SendsOut<E> {
    ghost use Rattle.spool_turns.specs.Rules.{claim_of, out_of};

    ghost left = { λ v. claim_of E.entries E.front v };

    ghost right = { λ v. out_of E.entries E.front v };
}

/// A pass comes back to its claim.
pub struct TakesBack;

impl Join<View> for TakesBack {
    ghost use Rattle.spool_turns.specs.Rules.{Spent, returning};

    ghost both = { returning };

    ghost spent = { Spent };
}

/// A pass that came back learns that it was out with what its claim says.
pub struct SettlesClaim;

impl Play<u64, View> for SettlesClaim {
    ghost use Rattle.spool_turns.specs.Rules.{SettlesClaim};

    ghost then = { λ s v n w. SettlesClaim v w };
}

/// A new pass is made.
pub struct MakesPass;

impl Play<u64, View> for MakesPass {
    ghost use Rattle.spool_turns.specs.Rules.{MakesPass};

    ghost then = { λ s v n w. MakesPass v w };
}

/// What the caller knows is learned.
pub struct Learns;

impl Play<u64, View> for Learns {
    ghost use Rattle.spool_turns.specs.Rules.{Learns};

    ghost then = { λ s v n w. Learns v w };
}

/// Word 1 is written.
pub struct WritesEnd;

impl Play<u64, View> for WritesEnd {
    ghost use Rattle.spool_turns.specs.Rules.{WritesEnd};

    ghost then = { λ s v n w. WritesEnd s.first v w };
}

/// Word 2 is written.
pub struct WritesCursor;

impl Play<u64, View> for WritesCursor {
    ghost use Rattle.spool_turns.specs.Rules.{WritesCursor};

    ghost then = { λ s v n w. WritesCursor s.first v w };
}

/// A pass loads word 1.
pub struct LoadsEnd;

impl Play<u64, View> for LoadsEnd {
    ghost use Rattle.spool_turns.specs.Rules.{LoadsEnd};

    ghost then = { λ s v n w. LoadsEnd v n w };
}

/// A pass loads word 2.
pub struct LoadsCursor;

impl Play<u64, View> for LoadsCursor {
    ghost use Rattle.spool_turns.specs.Rules.{LoadsCursor};

    ghost then = { λ s v n w. LoadsCursor v n w };
}

/// A pass compares the two journals that it knows.
pub struct Compares;

impl Play<u64, View> for Compares {
    ghost use Rattle.spool_turns.specs.Rules.{Compares};

    ghost then = { λ s v n w. Compares v w };
}
