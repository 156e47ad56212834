//! The desk that threads share.
ghost use Rattle.std.specs.Prelude.{◌≡◌, ◌+◌, ◌^◌, ◌<◌, ◌≤◌, nat_eq, ℕ, List, true, false, length, take, get_or, max, All, IfOk, IfErr};
ghost use Rattle.std.specs.List.{IsDistinct};
ghost use mathlib.Core.List.{IsPrefix};
ghost use Rattle.known_numbers.specs.Numbers.{IsInSome};
ghost use Rattle.event_form.specs.Entry.{IsEntry};
ghost use Rattle.spool_answers.specs.Mark.{EndsBy};
ghost use Rattle.spool_answers.specs.Pend.{AreNumbered};
ghost use Rattle.desk_access.specs.Call.{Record, takes, pends, confirms, marks, counts, issues, settles, forgets, asks, listed, own_of};
ghost use Rattle.spool_answers.specs.Take.{IsRefusal};
ghost use Rattle.desk_access.specs.Batch.{MayTake, MayUse, IsPlain};
ghost use Rattle.desk_access.specs.Desk.{DeskState};
ghost use Rattle.desk_access.specs.Legal.{IsNext, IsUnused, IsStored};
ghost use Rattle.desk_seats.specs.Passes.{Calls, LeadsBelow};
ghost use Rattle.spool_turns.specs.Passes.{IsAsked};
ghost use Rattle.spool_turns.specs.Replays.{Closes, IsReal, desk_at};
ghost use Rattle.spool_turns.specs.Levels.{HasLevel};

use crate::away::Away;
use crate::copies::copies_of;
use crate::going::{collect, send};
use crate::hall::{Hall, Tray};
use crate::journal::Journal;
use crate::letter::Answer;
use crate::level::Level;
use crate::naming::Naming;
use crate::pass::Pass;
use crate::rule::SeatTable;
use crate::tally::{StoredCounts, Tally};
use crate::turn::Turn;
use crate::twin::{TwinTable, free};
use desk_access::{Division, Front};
use edge_disk::Disk;
use event_form::Entry;
use hec_ids::IssueFault;
use known_numbers::Stretch;
use spool_answers::{ConfirmFault, Numbered, PendFault, Receipt, TakeFault};
use spool_desk::Desk;
use std::alloc::Global;
use std::sync::{Mutex, Wait};

/// A desk of many callers, each of which has a pass. Its calls answer as those of [`spool_log::Spool`] and
/// [`hec_ids::Ids`] do.
///
/// The calls of all passes have one order, their journal, which takes no memory. One lock is round the spool, and is held while the disk is
/// waited for. Another is round the ids and the journal: it is taken second, and held for moments only. So calls of ids don't wait for the
/// disk. Beside both lies the table of seats, by which a pass loads the end and the cursor without waiting.
///
/// What callers hand in lies in a hall, which has a lock of its own, until one of those that wait for an answer leads: it stores all that
/// lies there. Where the desk was opened with `group` each take goes by the hall, so that takes of several callers are stored as one
/// group, for one pair of syncs.
#[derive(Drop)]
pub struct Shared<D: Disk, J: Naming> {
    pub(crate) table: SeatTable,
    pub(crate) twins: TwinTable<D>,
    pub(crate) turn: Mutex<Turn<D, J>>,
    pub(crate) journal: Mutex<Journal<D, J>>,
    pub(crate) hall: Hall<D, J>,
    pub(crate) tally: Tally,
    pub(crate) group: bool,
    pub(crate) alloc: Global,
    pub(crate) run: u32,
    pub(crate) division: Division,
    ghost group_is: { group ≡ J.began.grouped },
    ghost run_is: { run ≡ J.run.number },
    ghost division_is: { division ≡ J.run.division },
    ghost run_of_start: { (x : DeskState) → J.start x → run ≡ x.spool.run },
    ghost table_is: { table.shared.table_id ≡ J.table.seats },
    ghost words: { table.shared.table_id.words ≡ 4 },
    ghost twins_are: { twins.shared.table_id ≡ J.table.twins },
    ghost twin_words: { 0 < twins.shared.table_id.words },
    ghost twin_slots: { twins.shared.table_id.slots ≡ 0 },
}

impl<D: Disk, J: Naming> Shared<D, J> {
    /// Takes the entries as one group. They are of one connection of this pass, of which they are the next ones. Either no
    /// entry's unit is an id, or all have one id as their unit, which this pass issued and which no other take used.
    ///
    /// With `group` copies of them are handed in, and may be stored as one group with what other passes hand in. Where no memory is found for
    /// the copies the entries are taken by themselves.
    pub fn take<R: Wait>(
        &self,
        rt: &R,
        pass: &mut Pass<J>,
        entries: &[Entry],
    ) -> Result<Receipt, TakeFault>
        requires few { length entries.now < 2 ^ 32 }
        requires limits { All IsEntry entries.now }
        requires next { MayTake (IsNext J.run pass.old.number pass.old.own) entries.now }
        requires units { MayUse (IsUnused pass.old.own) entries.now }

        ensures call { Calls J.start J.run J.seats pass.old (takes entries.now result) pass.new }
        ensures real { IsReal ⟦<D as Disk>⟧ J.start J.run J.seats J.began pass.new.seen }
        ensures receipt { IfOk result (λ receipt. (receipt.count ≡ length entries.now) × (receipt.first + receipt.count ≤ 2 ^ 63)) }
    {
        if self.group && !entries.is_empty() {
            // Where no memory is found for what is handed in, the take is made by itself.
            if let Ok(copies) = copies_of(self.alloc, entries) {
                return self.exchange(rt, pass, copies, false).answer;
            }
        }
        let answer = self.turn.lock(rt).take(rt, self, pass, entries);
        self.tally.note(entries, &answer);
        answer
    }

    /// Takes a front of the entries as one group: as many as the active slot has room for, and the first one at least. They are of
    /// one connection of this pass, of which they are the next ones, and no entry's unit is an id.
    ///
    /// With `group` they are handed in, and may be stored as one group with what other passes hand in.
    pub fn take_front<R: Wait>(&self, rt: &R, pass: &mut Pass<J>, entries: Vec<Entry>) -> Front
        requires some { 0 < length entries.items }
        requires few { length entries.items < 2 ^ 32 }
        requires limits { All IsEntry entries.items }
        requires next { MayTake (IsNext J.run pass.old.number pass.old.own) entries.items }
        requires plain { All IsPlain entries.items }

        ensures call { Calls J.start J.run J.seats pass.old (takes (take result.count entries.items) result.answer) pass.new }
        ensures real { IsReal ⟦<D as Disk>⟧ J.start J.run J.seats J.began pass.new.seen }
        ensures same { result.entries.items ≡ entries.items }
        ensures front { (0 < result.count) × (result.count ≤ length entries.items) }
        ensures receipt { IfOk result.answer (λ receipt. (receipt.count ≡ result.count) × (receipt.first + receipt.count ≤ 2 ^ 63)) }
        ensures alone { IfErr result.answer (λ fault. IsRefusal fault → result.count ≡ 1) }
    {
        if self.group {
            return self.exchange(rt, pass, entries, true);
        }
        let (count, answer) = self.turn.lock(rt).take_front(rt, self, pass, &entries);
        self.tally.note(&entries, &answer);
        Front {
            entries,
            count,
            answer,
        }
    }

    /// Hands in entries that are to be taken as one group, and doesn't wait until they are: the next caller that leads takes them. They are
    /// as those of `take`, at least one. The pass is out until its answer is collected. The desk was opened with `group`.
    pub fn hand_in<R: Wait>(&self, rt: &R, pass: Pass<J>, entries: Vec<Entry>) -> Away<J>
        requires group { J.began.grouped ≡ true }
        requires some { 0 < length entries.items }
        requires few { length entries.items < 2 ^ 32 }
        requires limits { All IsEntry entries.items }
        requires next { MayTake (IsNext J.run pass.number pass.own) entries.items }
        requires units { MayUse (IsUnused pass.own) entries.items }

        ensures pass { result.pass ≡ pass }
        ensures entries { result.entries ≡ entries.items }
    {
        let Pass {
            mut seat,
            number,
            of,
        } = pass;
        let letter = send(&self.table.shared, &mut seat, number, entries, false);
        self.hall.leave(rt, letter);
        Away { seat, number, of }
    }

    /// The pass again, with the entries that it handed in and the answer of the take of them. Where nobody has taken them yet it waits, or
    /// leads.
    pub fn collect<R: Wait>(&self, rt: &R, away: Away<J>) -> (Pass<J>, Front)
        ensures call { Calls J.start J.run J.seats away.pass (takes away.entries result.1.answer) result.0 }
        ensures real { IsReal ⟦<D as Disk>⟧ J.start J.run J.seats J.began result.0.seen }
        ensures same { result.1.entries.items ≡ away.entries }
        ensures whole { result.1.count ≡ length away.entries }
        ensures receipt { IfOk result.1.answer (λ receipt. (receipt.count ≡ length away.entries) × (receipt.first + receipt.count ≤ 2 ^ 63)) }
    {
        let Away {
            mut seat,
            number,
            of,
        } = away;
        let answer = self.answer_for(rt, number);
        let front = collect(&self.table.shared, &mut seat, answer);
        self.tally.note(&front.entries, &front.answer);
        (Pass { seat, number, of }, front)
    }

    // Hands in entries, and waits for the answer.
    fn exchange<R: Wait>(
        &self,
        rt: &R,
        pass: &mut Pass<J>,
        entries: Vec<Entry>,
        front: bool,
    ) -> Front
        requires group { J.began.grouped ≡ true }
        requires some { 0 < length entries.items }
        requires few { length entries.items < 2 ^ 32 }
        requires limits { All IsEntry entries.items }
        requires next { MayTake (IsNext J.run pass.old.number pass.old.own) entries.items }
        requires units { MayUse (IsUnused pass.old.own) entries.items }
        requires plain { front ≡ true → All IsPlain entries.items }

        ensures call { Calls J.start J.run J.seats pass.old (takes (take result.count entries.items) result.answer) pass.new }
        ensures real { IsReal ⟦<D as Disk>⟧ J.start J.run J.seats J.began pass.new.seen }
        ensures same { result.entries.items ≡ entries.items }
        ensures front { (0 < result.count) × (result.count ≤ length entries.items) }
        ensures whole { front ≡ false → result.count ≡ length entries.items }
        ensures receipt { IfOk result.answer (λ receipt. (receipt.count ≡ result.count) × (receipt.first + receipt.count ≤ 2 ^ 63)) }
        ensures alone { front ≡ true → IfErr result.answer (λ fault. IsRefusal fault → result.count ≡ 1) }
    {
        let number = pass.number;
        let letter = send(&self.table.shared, &mut pass.seat, number, entries, front);
        self.hall.leave(rt, letter);
        let answer = self.answer_for(rt, number);
        let front = collect(&self.table.shared, &mut pass.seat, answer);
        self.tally.note(&front.entries, &front.answer);
        front
    }

    // The answer to what the pass of that number handed in. Where it isn't there, and nobody leads, this caller does.
    fn answer_for<R: Wait>(&self, rt: &R, number: u32) -> Answer<D, J>
        requires group { J.began.grouped ≡ true }
        requires number { number < J.seats }
        ensures { result ≡ number }
    {
        for _ in rt.forever() {
            match self.hall.wait_for(rt, number) {
                Ok(answer) => return answer,
                Err(tray) => self.lead(rt, tray),
            }
        }
        unreachable!()
    }

    // Answers all that was handed in by the time at which the desk is free.
    fn lead<R: Wait>(&self, rt: &R, tray: Tray<D, J>)
        requires { J.began.grouped ≡ true }
    {
        let Tray {
            letters,
            mut answers,
        } = tray;
        let mut turn = self.turn.lock(rt);
        let mut letters = self.hall.letters(rt, letters);
        turn.answer_all(rt, self, &mut letters, &mut answers);
        drop(turn);
        self.hall.give_back(rt, letters, answers);
    }

    /// The first `most` of the entries with numbers from `from` that aren't known as confirmed, each with its number.
    pub fn pending<R: Wait>(
        &self,
        rt: &R,
        pass: &mut Pass<J>,
        from: u64,
        most: u32,
    ) -> Result<Vec<Numbered>, PendFault>
        requires number { from ≤ pass.old.end_known }

        ensures call { Calls J.start J.run J.seats pass.old (pends from most (listed result)) pass.new }
        ensures real { IsReal ⟦<D as Disk>⟧ J.start J.run J.seats J.began pass.new.seen }
        ensures few { IfOk result (λ given. length given.items ≤ most) }
        ensures numbered { IfOk result (λ given. AreNumbered 0 (2 ^ 63) given.items) }
    {
        self.turn.lock(rt).pending(rt, self, pass, from, most)
    }

    /// Makes all numbers below `upto` known as confirmed.
    pub fn confirm<R: Wait>(
        &self,
        rt: &R,
        pass: &mut Pass<J>,
        upto: u64,
    ) -> Result<(), ConfirmFault>
        requires caller { pass.old.number + 1 ≡ J.seats }
        requires number { upto ≤ pass.old.end_known }
        requires earned { (n : ℕ) → n < upto → D.may_release n }

        ensures call { Calls J.start J.run J.seats pass.old (confirms upto result) pass.new }
        ensures real { IsReal ⟦<D as Disk>⟧ J.start J.run J.seats J.began pass.new.seen }
    {
        self.turn.lock(rt).confirm(rt, self, pass, upto)
    }

    /// Makes the numbers of these stretches known as confirmed, one stretch after another.
    pub fn mark<R: Wait>(
        &self,
        rt: &R,
        pass: &mut Pass<J>,
        known: &[Stretch],
    ) -> Result<(), ConfirmFault>
        requires caller { pass.old.number + 1 ≡ J.seats }
        requires numbers { All (EndsBy pass.old.end_known) known.now }
        requires earned { (n : ℕ) → IsInSome known.now n → D.may_release n }

        ensures call { Calls J.start J.run J.seats pass.old (marks known.now result) pass.new }
        ensures real { IsReal ⟦<D as Disk>⟧ J.start J.run J.seats J.began pass.new.seen }
    {
        self.turn.lock(rt).mark(rt, self, pass, known)
    }

    /// How many numbers above the cursor are known as confirmed.
    pub fn known_count<R: Wait>(&self, rt: &R, pass: &mut Pass<J>) -> u64
        ensures call { Calls J.start J.run J.seats pass.old (counts result) pass.new }
        ensures real { IsReal ⟦<D as Disk>⟧ J.start J.run J.seats J.began pass.new.seen }
    {
        self.turn.lock(rt).known_count(rt, self, pass)
    }

    /// Issues the next id of the run to the channel, which then holds it unsettled.
    pub fn issue<R: Wait>(
        &self,
        rt: &R,
        pass: &mut Pass<J>,
        channel: u128,
    ) -> Result<u64, IssueFault>
        ensures call { Calls J.start J.run J.seats pass.old (issues channel result) pass.new }
        ensures real { IsReal ⟦<D as Disk>⟧ J.start J.run J.seats J.began pass.new.seen }
    {
        self.journal
            .lock(rt)
            .issue(&self.table.shared, pass, channel)
    }

    /// Settles an id of which this pass took the entries, and says whether the channel held it unsettled.
    pub fn settle<R: Wait>(&self, rt: &R, pass: &mut Pass<J>, channel: u128, id: u64) -> bool
        requires taken { IsStored pass.old.own id }

        ensures call { Calls J.start J.run J.seats pass.old (settles channel id result) pass.new }
        ensures real { IsReal ⟦<D as Disk>⟧ J.start J.run J.seats J.began pass.new.seen }
    {
        self.journal
            .lock(rt)
            .settle(&self.table.shared, pass, channel, id)
    }

    /// Forgets an id, settled or not, and says whether the channel held it.
    pub fn forget<R: Wait>(&self, rt: &R, pass: &mut Pass<J>, channel: u128, id: u64) -> bool
        ensures call { Calls J.start J.run J.seats pass.old (forgets channel id result) pass.new }
        ensures real { IsReal ⟦<D as Disk>⟧ J.start J.run J.seats J.began pass.new.seen }
    {
        self.journal
            .lock(rt)
            .forget(&self.table.shared, pass, channel, id)
    }

    /// Writes of each id into `known`, at its place, whether the channel holds it settled at this call. Those that it does
    /// are forgotten. The ids are distinct. The group of an id that is told true stands in the journal that the pass has seen.
    pub fn ask<R: Wait>(
        &self,
        rt: &R,
        pass: &mut Pass<J>,
        channel: u128,
        ids: &[u64],
        known: &mut [bool],
    )
        requires equal { length ids.now ≡ length known.old }
        requires distinct { IsDistinct nat_eq ids.now }

        ensures call { Calls J.start J.run J.seats pass.old (asks channel ids.now known.new) pass.new }
        ensures real { IsReal ⟦<D as Disk>⟧ J.start J.run J.seats J.began pass.new.seen }
        ensures held { (x : DeskState) → J.start x → IsAsked x channel ids.now known.new pass.new.seen }
        ensures stored { (x : DeskState) → J.start x → (k : ℕ) → k < length ids.now → get_or known.new k false ≡ true
            → (caller : ℕ) × IsStored (own_of caller pass.new.seen) (get_or ids.now k 0) }
    {
        self.journal
            .lock(rt)
            .ask(&self.table.shared, pass, channel, ids, known);
    }

    /// The end at this step, at most 2^63. It isn't less than the end after the journal that the pass has seen, nor more
    /// than the end after a later call of this pass. It doesn't wait.
    pub fn front(&self, pass: &mut Pass<J>) -> u64
        ensures loaded { (pass.old.end_known ≤ result) × (pass.new.end_known ≡ result) }
        ensures limit { result ≤ 2 ^ 63 }
        ensures same { (pass.new.number ≡ pass.old.number) × (pass.new.seen ≡ pass.old.seen) × (pass.new.own ≡ pass.old.own)
            × (pass.new.cursor_known ≡ pass.old.cursor_known) }
        ensures seen { (x : DeskState) → J.start x → LeadsBelow x pass.old.seen result pass.old.cursor_known }
    {
        pass.end(&self.table.shared)
    }

    /// The cursor at this step, of which the same is true. It doesn't wait.
    pub fn cursor(&self, pass: &mut Pass<J>) -> u64
        ensures loaded { (pass.old.cursor_known ≤ result) × (pass.new.cursor_known ≡ result) }
        ensures same { (pass.new.number ≡ pass.old.number) × (pass.new.seen ≡ pass.old.seen) × (pass.new.own ≡ pass.old.own)
            × (pass.new.end_known ≡ pass.old.end_known) }
        ensures seen { (x : DeskState) → J.start x → LeadsBelow x pass.old.seen pass.old.end_known result }
    {
        pass.cursor(&self.table.shared)
    }

    /// Where the spool stands after the last call that the journal has, as memory has it; in doubt as before the call that failed. It
    /// needs no pass, and the journal has no record of it. It takes the lock of the journal alone, and doesn't wait for the disk.
    pub fn level<R: Wait>(&self, rt: &R) -> Level
        ensures real { HasLevel ⟦<D as Disk>⟧ J.start J.run J.seats J.began result }
    {
        self.journal.lock(rt).level()
    }

    /// How many events of each protocol the takes so far have stored. Those of a take are counted when it is answered; nothing waits for
    /// that.
    pub fn stored(&self) -> StoredCounts {
        self.tally.stored()
    }

    /// How often the spool was opened for storing.
    pub fn run(&self) -> u32
        ensures is { result ≡ J.run.number }
        ensures seen { (x : DeskState) → J.start x → result ≡ x.spool.run }
    {
        self.run
    }

    /// How the numbers of the run's connections are divided among the passes.
    pub fn division(&self) -> Division
        ensures { result ≡ J.run.division }
    {
        self.division
    }

    /// The pass has then seen all that the other has seen. Their own calls stay. It doesn't wait.
    pub fn meet(&self, pass: &mut Pass<J>, other: &mut Pass<J>)
        ensures first { IsPrefix pass.old.seen pass.new.seen }
        ensures second { IsPrefix other.old.seen pass.new.seen }
        ensures own { (pass.new.number ≡ pass.old.number) × (pass.new.own ≡ pass.old.own) }
        ensures loaded { (pass.new.end_known ≡ max pass.old.end_known other.old.end_known)
            × (pass.new.cursor_known ≡ max pass.old.cursor_known other.old.cursor_known) }
        ensures other { other.new ≡ other.old }
    {
        pass.meet(&self.table.shared, other);
    }

    /// The desk again, as one lawful journal of all calls left it. What each pass has seen is a beginning of that journal, what the
    /// journal adds is legal, and so is each pass's own part of it. Whatever a crash leaves has each entry that was taken, at its number
    /// or below the cursor. What was handed in and not taken yet isn't taken any more.
    pub fn close(self, passes: Vec<Pass<J>>) -> Desk<D>
        ensures { (log : List Record) × Closes D.tells J.start J.run J.seats J.began log passes.items (desk_at result) }
    {
        let Shared {
            table,
            twins,
            turn,
            journal,
            ..
        } = self;
        let desk = journal
            .into_inner()
            .close(&table.shared, &twins.shared, turn.into_inner(), passes);
        free(twins);
        desk
    }
}
