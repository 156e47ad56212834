//! A desk with one caller.
ghost use Rattle.std.specs.Prelude.{◌^◌, ◌≤◌};

use crate::Desk;
use crate::stretches::{count_known, end_by};
use desk_access::{Access, Front, Standing};
use edge_disk::Disk;
use event_form::{Entry, entry_size};
use hec_ids::IssueFault;
use known_numbers::Stretch;
use spool_answers::{ConfirmFault, Numbered, PendFault, Receipt, TakeFault};
use spool_slots::group_need;

/// Numbers of entries end here.
const LAST_NUMBER: u64 = 1 << 63;

/// A desk with one caller, which may take entries of any connection, settle any id, and confirm.
///
/// Its calls are those of the spool and of the ids. It keeps no journal: what its calls did is a relation
/// between its value before and after them.
#[derive(Drop)]
pub struct Alone<D: Disk> {
    pub desk: Desk<D>,
    /// The numbers that the last call of `take` and those below it met, once a doubt was mended. `None`
    /// where mending failed, or no call was made.
    pub met: Option<Standing>,
    /// The greatest end that was answered, or 0.
    pub end_told: u64,
    /// The greatest cursor that was answered, or 0.
    pub cursor_told: u64,
    pub ghost limit: { end_told ≤ 2 ^ 63 },
}

impl<D: Disk> Alone<D> {
    ghost use Rattle.std.specs.Prelude.{◌≡◌, ◌+◌, ◌<◌, ◌⊎◌, List, [], ◌∷◌, length, take, All, IfErr, IsErrOf, IsTrue, false};
    ghost use Rattle.spool_state.specs.SpoolState.{SpoolState};
    ghost use Rattle.edge_disk.specs.Calls.{Calls};
    ghost use Rattle.spool_log.specs.Memory.{run_of};
    ghost use Rattle.spool_log.specs.Changing.Take.{RefusedBy};
    ghost use Rattle.spool_log.specs.State.{view, IsIn};
    ghost use Rattle.spool_desk.specs.Standing.{standing_in};
    ghost use Rattle.desk_access.specs.Desk.{DeskState, desk_of};
    ghost use Rattle.spool_desk.specs.Fitting.{FitsInRoom};
    ghost use Rattle.event_form.specs.Entry.{IsEntry};
    ghost use Rattle.desk_access.specs.JointRecords.{Part, joined, ArePartsOf, joint_of};
    ghost use Rattle.spool_desk.specs.Alone.{alone_at, IsAt, HoldsNone, Mended, RunsTo};

    /// The desk with its caller. Its spool isn't in doubt, and its ids are of the spool's run and hold none.
    /// A state that the spool is in is the desk's.
    pub fn new(desk: Desk<D>) -> Alone<D>
        requires sure { desk.spool.doubt ≡ false }
        requires ids { HoldsNone (run_of desk.spool.memory) desk.ids }

        ensures desk { result.desk ≡ desk }
        ensures at { (s : SpoolState) → IsIn s [] (view desk.spool.memory desk.spool.doubt (D.moment desk.spool.disk))
            → IsAt (desk_of s [] desk.ids) (alone_at result) }
    {
        Alone {
            desk,
            met: None,
            end_told: 0,
            cursor_told: 0,
        }
    }

    /// The desk again. What is in doubt stays so.
    pub fn into_desk(self) -> Desk<D>
        ensures { result ≡ self.desk }
    {
        let Alone { desk, .. } = self;
        desk
    }

    /// The numbers of the spool, as memory has them. In doubt they are as before the call that failed.
    pub fn standing(&self) -> Standing
        ensures { result ≡ standing_in self.now.desk.spool.memory }
    {
        let spool = &self.desk.spool;
        Standing {
            base: spool.base(),
            end: spool.end(),
            cursor: spool.cursor(),
            known_count: count_known(spool.known()),
            room: spool.room(),
        }
    }

    /// Takes the entries of several callers as one group, which has room in the active slot of a spool that isn't in doubt. What
    /// each caller handed in is a part, and the calls are the takes of the parts: answered Ok each has its place in the group, and
    /// where the disk failed all failed in one, and mending finds all of them or none. There is no other fault.
    pub fn take_jointly(&mut self, entries: &[Entry]) -> Result<Receipt, TakeFault>
        requires few { (0 < length entries.now) × (length entries.now < 2 ^ 32) }
        requires limits { All IsEntry entries.now }
        requires fits { FitsInRoom self.old.desk.spool.doubt self.old.desk.spool.memory entries.now }

        ensures made { (part : Part) (parts : List Part) → joined (part ∷ parts) ≡ entries.now → ArePartsOf (part ∷ parts)
            → RunsTo D.tells (alone_at self.old) (joint_of result (D.moment self.new.desk.spool.disk).clock (standing_in self.old.desk.spool.memory) (part ∷ parts)) (alone_at self.new) }
        ensures only { IfErr result (λ fault. fault ≡ TakeFault.DiskFault) }
        ensures ids { self.new.desk.ids ≡ self.old.desk.ids }
    {
        let all = entries;
        self.desk.spool.take(all)
    }

    /// How many of the entries, from the first one on, have room as one group in the active slot. The first one
    /// counts always, and alone where the spool is in doubt.
    pub fn fitting(&self, entries: &[Entry]) -> usize
        requires some { 0 < length entries.now }
        requires few { length entries.now < 2 ^ 32 }
        requires limits { All IsEntry entries.now }

        ensures front { (0 < result) × (result ≤ length entries.now) }
        ensures fits { (result ≡ 1) ⊎ FitsInRoom self.now.desk.spool.doubt self.now.desk.spool.memory (take result entries.now) }
    {
        let count = self.counted(entries);
        if self.has_room(&entries[..count]) {
            count
        } else {
            1
        }
    }

    /// Whether there is no doubt, and the entries have room as one group in the active slot, and numbers.
    pub fn has_room(&self, entries: &[Entry]) -> bool
        requires few { length entries.now < 2 ^ 32 }
        requires limits { All IsEntry entries.now }
        ensures { IsTrue result → FitsInRoom self.now.desk.spool.doubt self.now.desk.spool.memory entries.now }
    {
        let spool = &self.desk.spool;
        let need = group_need(entries);
        !spool.doubt()
            && need <= spool.most()
            && need <= spool.room()
            && entries.len() as u64 <= LAST_NUMBER - spool.end()
    }

    // How many of the entries have room, by their sizes added up.
    fn counted(&self, entries: &[Entry]) -> usize
        requires some { 0 < length entries.now }
        ensures { (0 < result) × (result ≤ length entries.now) }
    {
        let room = self.desk.spool.room();
        let mut need = 9u64;
        let mut count = 0usize;
        for entry in entries {
            need = need.saturating_add(entry_size(entry));
            if need > room {
                break;
            }
            count = count.saturating_add(1);
        }
        count.clamp(1, entries.len())
    }

    /// Mends a doubt, and notes what was found, for a call that goes on from there.
    fn mend(&mut self) -> Result<(), PendFault>
        ensures idle { self.old.desk.spool.doubt ≡ false → self.new.desk ≡ self.old.desk }
        ensures same { (self.new.desk.ids ≡ self.old.desk.ids) × (self.new.end_told ≡ self.old.end_told) × (self.new.cursor_told ≡ self.old.cursor_told) }
        ensures calls { Calls (IsErrOf result PendFault.DiskFault) (D.moment self.old.desk.spool.disk) (D.moment self.new.desk.spool.disk) }
        ensures mended { (x : DeskState) → D.tells → IsAt x (alone_at self.old) → Mended x result (alone_at self.old) (alone_at self.new) }
    {
        self.met = None;
        self.desk.spool.mend()?;
        self.met = Some(self.standing());
        Ok(())
    }
}

impl<D: Disk> Access for Alone<D> {
    ghost use Rattle.std.specs.Prelude.{◌≡◌, ℕ, ◌+◌, ◌<◌, List, [], ◌∷◌, length, take, All, IfOk, IfErr, nat_eq, refl, false};
    ghost use Rattle.spool_answers.specs.Take.{IsRefusal};
    ghost use Rattle.spool_log.specs.Changing.Take.{RefusedBy};
    ghost use Rattle.std.specs.List.{IsDistinct};
    ghost use Rattle.known_numbers.specs.Numbers.{IsInSome};
    ghost use Rattle.event_form.specs.Entry.{IsEntry};
    ghost use Rattle.spool_state.specs.SpoolState.{end};
    ghost use Rattle.spool_answers.specs.Mark.{EndsBy};
    ghost use Rattle.spool_answers.specs.Pend.{AreNumbered};
    ghost use Rattle.desk_access.specs.Call.{Call, takes, pends, confirms, marks, counts, issues, settles, forgets, asks, Record, listed};
    ghost use Rattle.desk_access.specs.Desk.{DeskState, Goes};
    ghost use Rattle.spool_desk.specs.Standing.{standing_in};
    ghost use Rattle.spool_desk.specs.Alone.{alone_at, Makes, Ran, RunsTo, HasSeen};
    ghost use Rattle.spool_desk.specs.Runs.{ran_none, ran_then, seen_then, seen_law};

    ghost number = { λ _. 0 };

    ghost seen = { λ a x journal. HasSeen D.tells x journal (alone_at a) };

    ghost ran = { λ a calls b. Ran D.tells (alone_at a) calls (alone_at b) };

    ghost may_take = { λ _ _ _. Unit {0} };

    ghost may_use = { λ _ _. Unit {0} };

    ghost may_settle = { λ _ _. Unit {0} };

    ghost may_confirm = { λ _. Unit {0} };

    ghost may_release = { D.may_release };

    ghost end_known = { λ a. a.end_told };

    ghost cursor_known = { λ a. a.cursor_told };

    fn run(&mut self) -> u32 {
        self.desk.spool.run()
    }

    /// The number after the last entry of the state after the journal seen.
    fn end(&mut self) -> u64
        ensures ran { Ran D.tells (alone_at self.old) [] (alone_at self.new) }
        ensures runs { RunsTo D.tells (alone_at self.old) [] (alone_at self.new) }
        ensures known { self.new.end_told ≡ result }
        ensures least { (standing_in self.new.desk.spool.memory).end ≤ result }
        ensures limit { result ≤ 2 ^ 63 }
        ensures same { (self.new.desk ≡ self.old.desk) × (self.new.met ≡ self.old.met) × (self.new.cursor_told ≡ self.old.cursor_told) }
        ensures exact { (x : DeskState) (journal : List Record) → HasSeen D.tells x journal (alone_at self.old)
            → (y : DeskState) × Goes x journal y × (result ≡ end y.spool) }
        ensures seen { (x : DeskState) (journal : List Record) → HasSeen D.tells x journal (alone_at self.old)
            → (y : DeskState) × Goes x journal y × (end y.spool ≤ result) }
    {
        self.end_told = self.end_told.max(self.desk.spool.end());
        self.end_told
    }

    /// The cursor of the state after the journal seen.
    fn cursor(&mut self) -> u64
        ensures ran { Ran D.tells (alone_at self.old) [] (alone_at self.new) }
        ensures runs { RunsTo D.tells (alone_at self.old) [] (alone_at self.new) }
        ensures known { self.new.cursor_told ≡ result }
        ensures least { (standing_in self.new.desk.spool.memory).cursor ≤ result }
        ensures same { (self.new.desk ≡ self.old.desk) × (self.new.met ≡ self.old.met) × (self.new.end_told ≡ self.old.end_told) }
        ensures exact { (x : DeskState) (journal : List Record) → HasSeen D.tells x journal (alone_at self.old)
            → (y : DeskState) × Goes x journal y × (result ≡ y.spool.cursor) }
        ensures seen { (x : DeskState) (journal : List Record) → HasSeen D.tells x journal (alone_at self.old)
            → (y : DeskState) × Goes x journal y × (y.spool.cursor ≤ result) }
    {
        self.cursor_told = self.cursor_told.max(self.desk.spool.cursor());
        self.cursor_told
    }

    fn take(&mut self, entries: &[Entry]) -> Result<Receipt, TakeFault>
        requires few { length entries.now < 2 ^ 32 }
        requires limits { All IsEntry entries.now }

        ensures ran { Ran D.tells (alone_at self.old) (takes entries.now result ∷ []) (alone_at self.new) }
        ensures makes { Makes D.tells (alone_at self.old) (takes entries.now result) (alone_at self.new) }
        ensures ids { self.new.desk.ids ≡ self.old.desk.ids }
        ensures receipt { IfOk result (λ receipt. (receipt.count ≡ length entries.now) × (receipt.first + receipt.count ≤ 2 ^ 63)) }
        ensures before { self.old.desk.spool.doubt ≡ false → IfErr result (RefusedBy self.old.desk.spool.memory entries.now) }
    {
        if entries.is_empty() {
            self.met = Some(self.standing());
            return self.desk.spool.take(entries);
        }
        self.mend()?;
        self.desk.spool.take(entries)
    }

    fn take_front(&mut self, entries: Vec<Entry>) -> Front
        requires some { 0 < length entries.items }
        requires few { length entries.items < 2 ^ 32 }
        requires limits { All IsEntry entries.items }

        ensures same { result.entries.items ≡ entries.items }
        ensures front { (0 < result.count) × (result.count ≤ length entries.items) }
        ensures ran { Ran D.tells (alone_at self.old) (takes (take result.count entries.items) result.answer ∷ []) (alone_at self.new) }
        ensures makes { Makes D.tells (alone_at self.old) (takes (take result.count entries.items) result.answer) (alone_at self.new) }
        ensures receipt { IfOk result.answer (λ receipt. (receipt.count ≡ result.count) × (receipt.first + receipt.count ≤ 2 ^ 63)) }
        ensures alone { IfErr result.answer (λ fault. IsRefusal fault → result.count ≡ 1) }
    {
        let all = entries.as_slice();
        let count = self.fitting(all);
        let answer = self.take(&all[..count]);
        Front {
            entries,
            count,
            answer,
        }
    }

    fn pending(&mut self, from: u64, most: u32) -> Result<Vec<Numbered>, PendFault>
        requires number { from ≤ self.old.end_told }

        ensures ran { Ran D.tells (alone_at self.old) (pends from most (listed result) ∷ []) (alone_at self.new) }
        ensures makes { Makes D.tells (alone_at self.old) (pends from most (listed result)) (alone_at self.new) }
        ensures ids { self.new.desk.ids ≡ self.old.desk.ids }
        ensures few { IfOk result (λ given. length given.items ≤ most) }
        ensures numbered { IfOk result (λ given. AreNumbered 0 (2 ^ 63) given.items) }
    {
        self.mend()?;
        // On a disk that doesn't read as it was written, mending may find an end below one that was answered.
        let from = from.min(self.desk.spool.end());
        self.desk.spool.pending(from, most)
    }

    fn confirm(&mut self, upto: u64) -> Result<(), ConfirmFault>
        requires number { upto ≤ self.old.end_told }
        requires earned { (n : ℕ) → n < upto → D.may_release n }

        ensures ran { Ran D.tells (alone_at self.old) (confirms upto result ∷ []) (alone_at self.new) }
        ensures makes { Makes D.tells (alone_at self.old) (confirms upto result) (alone_at self.new) }
        ensures ids { self.new.desk.ids ≡ self.old.desk.ids }
    {
        self.mend()?;
        let upto = upto.min(self.desk.spool.end());
        self.desk.spool.confirm(upto)
    }

    fn mark(&mut self, known: &[Stretch]) -> Result<(), ConfirmFault>
        requires numbers { All (EndsBy self.old.end_told) known.now }
        requires earned { (n : ℕ) → IsInSome known.now n → D.may_release n }

        ensures ran { Ran D.tells (alone_at self.old) (marks known.now result ∷ []) (alone_at self.new) }
        ensures makes { Makes D.tells (alone_at self.old) (marks known.now result) (alone_at self.new) }
        ensures ids { self.new.desk.ids ≡ self.old.desk.ids }
    {
        self.mend()?;
        // On a disk that doesn't read as it was written, mending may find an end below one that was answered.
        if !end_by(known, self.desk.spool.end()) {
            return self.desk.spool.mark(&[]);
        }
        self.desk.spool.mark(known)
    }

    fn known_count(&mut self) -> u64
        ensures ran { Ran D.tells (alone_at self.old) (counts result ∷ []) (alone_at self.new) }
        ensures makes { Makes D.tells (alone_at self.old) (counts result) (alone_at self.new) }
        ensures ids { self.new.desk.ids ≡ self.old.desk.ids }
    {
        self.met = Some(self.standing());
        count_known(self.desk.spool.known())
    }

    fn issue(&mut self, channel: u128) -> Result<u64, IssueFault>
        ensures ran { Ran D.tells (alone_at self.old) (issues channel result ∷ []) (alone_at self.new) }
        ensures makes { Makes D.tells (alone_at self.old) (issues channel result) (alone_at self.new) }
    {
        self.met = Some(self.standing());
        self.desk.ids.issue(channel)
    }

    fn settle(&mut self, channel: u128, id: u64) -> bool
        ensures ran { Ran D.tells (alone_at self.old) (settles channel id result ∷ []) (alone_at self.new) }
        ensures makes { Makes D.tells (alone_at self.old) (settles channel id result) (alone_at self.new) }
    {
        self.met = Some(self.standing());
        self.desk.ids.settle(channel, id)
    }

    fn forget(&mut self, channel: u128, id: u64) -> bool
        ensures ran { Ran D.tells (alone_at self.old) (forgets channel id result ∷ []) (alone_at self.new) }
        ensures makes { Makes D.tells (alone_at self.old) (forgets channel id result) (alone_at self.new) }
    {
        self.met = Some(self.standing());
        self.desk.ids.forget(channel, id)
    }

    fn ask(&mut self, channel: u128, ids: &[u64], known: &mut [bool])
        requires equal { length ids.now ≡ length known.old }
        requires distinct { IsDistinct nat_eq ids.now }
        ensures ran { Ran D.tells (alone_at self.old) (asks channel ids.now known.new ∷ []) (alone_at self.new) }
        ensures makes { Makes D.tells (alone_at self.old) (asks channel ids.now known.new) (alone_at self.new) }
    {
        self.met = Some(self.standing());
        self.desk.ids.ask(channel, ids, known);
    }

    ghost ran_none = { λ a. ran_none D.tells (alone_at a) (D.lawful a.desk.spool.disk) };

    ghost ran_more = { λ a b c calls more p q. ran_then D.tells _ _ _ calls more p q };

    ghost seen_more = { λ a b calls x journal ran seen. (refl, seen_then D.tells x journal _ _ calls ran seen) };

    ghost seen_lawful = { λ a b calls x journal ran some seen. seen_law D.tells x journal _ _ calls ran seen };

    ghost known_rises = { λ a b calls ran. (ran.runs.end_rises, ran.runs.cursor_rises) };

    ghost may_take_more = { λ a b calls conn index ran sure all may. tt };

    ghost may_use_issued = { λ a b channel id ran. tt };

    ghost may_use_more = { λ a b calls id ran unused may. tt };

    ghost may_settle_taken = { λ a b group receipt id ran some units. tt };

    ghost may_settle_more = { λ a b calls id ran may. tt };

    ghost may_confirm_more = { λ a b calls ran may. tt };
}
