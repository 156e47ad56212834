//! The calls of a desk, for one caller.
ghost use Rattle.std.specs.Prelude.{◌≡◌, ℕ, ◌+◌, ◌^◌, ◌<◌, ◌≤◌, nat_eq, List, [], ◌∷◌, ◌++◌, length, take, All, Ok, IfOk, IfErr};
ghost use Rattle.std.specs.List.{IsDistinct};
ghost use Rattle.known_numbers.specs.Numbers.{IsInSome};
ghost use Rattle.event_form.specs.declared.event.Entry.{Entry};
ghost use Rattle.event_form.specs.Entry.{IsEntry};
ghost use Rattle.spool_state.specs.SpoolState.{end};
ghost use Rattle.spool_answers.specs.declared.receipt.Receipt.{Receipt as TheReceipt};
ghost use Rattle.spool_answers.specs.Mark.{EndsBy};
ghost use Rattle.spool_answers.specs.Pend.{AreNumbered};
ghost use Rattle.desk_access.specs.Call.{Call, takes, pends, confirms, marks, counts, issues, settles, forgets, asks, Record};
ghost use Rattle.desk_access.specs.Call.{own_of, listed, taken_of, TookSurely};
ghost use Rattle.spool_answers.specs.Take.{IsRefusal};
ghost use Rattle.desk_access.specs.Batch.{MayTake, MayUse, AreOfUnit, IsPlain};
ghost use Rattle.desk_access.specs.Desk.{DeskState, Goes};
ghost use Rattle.desk_access.specs.History.{IsDesk};
ghost use Rattle.desk_access.specs.Legal.{AreUnused};

use crate::Front;
use event_form::Entry as StoredEntry;
use hec_ids::IssueFault;
use known_numbers::Stretch;
use spool_answers::{ConfirmFault, Numbered, PendFault, Receipt, TakeFault};

/// One caller of a desk, which may have others. It stores entries, reads those that are not confirmed,
/// confirms them, and issues acknowledgement ids to channels. Its calls answer as those of
/// [`spool_log::Spool`] and [`hec_ids::Ids`] do.
///
/// What generic code did is said by one relation: `ran` says which calls of this caller lead from the one
/// value to the other, each with its answer. What stands after them is said by `seen`: a state of the desk
/// at its beginning, and the journal of all calls since, of which this caller's are a part. A caller whose
/// disk tells no bytes has seen no journal.
pub trait Access {
    /// The number of this caller.
    ghost number: { Self → ℕ };

    /// The desk was in this state at its beginning, and this caller has seen this journal of the calls since.
    ghost seen: { Self → DeskState → List Record → Type 0 };

    /// These calls of this caller lead from the one value to the other.
    ghost ran: { Self → List Call → Self → Type 0 };

    /// This caller may take entries of that connection, and this is the index of the next one.
    ghost may_take: { Self → ℕ → ℕ → Type 0 };

    /// An issue of this caller answered that id, and no take has used it as a unit since.
    ghost may_use: { Self → ℕ → Type 0 };

    /// A take of this caller of entries with that id as their unit was answered `Ok`.
    ghost may_settle: { Self → ℕ → Type 0 };

    /// This caller may confirm.
    ghost may_confirm: { Self → Type 0 };

    /// The numbers that may become known as confirmed.
    ghost may_release: { ℕ → Type 0 };

    /// The greatest end that `end` answered, and the greatest cursor that `cursor` answered, or 0.
    ghost end_known: { Self → ℕ };

    ghost cursor_known: { Self → ℕ };

    /// How often the spool was opened for storing, this time included.
    fn run(&mut self) -> u32
        ensures ran { ran self.old [] self.new }
        ensures seen { (x : DeskState) (journal : List Record) → seen self.old x journal → result ≡ x.spool.run };

    /// The number after the last entry, at most 2^63. It isn't less than the end after the journal seen.
    fn end(&mut self) -> u64
        ensures ran { ran self.old [] self.new }
        ensures known { end_known self.new ≡ result }
        ensures limit { result ≤ 2 ^ 63 }
        ensures seen { (x : DeskState) (journal : List Record) → seen self.old x journal
            → (y : DeskState) × Goes x journal y × (end y.spool ≤ result) };

    /// The number below which all are known as confirmed. It isn't less than the cursor after the journal seen.
    fn cursor(&mut self) -> u64
        ensures ran { ran self.old [] self.new }
        ensures known { cursor_known self.new ≡ result }
        ensures seen { (x : DeskState) (journal : List Record) → seen self.old x journal
            → (y : DeskState) × Goes x journal y × (y.spool.cursor ≤ result) };

    /// Takes the entries as one group: on `Ok` they are durable, and the receipt has their numbers, which are
    /// below 2^63. They are of one connection of this caller, of which they are the next ones. No entry of a
    /// connection is taken after one of a later connection, or after a take that was answered `DiskFault`.
    /// Either no entry's unit is an id, or all have one id as their unit, which this caller issued and which
    /// no other take used.
    fn take(&mut self, entries: &[StoredEntry]) -> Result<Receipt, TakeFault>
        requires few { length entries.now < 2 ^ 32 }
        requires limits { All IsEntry entries.now }
        requires next { MayTake (may_take self.old) entries.now }
        requires units { MayUse (may_use self.old) entries.now }
        ensures ran { ran self.old (takes entries.now result ∷ []) self.new }
        ensures receipt { IfOk result (λ receipt. (receipt.count ≡ length entries.now) × (receipt.first + receipt.count ≤ 2 ^ 63)) };

    /// Takes the first of the entries as one group: as many as the active slot has room for, and one at least. It says how
    /// many they are, answers as `take` of these does, and gives all the entries back. `TooLarge`, `Spent` and `Full` are
    /// those of the first entry alone. No entry's unit is an id.
    fn take_front(&mut self, entries: Vec<StoredEntry>) -> Front
        requires some { 0 < length entries.items }
        requires few { length entries.items < 2 ^ 32 }
        requires limits { All IsEntry entries.items }
        requires next { MayTake (may_take self.old) entries.items }
        requires plain { All IsPlain entries.items }
        ensures same { result.entries.items ≡ entries.items }
        ensures front { (0 < result.count) × (result.count ≤ length entries.items) }
        ensures ran { ran self.old (takes (take result.count entries.items) result.answer ∷ []) self.new }
        ensures receipt { IfOk result.answer (λ receipt. (receipt.count ≡ result.count) × (receipt.first + receipt.count ≤ 2 ^ 63)) }
        ensures alone { IfErr result.answer (λ fault. IsRefusal fault → result.count ≡ 1) };

    /// The first `most` of the entries with numbers from `from` that aren't known as confirmed, or all where
    /// they are fewer, each with its number. Numbers rise, and each entry keeps its limits.
    fn pending(&mut self, from: u64, most: u32) -> Result<Vec<Numbered>, PendFault>
        requires number { from ≤ end_known self.old }
        ensures ran { ran self.old (pends from most (listed result) ∷ []) self.new }
        ensures few { IfOk result (λ given. length given.items ≤ most) }
        ensures numbered { IfOk result (λ given. AreNumbered 0 (2 ^ 63) given.items) };

    /// Makes all numbers below `upto` known as confirmed, as `mark` does of the one stretch from 0 to `upto`.
    fn confirm(&mut self, upto: u64) -> Result<(), ConfirmFault>
        requires caller { may_confirm self.old }
        requires number { upto ≤ end_known self.old }
        requires earned { (n : ℕ) → n < upto → may_release n }
        ensures { ran self.old (confirms upto result ∷ []) self.new };

    /// Makes the numbers of these stretches known as confirmed, one stretch after another. A stretch by which
    /// there would be more than 240 above the cursor is passed over.
    fn mark(&mut self, known: &[Stretch]) -> Result<(), ConfirmFault>
        requires caller { may_confirm self.old }
        requires numbers { All (EndsBy (end_known self.old)) known.now }
        requires earned { (n : ℕ) → IsInSome known.now n → may_release n }
        ensures { ran self.old (marks known.now result ∷ []) self.new };

    /// How many numbers above the cursor are known as confirmed.
    fn known_count(&mut self) -> u64
        ensures { ran self.old (counts result ∷ []) self.new };

    /// Issues the next id of the run to the channel, which then holds it unsettled. `NoMore` comes where the
    /// last id of the run was issued; else `Busy` where the channel holds 10,000 ids, or holds none and 1,000
    /// channels hold some; else `NoMemory` may come.
    fn issue(&mut self, channel: u128) -> Result<u64, IssueFault>
        ensures { ran self.old (issues channel result ∷ []) self.new };

    /// Settles an id of which the entries were taken, and says whether the channel held it unsettled.
    fn settle(&mut self, channel: u128, id: u64) -> bool
        requires taken { may_settle self.old id }
        ensures { ran self.old (settles channel id result ∷ []) self.new };

    /// Forgets an id, settled or not, and says whether the channel held it.
    fn forget(&mut self, channel: u128, id: u64) -> bool
        ensures { ran self.old (forgets channel id result ∷ []) self.new };

    /// Writes of each id into `known`, at its place, whether the channel holds it settled. Those that it does
    /// are forgotten, so that an id is told once. The ids are distinct.
    fn ask(&mut self, channel: u128, ids: &[u64], known: &mut [bool])
        requires equal { length ids.now ≡ length known.old }
        requires distinct { IsDistinct nat_eq ids.now }
        ensures { ran self.old (asks channel ids.now known.new ∷ []) self.new };

    ghost ran_none: { (a : Self) → ran a [] a };

    ghost ran_more: { (a b c : Self) (calls more : List Call) → ran a calls b → ran b more c → ran a (calls ++ more) c };

    /// The journal goes on, and of what was added this caller's are these calls, in order.
    ghost seen_more: { (a b : Self) (calls : List Call) (x : DeskState) (journal : List Record) → ran a calls b → seen a x journal
        → (number b ≡ number a) × ((between : List Record) × (own_of (number a) between ≡ calls) × seen b x (journal ++ between)) };

    /// The journal is lawful. After calls of this caller, the end and the cursor aren't less than any that was
    /// answered before.
    ghost seen_lawful: { (a b : Self) (calls : List Call) (x : DeskState) (journal : List Record) → ran a calls b → 0 < length calls → seen b x journal
        → IsDesk x × ((y : DeskState) × Goes x journal y × (end_known a ≤ end y.spool) × (cursor_known a ≤ y.spool.cursor)) };

    /// What was answered doesn't fall.
    ghost known_rises: { (a b : Self) (calls : List Call) → ran a calls b → (end_known a ≤ end_known b) × (cursor_known a ≤ cursor_known b) };

    /// Where the entries taken are all of that connection, and no take failed at the disk, the next index is
    /// higher by their number.
    ghost may_take_more: { (a b : Self) (calls : List Call) (conn index : ℕ) → ran a calls b → All TookSurely calls
        → All (λ (entry : Entry). entry.conn ≡ conn) (taken_of calls) → may_take a conn index → may_take b conn (index + length (taken_of calls)) };

    /// An id that was issued may be used, until a take uses it.
    ghost may_use_issued: { (a b : Self) (channel id : ℕ) → ran a (issues channel (Ok id) ∷ []) b → may_use b id };

    ghost may_use_more: { (a b : Self) (calls : List Call) (id : ℕ) → ran a calls b → AreUnused id calls → may_use a id → may_use b id };

    /// An id of which the entries were taken may be settled.
    ghost may_settle_taken: { (a b : Self) (group : List Entry) (receipt : TheReceipt) (id : ℕ)
        → ran a (takes group (Ok receipt) ∷ []) b → 0 < length group → AreOfUnit id group → may_settle b id };

    ghost may_settle_more: { (a b : Self) (calls : List Call) (id : ℕ) → ran a calls b → may_settle a id → may_settle b id };

    ghost may_confirm_more: { (a b : Self) (calls : List Call) → ran a calls b → may_confirm a → may_confirm b };
}
