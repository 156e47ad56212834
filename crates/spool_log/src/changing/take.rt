//! Entries taken.
ghost use Rattle.std.specs.Prelude.{◌≡◌, ◌≢◌, ℕ, ◌+◌, ◌-◌, ◌^◌, ◌<◌, ◌≤◌, List, [], length, All, false, true, Ok, IfOk, OnOk, IfErr};
ghost use Rattle.std.specs.Prelude.{OnErr, IsErrOf, MatchResult, IsErr};
ghost use Rattle.event_form.specs.Entry.{IsEntry};
ghost use Rattle.spool_state.specs.Segment.{need_of};
ghost use Rattle.spool_state.specs.Layout.{most_number};
ghost use Rattle.spool_state.specs.SpoolState.{SpoolState, IsSound, end};
ghost use Rattle.edge_disk.specs.Calls.{Calls};
ghost use Rattle.edge_disk.specs.Disk.{LeavesOnly};
ghost use Rattle.spool_log.specs.Knows.{Knows};
ghost use Rattle.spool_answers.specs.Stages.{group_stages, AllFollow};
ghost use Rattle.spool_log.specs.Changing.Target.{stages_at, IsFreeIn, Suits};

use crate::changing::target::Target;
use crate::{Memory, Receipt, Spool, TakeFault};
use edge_disk::{Disk, DiskFault};
use event_form::Entry;
use spool_slots::group_need;

/// Numbers of entries end here.
const LAST_NUMBER: u64 = 9_223_372_036_854_775_808;

impl Memory {
    ghost use Rattle.spool_log.specs.Memory.{end_of, most_of};
    ghost use Rattle.spool_log.specs.Changing.Take.{RefusedBy};
    ghost use Rattle.spool_answers.specs.Take.{Fits, Takes, IsRefusal};

    /// Where the entries go, or why they can't be taken.
    fn place_for(&self, entries: &[Entry]) -> Result<Target, TakeFault>
        requires few { length entries.now < 2 ^ 32 }
        requires limits { All IsEntry entries.now }

        ensures refusal { IfErr result IsRefusal }
        ensures refused { IfErr result (RefusedBy self.now entries.now) }
        ensures fits { MatchResult result
            (λ target. (need_of entries.now ≤ most_of self.now) × (end_of self.now + length entries.now ≤ most_number)
            × Suits self.now (need_of entries.now) target) (λ _. ℕ) }
        ensures answers { (s : SpoolState) → Knows s self.now → IsSound s
            → MatchResult result (λ target. Fits s entries.now × (group_stages s entries.now ≡ stages_at target s entries.now) × IsFreeIn target s)
            (λ fault. Takes s entries.now (Err fault)) }
    {
        let need = group_need(entries);
        let most = self.size - 18;
        if need > most {
            return Err(TakeFault::TooLarge { need, most });
        }
        let end = self.active.first + self.active.count;
        if entries.len() as u64 > LAST_NUMBER - end {
            return Err(TakeFault::Spent { end });
        }
        let Some(target) = self.target(need) else {
            return Err(TakeFault::Full {
                need,
                room: self.active.room(),
            });
        };
        Ok(target)
    }
}

impl<D: Disk> Spool<D> {
    ghost use Rattle.spool_log.specs.Memory.{end_of, most_of};
    ghost use Rattle.spool_log.specs.State.{view, IsIn, Changes};
    ghost use Rattle.spool_log.specs.Changing.Take.{RefusedBy, StoresTo, TakesNothing};
    ghost use Rattle.spool_answers.specs.Take.{Takes, IsAnswered};
    ghost use Rattle.spool_log.specs.Outcome.{TakesFrom};

    /// Adds the entries where they go. It is in doubt meanwhile, and after a fault.
    fn add(&mut self, target: Target, entries: &[Entry]) -> Result<(), DiskFault>
        requires sure { self.old.doubt ≡ false }
        requires some { 0 < length entries.now }
        requires few { length entries.now < 2 ^ 32 }
        requires limits { All IsEntry entries.now }
        requires numbers { end_of self.old.memory + length entries.now ≤ most_number }
        requires small { need_of entries.now ≤ most_of self.old.memory }
        requires suits { Suits self.old.memory (need_of entries.now) target }
        requires free { (s : SpoolState) → Knows s self.old.memory → IsSound s → IsFreeIn target s }

        ensures calls { Calls (IsErr result) (D.moment self.old.disk) (D.moment self.new.disk) }
        ensures numbered { OnOk result (end_of self.new.memory ≡ end_of self.old.memory + length entries.now) }
        ensures changes { (s : SpoolState) → D.tells → IsIn s [] (view self.old.memory self.old.doubt (D.moment self.old.disk))
            → AllFollow s (stages_at target s entries.now) → 0 < length (stages_at target s entries.now)
            → Changes s (stages_at target s entries.now) result (view self.old.memory self.old.doubt (D.moment self.old.disk))
            (view self.new.memory self.new.doubt (D.moment self.new.disk)) }
    {
        self.doubt = true;
        self.memory
            .add(&mut self.disk, target, entries, &mut self.buffer)?;
        self.doubt = false;
        Ok(())
    }

    /// Takes at least one entry outside doubt.
    fn store(&mut self, entries: &[Entry]) -> Result<Receipt, TakeFault>
        requires sure { self.old.doubt ≡ false }
        requires some { 0 < length entries.now }
        requires few { length entries.now < 2 ^ 32 }
        requires limits { All IsEntry entries.now }

        ensures told { IfErr result IsAnswered }
        ensures refused { IfErr result (RefusedBy self.new.memory entries.now) }
        ensures before { IfErr result (RefusedBy self.old.memory entries.now) }
        ensures numbers { IfOk result (λ receipt. (receipt.count ≡ length entries.now) × (receipt.first + receipt.count ≡ end_of self.new.memory)) }
        ensures calls { Calls (IsErrOf result TakeFault.DiskFault) (D.moment self.old.disk) (D.moment self.new.disk) }
        ensures taken { (s : SpoolState) → D.tells → IsIn s [] (view self.old.memory self.old.doubt (D.moment self.old.disk))
            → Takes s entries.now result
            × StoresTo s entries.now result (view self.old.memory self.old.doubt (D.moment self.old.disk))
            (view self.new.memory self.new.doubt (D.moment self.new.disk)) }
    {
        let target = self.memory.place_for(entries)?;
        let first = self.end();
        self.add(target, entries)?;
        Ok(Receipt {
            first,
            count: entries.len() as u64,
        })
    }

    /// Takes the entries as one group: on `Ok` they are the last ones, durable, and the receipt has their
    /// numbers. They are fewer than 2^32, each within its limits. Without entries nothing is done: `Ok` with
    /// the end as memory has it, also in doubt. Else, in doubt, the spool is mended first.
    ///
    /// The group is added to the active slot where it has room. Else a segment is begun for it in a free
    /// slot: the closed one of lowest place, or the first of the open ones where all its entries are
    /// confirmed, which is shut before.
    ///
    /// `TooLarge` comes exactly where the group needs more than an empty slot has, then `Spent` exactly where
    /// the end would pass 2^63, then `Full` exactly where the active slot has no room for it and no slot is
    /// free. `NotSpool` and `NoMemory` come only where the spool was in doubt. After these nothing changed
    /// but by mending. `DiskFault` comes only where a call of the disk failed. Where one of the calls that store
    /// the group failed, the spool is in doubt.
    pub fn take(&mut self, entries: &[Entry]) -> Result<Receipt, TakeFault>
        requires few { length entries.now < 2 ^ 32 }
        requires limits { All IsEntry entries.now }

        ensures met { IsErrOf result TakeFault.NoMemory → self.old.doubt ≡ true }
        ensures read_again { (at : ℕ) → IsErrOf result (TakeFault.NotSpool at) → self.old.doubt ≡ true }
        ensures before { self.old.doubt ≡ false → IfErr result (RefusedBy self.old.memory entries.now) }
        ensures refused { IfErr result (RefusedBy self.new.memory entries.now) }
        ensures numbers { IfOk result (λ receipt. (receipt.count ≡ length entries.now) × (receipt.first + receipt.count ≡ end_of self.new.memory)) }
        ensures calls { Calls (IsErrOf result TakeFault.DiskFault) (D.moment self.old.disk) (D.moment self.new.disk) }

        ensures nothing { length entries.now ≡ 0 → (self.new ≡ self.old) × TakesNothing self.old.memory result }
        ensures taken { (s : SpoolState) (doubt : List SpoolState) → D.tells → 0 < length entries.now
            → IsIn s doubt (view self.old.memory self.old.doubt (D.moment self.old.disk))
            → TakesFrom s doubt entries.now result (view self.old.memory self.old.doubt (D.moment self.old.disk))
            (view self.new.memory self.new.doubt (D.moment self.new.disk)) }
    {
        if entries.is_empty() {
            return Ok(Receipt {
                first: self.end(),
                count: 0,
            });
        }
        self.mend()?;
        self.store(entries)
    }
}
