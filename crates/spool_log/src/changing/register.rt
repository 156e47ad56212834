//! The register written with another run or other known numbers.
ghost use Rattle.std.specs.Prelude.{◌≡◌, ◌⊎◌, ℕ, ◌+◌, ◌<◌, ◌≤◌, List, [], ◌∷◌, OnOk, OnErr, IsErrOf, MatchResult};
ghost use Rattle.known_numbers.specs.Numbers.{Numbers, EndBy, IsKnown, IsSound};
ghost use Rattle.spool_state.specs.Layout.{most_run, most_number};
ghost use Rattle.spool_state.specs.SpoolState.{SpoolState, base, end};
ghost use Rattle.spool_state.specs.Change.{registered};
ghost use Rattle.spool_state.specs.Image.{slot_at};
ghost use Rattle.edge_disk.specs.Calls.{Calls};
ghost use Rattle.edge_disk.specs.Disk.{IsSettled, LeavesOnly};
ghost use Rattle.disk_cell.specs.Fault.{IsWornAt};
ghost use Rattle.spool_log.specs.Knows.{IsStored};
ghost use Rattle.spool_log.specs.State.{KnowsDevice};
ghost use Rattle.spool_answers.specs.Leave.{LetsKeep};
ghost use Rattle.spool_answers.specs.Stages.{StandsForOne};
ghost use Rattle.spool_log.specs.Device.{MayFollow};
ghost use Rattle.spool_log.specs.Memory.{run_of, cursor_of, numbers_of, end_of};

use crate::Memory;
use disk_cell::SetFault;
use edge_disk::Disk;
use known_numbers::KnownNumbers;

impl Memory {
    /// Writes the register of a settled disk with this run and these known numbers.
    pub(crate) fn write_register<D: Disk>(
        &mut self,
        disk: &mut D,
        run: u32,
        numbers: &KnownNumbers,
    ) -> Result<(), SetFault>
        requires long { (D.moment disk.old).size ≡ slot_at self.old.size self.old.slots }
        requires settled { D.tells → IsSettled (D.moment disk.old) }
        requires stored { D.tells → KnowsDevice self.old (D.moment disk.old).reads }
        requires run { run ≤ most_run }
        requires numbers { MayFollow (cursor_of self.old) (end_of self.old) numbers.now }
        requires rises { run_of self.old ≤ run }
        requires keeps { (n : ℕ) → IsKnown (numbers_of self.old) n → IsKnown numbers.now n }
        requires earned { (n : ℕ) → IsKnown numbers.now n → IsKnown (numbers_of self.old) n ⊎ D.may_release n }
        requires leave { LetsKeep D.tells D.moment D.may_tear D.may_release }

        ensures calls { Calls (IsErrOf result SetFault.DiskFault) (D.moment disk.old) (D.moment disk.new) }
        ensures same_device { (self.new.size ≡ self.old.size) × (self.new.slots ≡ self.old.slots) }
        ensures worn { MatchResult result (λ _. self.old.register.ordinal < most_number) (IsWornAt self.old.register.ordinal) }
        ensures unchanged { self.old.register.ordinal ≡ most_number → disk.new ≡ disk.old }
        ensures err { OnErr result (self.new ≡ self.old) }
        ensures durable { OnOk result (D.tells → IsSettled (D.moment disk.new)) }
        ensures stored { OnOk result ((s : SpoolState) → D.tells → IsStored s self.old (D.moment disk.old).reads
            → IsStored (registered s run numbers.now.cursor numbers.now.stretches) self.new (D.moment disk.new).reads) }
        ensures any_moment { (s : SpoolState) → D.tells → IsStored s self.old (D.moment disk.old).reads
            → LeavesOnly (StandsForOne s (registered s run numbers.now.cursor numbers.now.stretches ∷ [])) (D.moment disk.old) (D.moment disk.new) }
    {
        self.register
            .set(disk, run, numbers.cursor(), numbers.stretches())?;
        Ok(())
    }
}
