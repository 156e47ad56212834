//! Numbers that become known as confirmed.
ghost use Rattle.std.specs.Prelude.{◌≡◌, ◌↔◌, ◌⊎◌, ℕ, ◌+◌, ◌<◌, ◌≤◌, List, [], All, IsTrue, false, true, IfErr, IsErrOf};
ghost use Rattle.known_numbers.specs.Numbers.{Numbers, EndBy, IsInSome, IsKnown, IsSound, count_of, marked};
ghost use Rattle.known_numbers.specs.declared.stretch.Stretch.{Stretch as TheStretch};
ghost use Rattle.spool_state.specs.SpoolState.{SpoolState, end};
ghost use Rattle.edge_disk.specs.Calls.{Calls};
ghost use Rattle.spool_log.specs.Device.{numbers_in, MayFollow};
ghost use Rattle.spool_answers.specs.Stages.{total_of};
ghost use Rattle.spool_answers.specs.Mark.{EndsBy};

use crate::{ConfirmFault, Spool};
use disk_cell::{Content, SetFault};
use edge_disk::Disk;
use known_numbers::{KnownNumbers, Stretch};

/// Whether as many numbers are known as the content has, up to the same cursor: these are `count` above it.
fn is_same(numbers: &KnownNumbers, content: &Content, count: u64) -> bool
    ensures { IsTrue result ↔ ((numbers.now.cursor ≡ content.now.cursor) × (count_of numbers.now.stretches ≡ count)) }
{
    numbers.cursor() == content.cursor && numbers.count() == count
}

/// Joins the numbers that a register holds with those of the stretches, as far as they are below the end.
/// Whether one of them is new.
fn join(numbers: &mut KnownNumbers, content: &Content, more: &[Stretch], end: u64) -> bool
    requires sound { IsSound (numbers_in content.now) }
    requires within { content.now.cursor ≤ end }
    requires stretches { EndBy end content.now.known.items }

    ensures may { MayFollow content.now.cursor end numbers.new }
    ensures joined { All (EndsBy end) more.now → numbers.new ≡ marked (numbers_in content.now) more.now }
    ensures new { IsTrue result ↔ (total_of (numbers_in content.now) < total_of numbers.new) }
    ensures same { (IsTrue result → ⊥) → numbers.new ≡ numbers_in content.now }
    ensures keeps { (n : ℕ) → IsKnown (numbers_in content.now) n → IsKnown numbers.new n }
    ensures only { (n : ℕ) → IsKnown numbers.new n → IsKnown (numbers_in content.now) n ⊎ IsInSome more.now n }
{
    numbers.set(content.cursor, &content.known);
    let before = numbers.count();
    for stretch in more {
        numbers.mark(&[Stretch {
            from: stretch.from.min(end),
            to: stretch.to.min(end),
        }]);
    }
    !is_same(numbers, content, before)
}

impl<D: Disk> Spool<D> {
    ghost use Rattle.spool_log.specs.Memory.{numbers_of, cursor_of, end_of};
    ghost use Rattle.spool_log.specs.State.{view, IsIn};
    ghost use Rattle.spool_log.specs.Changing.Mark.{MarksTo, WornBy};
    ghost use Rattle.spool_answers.specs.Mark.{all_below, IsAnswered};
    ghost use Rattle.spool_log.specs.Outcome.{MarksFrom};

    /// Writes the numbers that were joined, outside doubt.
    fn write_known(&mut self) -> Result<(), ConfirmFault>
        requires sure { self.old.doubt ≡ false }
        requires may { MayFollow (cursor_of self.old.memory) (end_of self.old.memory) self.old.numbers }
        requires new { total_of (numbers_of self.old.memory) < total_of self.old.numbers }
        requires keeps { (n : ℕ) → IsKnown (numbers_of self.old.memory) n → IsKnown self.old.numbers n }
        requires earned { (n : ℕ) → IsKnown self.old.numbers n → IsKnown (numbers_of self.old.memory) n ⊎ D.may_release n }

        ensures answered { IfErr result IsAnswered }
        ensures worn { IfErr result (WornBy self.new.memory) }
        ensures calls { Calls (IsErrOf result ConfirmFault.DiskFault) (D.moment self.old.disk) (D.moment self.new.disk) }
        ensures marked { (s : SpoolState) (more : List TheStretch) → D.tells
            → IsIn s [] (view self.old.memory self.old.doubt (D.moment self.old.disk)) → All (EndsBy (end s)) more
            → self.old.numbers ≡ marked (numbers_of self.old.memory) more
            → MarksTo s more result (view self.old.memory self.old.doubt (D.moment self.old.disk))
            (view self.new.memory self.new.doubt (D.moment self.new.disk)) }
    {
        let run = self.run();
        self.doubt = true;
        match self
            .memory
            .write_register(&mut self.disk, run, &self.numbers)
        {
            Ok(()) => {
                self.doubt = false;
                Ok(())
            }
            Err(SetFault::Worn { ordinal }) => {
                self.doubt = false;
                Err(ConfirmFault::Worn { ordinal })
            }
            Err(SetFault::DiskFault) => Err(ConfirmFault::DiskFault),
        }
    }

    /// Makes the numbers of these stretches known as confirmed, of which none ends above the end: they are
    /// joined one after another with those that are known, durable. A stretch by which there would be more
    /// than 240 above the cursor is passed over. Where nothing new is known by them, nothing is done. In doubt
    /// the spool is mended first. It takes no memory outside doubt.
    ///
    /// `Worn` comes exactly where the register would be written and was written 2^63 times; `NotSpool` and
    /// `NoMemory` only where the spool was in doubt; `DiskFault` only where a call of the disk failed. Where it
    /// came of the writing, the spool is in doubt; else nothing changed but by mending.
    pub fn mark(&mut self, known: &[Stretch]) -> Result<(), ConfirmFault>
        requires numbers { All (EndsBy (end_of self.old.memory)) known.now }
        requires earned { (n : ℕ) → IsInSome known.now n → D.may_release n }

        ensures met { IsErrOf result ConfirmFault.NoMemory → self.old.doubt ≡ true }
        ensures read_again { (at : ℕ) → IsErrOf result (ConfirmFault.NotSpool at) → self.old.doubt ≡ true }
        ensures worn { IfErr result (WornBy self.new.memory) }
        ensures calls { Calls (IsErrOf result ConfirmFault.DiskFault) (D.moment self.old.disk) (D.moment self.new.disk) }
        ensures marked { (s : SpoolState) (doubt : List SpoolState) → D.tells → IsIn s doubt (view self.old.memory self.old.doubt (D.moment self.old.disk))
            → MarksFrom s doubt known.now result (view self.old.memory self.old.doubt (D.moment self.old.disk))
            (view self.new.memory self.new.doubt (D.moment self.new.disk)) }
    {
        self.mend()?;
        // Mending doesn't lower the end. With a known number above the end a device would be no spool.
        let end = self.end();
        let memory = &self.memory;
        if !join(&mut self.numbers, memory.register.value(), known, end) {
            return Ok(());
        }
        self.write_known()
    }

    /// Makes all numbers below `upto`, which is at most the end, known as confirmed, as `mark` does of the one
    /// stretch from 0 to `upto`.
    pub fn confirm(&mut self, upto: u64) -> Result<(), ConfirmFault>
        requires number { upto ≤ end_of self.old.memory }
        requires earned { (n : ℕ) → n < upto → D.may_release n }

        ensures met { IsErrOf result ConfirmFault.NoMemory → self.old.doubt ≡ true }
        ensures read_again { (at : ℕ) → IsErrOf result (ConfirmFault.NotSpool at) → self.old.doubt ≡ true }
        ensures worn { IfErr result (WornBy self.new.memory) }
        ensures calls { Calls (IsErrOf result ConfirmFault.DiskFault) (D.moment self.old.disk) (D.moment self.new.disk) }
        ensures confirmed { (s : SpoolState) (doubt : List SpoolState) → D.tells → IsIn s doubt (view self.old.memory self.old.doubt (D.moment self.old.disk))
            → MarksFrom s doubt (all_below upto) result (view self.old.memory self.old.doubt (D.moment self.old.disk))
            (view self.new.memory self.new.doubt (D.moment self.new.disk)) }
    {
        self.mark(&[Stretch { from: 0, to: upto }])
    }
}
