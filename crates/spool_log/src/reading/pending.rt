//! Entries that aren't known as confirmed.
ghost use Rattle.std.specs.Prelude.{◌≡◌, ◌≤◌, List, length, IfOk, IsErrOf};
ghost use Rattle.spool_state.specs.SpoolState.{SpoolState};
ghost use Rattle.edge_disk.specs.Calls.{Calls};

use crate::{Numbered, PendFault, Spool};
use edge_disk::Disk;

impl<D: Disk> Spool<D> {
    ghost use Rattle.spool_log.specs.Memory.{end_of};
    ghost use Rattle.spool_log.specs.State.{view, IsIn};
    ghost use Rattle.spool_log.specs.Outcome.{PendsFrom};
    ghost use Rattle.spool_answers.specs.Pend.{AreNumbered};

    /// The first `most` of the entries with numbers from `from`, which is at most the end, that aren't known
    /// as confirmed, or all where they are fewer, read from the device, each with its number. Where they go
    /// on after the last reading, or are those again that it gave first, nothing of a slot before them is read.
    /// In doubt the spool is mended first; nothing else changes. `NotSpool` comes only where the device reads as
    /// no spool, and never on a disk that tells what it reads; `DiskFault` only where a call of the disk failed.
    pub fn pending(&mut self, from: u64, most: u32) -> Result<Vec<Numbered>, PendFault>
        requires number { from ≤ end_of self.old.memory }

        ensures calls { Calls (IsErrOf result PendFault.DiskFault) (D.moment self.old.disk) (D.moment self.new.disk) }
        // Whatever the device held, they are at most so many, with rising numbers, and each keeps its limits.
        ensures few { IfOk result (λ given. length given.items ≤ most) }
        ensures numbered { IfOk result (λ given. AreNumbered from (end_of self.new.memory) given.items) }
        ensures pends { (s : SpoolState) (doubt : List SpoolState) → D.tells → IsIn s doubt (view self.old.memory self.old.doubt (D.moment self.old.disk))
            → PendsFrom s doubt from most result (view self.old.memory self.old.doubt (D.moment self.old.disk))
            (view self.new.memory self.new.doubt (D.moment self.new.disk)) }
    {
        self.mend()?;
        let memory = &self.memory;
        let content = memory.register.value();
        self.numbers.set(content.cursor, &content.known);
        let (given, bookmark) = memory.read_from(
            self.alloc,
            &mut self.disk,
            &mut self.window,
            &self.numbers,
            from,
            most,
        )?;
        self.memory.read_up(bookmark);
        Ok(given)
    }
}
