//! A spool in doubt, mended.
ghost use Rattle.std.specs.Prelude.{◌≡◌, ◌≤◌, List, false, true, OnOk, OnErr, IsErrOf};
ghost use Rattle.spool_state.specs.SpoolState.{SpoolState};
ghost use Rattle.edge_disk.specs.Calls.{Calls};

use crate::reading::device::read_device;
use crate::{PendFault, Spool};
use edge_disk::Disk;

impl<D: Disk> Spool<D> {
    ghost use Rattle.spool_log.specs.State.{view, IsIn};
    ghost use Rattle.spool_log.specs.Outcome.{Mends};

    /// Where the spool is in doubt, reads the device again and finds out what stands there: the state as it
    /// was, or a later stage of the change that failed. Else it does nothing. After an error the spool is as
    /// it was, in the same doubt.
    pub fn mend(&mut self) -> Result<(), PendFault>
        ensures met { OnErr result (self.old.doubt ≡ true) }
        ensures sure { OnOk result (self.new.doubt ≡ false) }
        ensures idle { self.old.doubt ≡ false → self.new ≡ self.old }
        ensures calls { Calls (IsErrOf result PendFault.DiskFault) (D.moment self.old.disk) (D.moment self.new.disk) }
        ensures mended { (s : SpoolState) (doubt : List SpoolState) → D.tells → IsIn s doubt (view self.old.memory self.old.doubt (D.moment self.old.disk))
            → Mends s doubt result (view self.old.memory self.old.doubt (D.moment self.old.disk))
            (view self.new.memory self.new.doubt (D.moment self.new.disk)) }
    {
        if !self.doubt {
            return Ok(());
        }
        self.disk.sync()?;
        self.memory = read_device(self.alloc, &mut self.disk, &mut self.window)?;
        self.doubt = false;
        Ok(())
    }
}
