//! The front of a slot, held in memory, where the gate after it is closed.
ghost use Rattle.std.specs.Prelude.{◌≡◌, ◌+◌, ◌^◌, ◌<◌, ◌≤◌, ◌++◌, length, drop, IsErr, IfOk, IfErr, OnOk, IsErrOf};
ghost use Rattle.foundation.specs.Bytes.{part};
ghost use Rattle.spool_state.specs.Layout.{most_size};
ghost use Rattle.edge_disk.specs.Calls.{Calls};
ghost use Rattle.edge_disk.specs.Disk.{IsUntouched};
ghost use Rattle.spool_slots.specs.Fault.{IsNotBroken};
ghost use Rattle.bridge_rescue.specs.Held.{held_size, held_front};

use edge_disk::{Disk, DiskFault};
use spool_slots::ScanFault;
use std::alloc::Global;

/// How many bytes a slot has at least.
const LEAST_SIZE: u64 = 4096;

/// Bytes of a slot, as a disk of their own that is only read: those before a gate, which is closed there whatever it is on the device.
#[derive(Drop)]
pub struct Held {
    bytes: Vec<u8>,
    ghost fits: { length bytes.items < 2 ^ 64 },
}

// Reads from offset `at` of the device on into the first `n` of the bytes.
fn read_front<D: Disk>(disk: &mut D, at: u64, bytes: &mut [u8], n: usize) -> Result<(), DiskFault>
    requires inside { n ≤ length bytes.old }
    requires place { at + n ≤ (D.moment disk.old).size }

    ensures calls { Calls (IsErr result) (D.moment disk.old) (D.moment disk.new) }
    ensures told { D.tells → IsUntouched (D.moment disk.old) (D.moment disk.new) }
    ensures read { OnOk result (D.tells → bytes.new ≡ part at n (D.moment disk.old).reads ++ drop n bytes.old) }
{
    disk.read_at(at, &mut bytes[..n])?;
    Ok(())
}

impl Held {
    /// The `n` bytes from offset `at` of the device on. The error says that no memory was found for them, or that a call of the disk
    /// failed.
    pub fn read<D: Disk>(alloc: Global, disk: &mut D, at: u64, n: u64) -> Result<Held, ScanFault>
        requires place { at + n ≤ (D.moment disk.old).size }
        requires small { n + 1 ≤ most_size }

        ensures calls { Calls (IsErrOf result ScanFault.DiskFault) (D.moment disk.old) (D.moment disk.new) }
        ensures told { D.tells → IsUntouched (D.moment disk.old) (D.moment disk.new) }
        ensures known { IfErr result IsNotBroken }
        ensures size { IfOk result (λ held. length held.bytes.items ≡ held_size n) }
        ensures bytes { IfOk result (λ held. D.tells → held.bytes.items ≡ held_front at n (D.moment disk.old).reads) }
    {
        let size = (n + 1).max(LEAST_SIZE);
        let mut bytes = vec![in alloc; 0; size as usize]?;
        read_front(disk, at, &mut bytes, n as usize)?;
        Ok(Held { bytes })
    }
}

impl Disk for Held {
    ghost use Rattle.std.proofs.Common.{inr};
    ghost use Rattle.bridge_rescue.specs.Held.{still, still_lawful};

    ghost tells = { Unit {0} };

    ghost tells_images = { λ _. ⊥ };

    ghost moment = { λ h. still h.bytes.items };

    ghost may_release = { λ _. ⊥ };

    // No leave to write is given.
    ghost may_tear = { λ _ _ _. ⊥ };

    ghost reads_too = { λ h images. tt };

    ghost fits = { λ h. h.fits };

    ghost lawful = { λ h tells. still_lawful h.bytes.items };

    ghost stands_in = { λ h t c tells. inr (λ is. is) };

    fn len(&self) -> u64 {
        self.bytes.len() as u64
    }

    fn read_at(&mut self, at: u64, buf: &mut [u8]) -> Result<(), DiskFault> {
        let start = at as usize;
        buf.copy_from_slice(&self.bytes[start..start + buf.len()]);
        Ok(())
    }

    fn write_at(&mut self, _at: u64, _piece: &[u8]) -> Result<(), DiskFault> {
        unreachable!()
    }

    fn sync(&mut self) -> Result<(), DiskFault> {
        Ok(())
    }
}
