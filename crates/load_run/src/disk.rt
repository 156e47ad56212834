//! The disk of a load.
ghost use Rattle.edge_memory.specs.MemDisk.{NeverFails};

use edge_disk::{Disk, DiskFault};
use edge_memory::MemDisk;
use std::alloc::{AllocError, Global};

/// A disk in memory of which no call fails. It tells what it reads, and no images.
#[derive(Drop)]
pub(crate) struct SureDisk {
    disk: MemDisk,
    ghost never: { NeverFails disk },
}

impl SureDisk {
    ghost use Rattle.std.specs.Prelude.{◌≡◌, IfOk};

    /// A disk of so many zero bytes.
    pub(crate) fn new(alloc: Global, len: u64) -> Result<SureDisk, AllocError>
        ensures { IfOk result (λ disk. (⟦<SureDisk as Disk>⟧.moment disk).size ≡ len) }
    {
        let disk = MemDisk::plain(alloc, len)?;
        Ok(SureDisk { disk })
    }
}

impl Disk for SureDisk {
    ghost use Rattle.edge_memory.specs.HeldLaws.{lawful, stands_in};
    ghost use Rattle.load_run.specs.Sure.{sure_lawful, sure_moment, sure_stands};

    ghost tells = { Unit {0} };

    ghost tells_images = { λ _. ⊥ };

    ghost moment = { λ d. sure_moment d.disk };

    ghost may_release = { λ _. Unit {0} };

    ghost may_tear = { λ _ _ _. Unit {0} };

    ghost reads_too = { λ d images. tt };

    ghost fits = { λ d. d.disk.sound.fits };

    ghost lawful = { λ d tells. sure_lawful d.disk (lawful d.disk.store d.disk.faults d.disk.sound) };

    ghost stands_in = { λ d t c tells. sure_stands d.disk t c d.never (stands_in d.disk.store d.disk.faults t c d.disk.sound) };

    fn len(&self) -> u64 {
        self.disk.len()
    }

    fn read_at(&mut self, at: u64, buf: &mut [u8]) -> Result<(), DiskFault> {
        self.disk.read_at(at, buf)
    }

    fn write_at(&mut self, at: u64, piece: &[u8]) -> Result<(), DiskFault> {
        self.disk.write_at(at, piece)
    }

    fn sync(&mut self) -> Result<(), DiskFault> {
        self.disk.sync()
    }
}
