//! A disk whose syncs wait until a mark is set.

use crate::held::{are_set, come, set};
use edge_disk::{Disk, DiskFault};
use std::sync::atomic::AtomicBool;

/// Which marks the syncs of a disk look at. Once `from` is set each sync sets `reached`, and waits for `open`. One that waits for too
/// long goes on.
#[derive(Clone, Copy)]
pub(crate) struct Hold {
    pub(crate) from: usize,
    pub(crate) reached: usize,
    pub(crate) open: usize,
}

/// A disk of which syncs are held.
#[derive(Drop)]
pub(crate) struct HeldDisk<'a, D> {
    pub(crate) disk: D,
    pub(crate) hold: Hold,
    pub(crate) marks: &'a [AtomicBool],
}

impl<D: Disk> Disk for HeldDisk<'_, D> {
    ghost tells = { D.tells };

    ghost tells_images = { λ d. D.tells_images d.disk };

    ghost moment = { λ d. D.moment d.disk };

    ghost may_release = { D.may_release };

    ghost may_tear = { λ d at n. D.may_tear d.disk at n };

    ghost reads_too = { λ d images. D.reads_too d.disk images };

    ghost fits = { λ d. D.fits d.disk };

    ghost lawful = { λ d tells. D.lawful d.disk tells };

    ghost stands_in = { λ d t c tells. D.stands_in d.disk t c tells };

    fn len(&self) -> u64 {
        self.disk.len()
    }

    fn read_at(&mut self, at: u64, buf: &mut [u8]) -> Result<(), DiskFault> {
        self.disk.read_at(at, buf)
    }

    fn write_at(&mut self, at: u64, piece: &[u8]) -> Result<(), DiskFault> {
        self.disk.write_at(at, piece)
    }

    fn sync(&mut self) -> Result<(), DiskFault> {
        if are_set(self.marks, &[self.hold.from]) {
            set(self.marks, self.hold.reached);
            let _ = come(self.marks, &[self.hold.open]);
        }
        self.disk.sync()
    }
}
