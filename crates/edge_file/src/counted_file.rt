//! A file that counts its faults.
ghost use Rattle.std.specs.Prelude.{◌≡◌};
ghost use Rattle.foundation.specs.Faults.{HasCause};

use crate::opening::Opened;
use crate::tracked_file::TrackedFile;
use edge_disk::{Disk, DiskFault};
use std::io;

/// A file as a disk, each of whose calls is made to the system at once. It tells its length and its count of faults.
#[derive(Drop)]
pub(crate) struct CountedFile {
    file: TrackedFile,
    faults: u64,
}

impl CountedFile {
    /// What was opened.
    pub(crate) fn new(opened: Opened) -> CountedFile
        ensures faults { result.faults ≡ 0 }
        ensures len { result.file.len ≡ opened.len }
        ensures id { result.file.home.id ≡ opened.home.id }
        ensures access { result.file.access ≡ opened.access }
        ensures sharing { result.file.sharing ≡ opened.sharing }
    {
        CountedFile {
            file: TrackedFile::new(opened),
            faults: 0,
        }
    }
}

// Counts a failure.
fn count(outcome: io::Result<()>, faults: &mut u64) -> Result<(), DiskFault>
    ensures { HasCause faults.old faults.new result }
{
    match outcome {
        Ok(()) => Ok(()),
        Err(_) => {
            *faults = faults.saturating_add(1);
            Err(DiskFault)
        }
    }
}

impl Disk for CountedFile {
    ghost use Rattle.edge_file.specs.CountedFile.{counted_moment};

    ghost tells = { ⊥ };

    ghost tells_images = { λ _. ⊥ };

    ghost moment = { counted_moment };

    ghost may_release = { λ _. Unit {0} };

    ghost may_tear = { λ _ _ _. Unit {0} };

    ghost reads_too = { λ d images. images };

    ghost fits = { λ d. d.file.fits };

    ghost lawful = { λ d tells. absurd tells };

    ghost stands_in = { λ d t c tells. absurd tells };

    fn len(&self) -> u64 {
        self.file.len()
    }

    fn read_at(&mut self, at: u64, buf: &mut [u8]) -> Result<(), DiskFault> {
        let outcome = self.file.read_at(at, buf);
        count(outcome, &mut self.faults)
    }

    fn write_at(&mut self, at: u64, piece: &[u8]) -> Result<(), DiskFault> {
        let outcome = self.file.write_at(at, piece);
        count(outcome, &mut self.faults)
    }

    fn sync(&mut self) -> Result<(), DiskFault> {
        let outcome = self.file.sync();
        count(outcome, &mut self.faults)
    }
}
