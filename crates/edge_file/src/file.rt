//! A disk that is a file: the trusted edge. What a file reads, and what it keeps over a crash, is the
//! system's word, so it tells no bytes. It counts its faults.
ghost use Rattle.std.specs.Prelude.{◌≡◌, ◌⊎◌, ◌<◌, ◌^◌, IfOk};

use crate::counted_file::CountedFile;
use crate::opening::{Opened, make_file, open_beside, open_file, open_read_only, open_two};
use crate::{OpenFault, PairFault, Sharing, WholePages};
use edge_disk::{Disk, DiskFault};

/// A file or a block device as a disk. Its length is the file's as it was opened. A read or a write at
/// which the file has become shorter is a fault.
///
/// After a sync or a write that failed, each call first makes good what was written since the last good sync,
/// and is a fault while that fails.
///
/// The last part of a page of a long write is held back, as [`WholePages`] says: so where the system can't write it, the
/// write that goes on there, the read or the sync is the fault, and where the program ends before its next sync, the file
/// may lack it.
///
/// While it is open the file is locked, so that no two programs change one disk. The lock is the system's
/// advisory one on the whole file: it ends with the value, and with the process however that ends.
#[derive(Drop)]
pub struct FileDisk {
    pages: WholePages<CountedFile>,
}

impl FileDisk {
    ghost use Rattle.edge_file.specs.FileDisk.{file_moment};
    ghost use Rattle.edge_file.specs.OpenDisk.{IsOpenAs, AreTwoFiles};
    ghost use Rattle.edge_file.specs.declared.open_fault.Sharing.TheVariants.{Exclusive, Shared};
    ghost use Rattle.edge_file.specs.declared.unlocked.Access.TheVariants.{ToRead, ToWrite};

    /// Opens a file that exists, to read and write, for this program alone. A fault says that this failed,
    /// for whatever cause.
    pub fn open(rt: &HostRuntime, path: &str) -> Result<FileDisk, DiskFault>
        ensures { IfOk result (λ disk. (file_moment disk).faults ≡ 0) }
    {
        match FileDisk::open_locked(rt, path, Sharing::Exclusive) {
            Ok(disk) => Ok(disk),
            Err(_) => Err(DiskFault),
        }
    }

    /// Opens the file, or makes it, for this program alone. A file that is made is its owner's alone to read and
    /// write (mode 0600); the mode of any other stays. A file that is new or empty gets the length of `len` zero
    /// bytes; the bytes and the length of any other stay, as does a block device's. The file's name in its folder
    /// is made durable, and where the path is a symbolic link's, that of the file that it leads to.
    pub fn make(rt: &HostRuntime, path: &str, len: u64) -> Result<FileDisk, DiskFault>
        ensures faults { IfOk result (λ disk. (file_moment disk).faults ≡ 0) }
        ensures size { IfOk result (λ disk. (file_moment disk).size ≡ len ⊎ 0 < (file_moment disk).size) }
    {
        match FileDisk::make_locked(rt, path, len) {
            Ok(disk) => Ok(disk),
            Err(_) => Err(DiskFault),
        }
    }

    /// Opens as [`FileDisk::open`] does, for this program alone or shared, and says why a file isn't opened.
    pub fn open_locked(
        rt: &HostRuntime,
        path: &str,
        sharing: Sharing,
    ) -> Result<FileDisk, OpenFault>
        ensures faults { IfOk result (λ disk. (file_moment disk).faults ≡ 0) }
        ensures open { IfOk result (IsOpenAs ToWrite sharing) }
    {
        let opened = open_file(rt, path, sharing)?;
        Ok(disk_of(opened))
    }

    /// Opens a file that exists to be read alone, beside others that share it, and says why it isn't opened. A write to it is a fault.
    pub fn open_to_read(rt: &HostRuntime, path: &str) -> Result<FileDisk, OpenFault>
        ensures faults { IfOk result (λ disk. (file_moment disk).faults ≡ 0) }
        ensures open { IfOk result (IsOpenAs ToRead Shared) }
    {
        let opened = open_read_only(rt, path)?;
        Ok(disk_of(opened))
    }

    /// Opens two files that exist as [`FileDisk::open`] does, each for this program alone, and says why they aren't opened: the first
    /// before the second, and `OneFile` where both names are of one file, also by a link, or of one block device.
    ///
    /// Of two programs that want the same two files at one time, in whatever order, one gets both: they are locked in an order that is the
    /// same for both programs, and no lock is waited for.
    pub fn open_both(
        rt: &HostRuntime,
        first: &str,
        second: &str,
    ) -> Result<(FileDisk, FileDisk), PairFault>
        ensures faults { IfOk result (λ disks. ((file_moment disks.0).faults ≡ 0) × ((file_moment disks.1).faults ≡ 0)) }
        ensures first { IfOk result (λ disks. IsOpenAs ToWrite Exclusive disks.0) }
        ensures second { IfOk result (λ disks. IsOpenAs ToWrite Exclusive disks.1) }
        ensures two { IfOk result (λ disks. AreTwoFiles disks.0 disks.1) }
    {
        let (one, other) = open_two(rt, first, second)?;
        Ok((disk_of(one), disk_of(other)))
    }

    /// Opens two files that exist, the first as [`FileDisk::open_to_read`] does and the second as [`FileDisk::open`] does, for this program
    /// alone, and says why they aren't opened: the first before the second, and `OneFile` where both names are of one file, also by a link, or
    /// of one block device. They are locked in the order of [`FileDisk::open_both`].
    pub fn open_beside(
        rt: &HostRuntime,
        first: &str,
        second: &str,
    ) -> Result<(FileDisk, FileDisk), PairFault>
        ensures faults { IfOk result (λ disks. ((file_moment disks.0).faults ≡ 0) × ((file_moment disks.1).faults ≡ 0)) }
        ensures first { IfOk result (λ disks. IsOpenAs ToRead Shared disks.0) }
        ensures second { IfOk result (λ disks. IsOpenAs ToWrite Exclusive disks.1) }
        ensures two { IfOk result (λ disks. AreTwoFiles disks.0 disks.1) }
    {
        let (one, other) = open_beside(rt, first, second)?;
        Ok((disk_of(one), disk_of(other)))
    }

    /// Opens or makes as [`FileDisk::make`] does, and says why a file isn't opened. Nothing of a file in use
    /// is changed.
    pub fn make_locked(rt: &HostRuntime, path: &str, len: u64) -> Result<FileDisk, OpenFault>
        ensures faults { IfOk result (λ disk. (file_moment disk).faults ≡ 0) }
        ensures size { IfOk result (λ disk. (file_moment disk).size ≡ len ⊎ 0 < (file_moment disk).size) }
        ensures open { IfOk result (IsOpenAs ToWrite Exclusive) }
    {
        let opened = make_file(rt, path, len)?;
        Ok(disk_of(opened))
    }
}

fn disk_of(opened: Opened) -> FileDisk
    ensures faults { result.pages.disk.faults ≡ 0 }
    ensures len { result.pages.disk.file.len ≡ opened.len }
    ensures id { result.pages.disk.file.home.id ≡ opened.home.id }
    ensures access { result.pages.disk.file.access ≡ opened.access }
    ensures sharing { result.pages.disk.file.sharing ≡ opened.sharing }
{
    FileDisk {
        pages: WholePages::new(CountedFile::new(opened)),
    }
}

impl Disk for FileDisk {
    ghost use Rattle.edge_file.specs.FileDisk.{file_moment};

    ghost tells = { ⊥ };

    ghost tells_images = { λ _. ⊥ };

    ghost moment = { file_moment };

    ghost may_release = { λ _. Unit {0} };

    ghost may_tear = { λ _ _ _. Unit {0} };

    ghost reads_too = { λ d images. images };

    ghost fits = { λ d. d.pages.disk.file.fits };

    ghost lawful = { λ d tells. absurd tells };

    ghost stands_in = { λ d t c tells. absurd tells };

    fn len(&self) -> u64 {
        self.pages.len()
    }

    fn read_at(&mut self, at: u64, buf: &mut [u8]) -> Result<(), DiskFault> {
        self.pages.read_at(at, buf)
    }

    fn write_at(&mut self, at: u64, piece: &[u8]) -> Result<(), DiskFault> {
        self.pages.write_at(at, piece)
    }

    fn sync(&mut self) -> Result<(), DiskFault> {
        self.pages.sync()
    }
}
