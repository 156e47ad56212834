//! Where FILE and TARGET are opened.
ghost use Rattle.std.specs.Prelude.{IfOk, ℕ, List};
ghost use Rattle.edge_file.specs.declared.open_fault.Sharing.TheVariants.{Exclusive};
ghost use Rattle.cli_files.specs.declared.files.How.{How};
ghost use Rattle.cli_files.specs.declared.files.How.TheVariants.{Existing, ToRead};

use cli_parts::make_disk;
use edge_disk::Disk;
use edge_file::{FileDisk, OpenFault, PairFault, Sharing};

/// How a file is opened.
#[derive(Clone, Copy, PartialEq, Eq)]
pub enum How {
    /// One that exists, to read and write it, shared so.
    Existing(Sharing),
    /// For this program alone. Where there is none or an empty one, it gets so many zero bytes.
    Made(u64),
    /// One that exists, to be read alone, beside others that read it.
    ToRead,
}

/// Where files are opened as disks, by their paths.
pub trait Files {
    /// A file that was opened.
    type D: Disk + Drop + Send;

    /// The file of that path was opened so, as this disk.
    ghost opened: { List ℕ → How → Self.D → Type 0 };

    /// Opens the file of that path, and says why it isn't opened.
    fn open(&self, path: &str, how: How) -> Result<Self::D, OpenFault>
        ensures { IfOk result (opened path.now how) };

    /// Opens two files that exist, each for this program alone, and says why they aren't opened. They are not one file.
    fn open_both(&self, first: &str, second: &str) -> Result<(Self::D, Self::D), PairFault>
        ensures { IfOk result (λ disks. opened first.now (Existing Exclusive) disks.0 × opened second.now (Existing Exclusive) disks.1) };

    /// Opens two files that exist, the first to be read alone, beside others that read it, and the second for this program alone, and says
    /// why they aren't opened. They are not one file.
    fn open_beside(&self, first: &str, second: &str) -> Result<(Self::D, Self::D), PairFault>
        ensures { IfOk result (λ disks. opened first.now ToRead disks.0 × opened second.now (Existing Exclusive) disks.1) };
}

/// The files of the system.
#[derive(Drop)]
pub struct SystemFiles<'a> {
    rt: &'a HostRuntime,
}

impl<'a> SystemFiles<'a> {
    /// Those that this program may open.
    pub fn new(rt: &'a HostRuntime) -> SystemFiles<'a> {
        SystemFiles { rt }
    }
}

impl Files for SystemFiles<'_> {
    type D = FileDisk;

    /// What the system opened is trusted.
    ghost opened = { λ _ _ _. Unit {0} };

    fn open(&self, path: &str, how: How) -> Result<FileDisk, OpenFault> {
        match how {
            How::Existing(sharing) => FileDisk::open_locked(self.rt, path, sharing),
            How::Made(len) => make_disk(self.rt, path, len),
            How::ToRead => FileDisk::open_to_read(self.rt, path),
        }
    }

    fn open_both(&self, first: &str, second: &str) -> Result<(FileDisk, FileDisk), PairFault> {
        FileDisk::open_both(self.rt, first, second)
    }

    fn open_beside(&self, first: &str, second: &str) -> Result<(FileDisk, FileDisk), PairFault> {
        FileDisk::open_beside(self.rt, first, second)
    }
}
