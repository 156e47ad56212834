//! A file as it is opened, before it is locked.
ghost use Rattle.std.specs.Prelude.{◌≡◌, ◌↔◌, IfOk, IsTrue, true};
ghost use Rattle.std.specs.Fs.{asks_read, asks_write, asks_create};
ghost use Rattle.edge_file.specs.declared.unlocked.Access.TheVariants.{ToRead, ToWrite};

use crate::OpenFault;
use crate::file_id::FileId;
use std::fs::{self, File, OpenOptions};
use std::io;
use std::os::unix::fs::{FileTypeExt, OpenOptionsExt};

// Who may read and write a file that is made: its owner alone, since it holds what senders log.
const MODE: u32 = 0o600;

/// What a file is opened for.
#[derive(Clone, Copy, PartialEq, Eq)]
pub enum Access {
    /// To be read alone.
    ToRead,
    /// To be read and written.
    ToWrite,
}

/// A file or a block device that is open, and not locked.
#[derive(Drop)]
pub(crate) struct Unlocked {
    pub file: File,
    /// Which file it is.
    pub id: FileId,
    /// What it was opened for.
    pub access: Access,
}

// How the system is asked for a file. It is made where it isn't there and `create` says so.
fn options_for(access: Access, create: bool) -> OpenOptions
    ensures read { asks_read result ≡ true }
    ensures write { IsTrue (asks_write result) ↔ (access ≡ ToWrite) }
    ensures create { asks_create result ≡ create }
{
    let mut options = OpenOptions::new();
    options.mode(MODE);
    options.read(true);
    options.write(access == Access::ToWrite);
    options.create(create);
    options
}

impl Unlocked {
    /// The file of this path. It is made where it isn't there and `create` says so; then only its owner may read and write it, from the first
    /// moment on.
    pub(crate) fn open(
        rt: &HostRuntime,
        path: &str,
        access: Access,
        create: bool,
    ) -> io::Result<Unlocked>
        ensures { IfOk result (λ unlocked. unlocked.access ≡ access) }
    {
        let file = options_for(access, create).open(rt, path)?;
        let id = FileId::of(&file)?;
        Ok(Unlocked { file, id, access })
    }

    /// A file or a block device that exists, opened to be read alone. Anything else isn't opened: to open a pipe would wait for whoever writes
    /// to it.
    pub(crate) fn open_to_read(rt: &HostRuntime, path: &str) -> Result<Unlocked, OpenFault>
        ensures { IfOk result (λ unlocked. unlocked.access ≡ ToRead) }
    {
        let metadata = fs::metadata(rt, path)?;
        if metadata.is_dir() {
            return Err(OpenFault::IsFolder);
        }
        if !metadata.is_file() && !metadata.file_type().is_block_device() {
            return Err(OpenFault::NoFile);
        }
        let unlocked = Unlocked::open(rt, path, Access::ToRead, false)?;
        Ok(unlocked)
    }
}
